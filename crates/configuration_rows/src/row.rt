// The rows of a configuration, and the paths of their keys.

ghost use Rattle.std.specs.Prelude.{◌≡◌, ◌++◌, IfOk, OnOk, string_bytes};
ghost use Rattle.configuration_rows.specs.Paths.{row_text, path_text, place_text};

use sso_base::{NoMemory, Text};
use std::alloc::Global;

/// A row: the provider, or a user, client or party with its index, counted from 0.
#[derive(Clone, Copy)]
pub enum Row {
    /// The provider.
    Provider,
    /// The user at this index.
    User(usize),
    /// The client at this index.
    Client(usize),
    /// The party at this index.
    Party(usize),
}

// Appends a table's name and an index, as `client[0]`.
fn push_place(alloc: Global, text: &mut String, name: &str, place: usize) -> Result<(), NoMemory>
    ensures { OnOk result (string_bytes text.new ≡ string_bytes text.old ++ place_text name.now place) }
{
    text.push_str(name)?;
    text.push_str("[")?;
    let number = place.to_string(alloc)?;
    text.push_str(number.as_str())?;
    text.push_str("]")?;
    Ok(())
}

fn push_row(alloc: Global, text: &mut String, row: Row) -> Result<(), NoMemory>
    ensures { OnOk result (string_bytes text.new ≡ string_bytes text.old ++ row_text row) }
{
    match row {
        Row::Provider => Ok(text.push_str("provider")?),
        Row::User(place) => push_place(alloc, text, "user", place),
        Row::Client(place) => push_place(alloc, text, "client", place),
        Row::Party(place) => push_place(alloc, text, "party", place),
    }
}

impl Row {
    // The path of a key of this row, as `client[0].secret`.
    pub(crate) fn path(self, alloc: Global, key: &str) -> Result<Text, NoMemory>
        ensures { IfOk result (λ t. t ≡ path_text self key.now) }
    {
        let mut text = String::new(alloc);
        push_row(alloc, &mut text, self)?;
        text.push_str(".")?;
        text.push_str(key)?;
        Ok(Text::from_string(text))
    }
}

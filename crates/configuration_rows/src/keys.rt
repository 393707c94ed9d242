// The errors of a row at one key.

ghost use Rattle.std.specs.Prelude.{◌≡◌, ◌++◌, OnOk};
ghost use Rattle.toml.specs.View.{view};
ghost use Rattle.configuration_rows.specs.Paths.{path_text};
ghost use Rattle.configuration_rows.specs.Kinds.{breach as breach_in};
ghost use Rattle.configuration_rows.specs.Rows.{breached, required as required_in, optional as optional_in, array_rule};

use crate::kind::{Breach, Kind, breach_of};
use crate::no::RegNo;
use crate::refusals::Refusals;
use crate::row::Row;
use sso_base::{NoMemory, Text};
use toml::Value;

fn note_breach(refusals: &mut Refusals, path: Text, breach: Option<Breach>) -> Result<(), NoMemory>
    ensures { OnOk result (refusals.new ≡ refusals.old ++ breached path breach) }
{
    match breach {
        None => Ok(()),
        Some(Breach::WrongKind) => refusals.note(RegNo::WrongKind(path)),
        Some(Breach::BadUrl) => refusals.note(RegNo::BadUrl(path)),
    }
}

fn note_value(
    refusals: &mut Refusals,
    row: Row,
    value: &Value,
    key: &str,
    kind: Kind,
) -> Result<(), NoMemory>
    ensures { OnOk result (refusals.new ≡ refusals.old ++ breached (path_text row key.now) (breach_in kind (view value.now))) }
{
    let alloc = refusals.alloc();
    let breach = breach_of(alloc, kind, value)?;
    if breach.is_none() {
        return Ok(());
    }
    note_breach(refusals, row.path(alloc, key)?, breach)
}

// Checks a required key.
pub(crate) fn required(
    refusals: &mut Refusals,
    row: Row,
    values: &Value,
    key: &str,
    kind: Kind,
) -> Result<(), NoMemory>
    ensures { OnOk result (refusals.new ≡ refusals.old ++ required_in row (view values.now) key.now kind) }
{
    match values.get(key) {
        Some(value) => note_value(refusals, row, value, key, kind),
        None => {
            let path = row.path(refusals.alloc(), key)?;
            refusals.note(RegNo::Missing(path))
        }
    }
}

// Checks a key that is optional or has a default.
pub(crate) fn optional(
    refusals: &mut Refusals,
    row: Row,
    values: &Value,
    key: &str,
    kind: Kind,
) -> Result<(), NoMemory>
    ensures { OnOk result (refusals.new ≡ refusals.old ++ optional_in row (view values.now) key.now kind) }
{
    match values.get(key) {
        Some(value) => note_value(refusals, row, value, key, kind),
        None => Ok(()),
    }
}

// Checks that rows are in an array, if there are any.
pub(crate) fn array(refusals: &mut Refusals, root: &Value, key: &str) -> Result<(), NoMemory>
    ensures { OnOk result (refusals.new ≡ refusals.old ++ array_rule key.now (view root.now)) }
{
    match root.get(key) {
        Some(value) if value.as_array().is_none() => {
            let path = Text::new(refusals.alloc(), key)?;
            refusals.note(RegNo::WrongKind(path))
        }
        _ => Ok(()),
    }
}

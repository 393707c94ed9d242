// The names in a URL's query.

ghost use Rattle.std.specs.Prelude.{◌≡◌, IfOk};
ghost use Rattle.registered_url.specs.Query.{form_names, query_names};

use crate::web_url::WebUrl;
use form_urlencoded::parse;
use sso_base::{NoMemory, Text, Texts};
use std::alloc::Global;

// The names of a form, in order.
fn names_of_form(alloc: Global, form: &[u8]) -> Result<Texts, NoMemory>
    ensures { IfOk result (λ t. t ≡ form_names form.now) }
{
    let mut names = Texts::new(alloc);
    for pair in parse(alloc, form).into_owned() {
        let (name, _value) = pair?;
        names.push(Text::from_string(name))?;
    }
    Ok(names)
}

impl WebUrl {
    /// The names in the query, parsed as a form (the URL Standard, 5.1), in order; none if there is no query.
    pub fn query_names(&self, alloc: Global) -> Result<Texts, NoMemory>
        ensures { IfOk result (λ t. t ≡ query_names self.now) }
    {
        match &self.query {
            Some(query) => names_of_form(alloc, query.as_str().as_bytes()),
            None => Ok(Texts::new(alloc)),
        }
    }
}

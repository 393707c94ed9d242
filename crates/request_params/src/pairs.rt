// The pairs of a form (the URL Standard, 5.1).

ghost use Rattle.std.specs.Prelude.{◌≡◌, IfOk, option_map};
ghost use Rattle.request_params.specs.Form.{form_pairs};
ghost use Rattle.request_params.specs.Reading.{value_of as value_in};

use form_urlencoded::parse;
use sso_base::{NoMemory, Text};
use std::alloc::Global;

/// A name and its value.
pub type Pair = (Text, Text);

/// The pairs of a form, in order (the URL Standard, 5.1), including those with an empty value. In names and values, `+` is a
/// space, escapes are decoded, and invalid UTF-8 becomes U+FFFD.
#[tactic(auto, unfolding(crate::specs::Form::form_pairs))]
pub fn read_pairs(alloc: Global, form: &[u8]) -> Result<Vec<Pair>, NoMemory>
    ensures { IfOk result (λ v. v.items ≡ form_pairs form.now) }
{
    let mut pairs = Vec::new(alloc);
    for pair in parse(alloc, form).into_owned() {
        let (name, value) = pair?;
        pairs.push((Text::from_string(name), Text::from_string(value)))?;
    }
    Ok(pairs)
}

/// The value of the first pair with this name. It allocates nothing.
pub fn value_of<'a>(pairs: &'a [Pair], name: &str) -> Option<&'a Text>
    ensures { option_map (λ t. t.now) result ≡ value_in name.now pairs.now }
{
    for pair in pairs {
        if pair.0.as_str() == name {
            return Some(&pair.1);
        }
    }
    None
}

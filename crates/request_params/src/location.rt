// Appending pairs to a URL.

ghost use Rattle.std.specs.Prelude.{◌≡◌, ◌++◌, map, codes, IfOk};
ghost use Rattle.form_urlencoded.specs.Form.{pair_text};
ghost use Rattle.request_params.specs.Form.{form_text};
ghost use Rattle.request_params.specs.Location as spec;

use form_urlencoded::Serializer;
use sso_base::{NoMemory, Text};
use std::alloc::Global;

// The text of a form.
#[tactic(auto, unfolding(crate::specs::Form::form_text))]
fn print_pairs(alloc: Global, pairs: &[(&str, &str)]) -> Result<Text, NoMemory>
    ensures { IfOk result (λ t. t ≡ form_text (map pair_text pairs.now)) }
{
    let mut form = Serializer::new(String::new(alloc));
    form.extend_pairs(pairs)?;
    Ok(Text::from_string(form.finish()))
}

// The concatenation of three texts.
fn joined(alloc: Global, url: &str, mark: &str, form: &str) -> Result<Text, NoMemory>
    ensures { IfOk result (λ t. t ≡ url.now ++ mark.now ++ form.now) }
{
    let mut text = String::from_str(alloc, url)?;
    text.push_str(mark)?;
    text.push_str(form)?;
    Ok(Text::from_string(text))
}

// Whether the URL has a query.
fn has_query(url: &str) -> bool
    ensures { result ≡ spec.has_query url.now }
{
    url.as_bytes().iter().any(|byte| *byte == b'?')
}

fn query_mark(url: &str) -> &'static str
    ensures { result.now ≡ spec.query_mark url.now }
{
    if has_query(url) { "&" } else { "?" }
}

/// The URL with these names and values in its query: after `?`, or after `&` if the URL already has a `?`. They are written as
/// a form, in order (the URL Standard, 5.2). The URL is not parsed, so a fragment would swallow them.
#[tactic(auto, unfolding(crate::specs::Location::with_query))]
pub fn with_query(alloc: Global, url: &Text, pairs: &[(&str, &str)]) -> Result<Text, NoMemory>
    ensures { IfOk result (λ t. t ≡ spec.with_query url.now (map pair_text pairs.now)) }
{
    let form = print_pairs(alloc, pairs)?;
    joined(alloc, url.as_str(), query_mark(url.as_str()), form.as_str())
}

/// The URL with these names and values as its fragment, after `#`. They are written as a form, in order (OAuth 2.0 Multiple
/// Response Type Encoding Practices, 2.1).
#[tactic(auto, unfolding(crate::specs::Location::with_fragment))]
pub fn with_fragment(alloc: Global, url: &Text, pairs: &[(&str, &str)]) -> Result<Text, NoMemory>
    ensures { IfOk result (λ t. t ≡ spec.with_fragment url.now (map pair_text pairs.now)) }
{
    let form = print_pairs(alloc, pairs)?;
    joined(alloc, url.as_str(), "#", form.as_str())
}

// A location with the value of a parameter of another location.

ghost use Rattle.std.specs.Prelude.{◌≡◌, map, IfOk};
ghost use Rattle.std.specs.Option.{option_copied};
ghost use Rattle.form_urlencoded.specs.Form.{pair_text};
ghost use Rattle.request_params.specs.Form.{form_text};
ghost use Rattle.request_params.specs.Reading.{has_name};
ghost use Rattle.web_requests.specs.Mixing as spec;

use crate::location::Location;
use form_urlencoded::Serializer;
use request_params::{Pair, read_pairs, value_of};
use sso_base::{Blob, NoMemory, Text};
use std::alloc::Global;

// The form of these pairs.
#[tactic(auto, unfolding(request_params::specs::Form::form_text))]
fn written_form(alloc: Global, pairs: &[(&str, &str)]) -> Result<Blob, NoMemory>
    ensures { IfOk result (λ b. b ≡ form_text (map pair_text pairs.now)) }
{
    let mut form = Serializer::new(String::new(alloc));
    form.extend_pairs(pairs)?;
    Ok(Blob::from_vec(form.finish().into_bytes()))
}

fn form_of(location: &Location) -> &Blob
    ensures { result.now ≡ spec.form_of location.now }
{
    match location {
        Location::Provider { query } => query,
        Location::Client { form, .. } => form,
    }
}

// The location with another form.
fn with_form(alloc: Global, location: &Location, form: Blob) -> Result<Location, NoMemory>
    ensures { IfOk result (λ l. l ≡ spec.with_form location.now form) }
{
    match location {
        Location::Provider { .. } => Ok(Location::Provider { query: form }),
        Location::Client {
            redirect,
            fragment,
            ..
        } => Ok(Location::Client {
            redirect: redirect.copy(alloc)?,
            fragment: *fragment,
            form,
        }),
    }
}

// Whether a pair has the name.
fn has_name(pairs: &[Pair], name: &str) -> bool
    ensures { result ≡ has_name name.now pairs.now }
{
    value_of(pairs, name).is_some()
}

// The pairs, with this value for each of this name.
fn with_value<'a>(
    alloc: Global,
    name: &'a str,
    value: &'a str,
    pairs: &'a [Pair],
) -> Result<Vec<(&'a str, &'a str)>, NoMemory>
    ensures { IfOk result (λ v. map pair_text v.items ≡ spec.with_value name.now value.now pairs.now) }
{
    let mut mixed = Vec::new(alloc);
    for pair in pairs {
        if pair.0.as_str() == name {
            mixed.push((name, value))?;
        } else {
            mixed.push((pair.0.as_str(), pair.1.as_str()))?;
        }
    }
    Ok(mixed)
}

// The form of the pairs with another value for the name.
fn mixed_form(
    alloc: Global,
    name: &str,
    pairs: &[Pair],
    value: Option<&Text>,
) -> Result<Option<Blob>, NoMemory>
    ensures { IfOk result (λ o. o ≡ spec.mixed_form name.now pairs.now (option_copied value.entry)) }
{
    let Some(value) = value else {
        return Ok(None);
    };
    if !has_name(pairs, name) {
        return Ok(None);
    }
    let mixed = with_value(alloc, name, value.as_str(), pairs)?;
    Ok(Some(written_form(alloc, &mixed)?))
}

/// The location in which each parameter with this name has the value of the first such parameter in the other location. `None`
/// if either location has no parameter with this name.
///
/// The parameters are those of the form: also of one in the fragment, and of one in the query together with the registered
/// query (the URL Standard, 5.1 and 5.2).
#[tactic(auto, unfolding(crate::specs::Mixing::mixed))]
pub fn mixed(
    alloc: Global,
    name: &str,
    location: &Location,
    other: &Location,
) -> Result<Option<Location>, NoMemory>
    ensures { IfOk result (λ o. o ≡ spec.mixed name.now location.now other.now) }
{
    let pairs = read_pairs(alloc, form_of(location).as_bytes())?;
    let others = read_pairs(alloc, form_of(other).as_bytes())?;
    match mixed_form(alloc, name, &pairs, value_of(&others, name))? {
        Some(form) => Ok(Some(with_form(alloc, location, form)?)),
        None => Ok(None),
    }
}

// The contents of the parameters of an authorization request (OpenID Connect Core 1.0, 3.1.2.1).

ghost use Rattle.std.specs.Prelude.{◌≡◌, IfOk};
ghost use Rattle.auth_request.specs.Parameters as spec;

use crate::claims_parameter::{Asked, claims_of};
use oidc_words::{Prompt, Scopes, number_of_type, parameter_words};
use request_params::Params;
use sso_base::{NoMemory, Text};
use std::alloc::Global;

// The greatest number of digits of an age.
const MOST_DIGITS: usize = 9;

// The contents of the parameters, each read once.
#[derive(Drop)]
pub(crate) struct Asking {
    // The number of the response type among the six, counted from 0.
    pub(crate) number: Option<usize>,
    pub(crate) scopes: Scopes,
    pub(crate) prompt: Prompt,
    // In seconds. It is also `None` if the parameter is no such number.
    pub(crate) max_age: Option<u64>,
    pub(crate) claims: Asked,
}

fn type_of(text: &Option<Text>) -> Option<usize>
    ensures { result ≡ spec.type_of text.now }
{
    match text {
        Some(text) => number_of_type(text.as_str()),
        None => None,
    }
}

// The number of 1 to 9 decimal digits.
fn age_in(text: &str) -> Option<u64>
    ensures { result ≡ spec.age_in text.now }
{
    let digits = text.as_bytes();
    if digits.is_empty() || digits.len() > MOST_DIGITS {
        return None;
    }
    let mut age = 0u64;
    for digit in digits {
        if !digit.is_ascii_digit() {
            return None;
        }
        age = age * 10 + (*digit - b'0') as u64;
    }
    Some(age)
}

fn age_of(text: &Option<Text>) -> Option<u64>
    ensures { result ≡ spec.age_of text.now }
{
    match text {
        Some(text) => age_in(text.as_str()),
        None => None,
    }
}

// The contents of the parameters.
#[tactic(auto, unfolding(crate::specs::Parameters::asking_of))]
pub(crate) fn asking_of(alloc: Global, params: &Params) -> Result<Asking, NoMemory>
    ensures { IfOk result (λ a. a ≡ spec.asking_of params.now) }
{
    let scope = parameter_words(alloc, &params.scope)?;
    let prompt = parameter_words(alloc, &params.prompt)?;
    Ok(Asking {
        number: type_of(&params.response_type),
        scopes: Scopes::among(&scope),
        prompt: Prompt::among(&prompt),
        max_age: age_of(&params.max_age),
        claims: claims_of(alloc, &params.claims)?,
    })
}

// Writing the locations of responses.

ghost use Rattle.std.specs.Prelude.{◌≡◌, map, option_map, IfOk};
ghost use Rattle.form_urlencoded.specs.Form.{pair_text};
ghost use Rattle.sso_base.specs.Words as words;
ghost use Rattle.auth_answer.specs.Params.{param_text};
ghost use Rattle.auth_answer.specs.Printing as spec;

use crate::answer::Answer;
use oidc_words::{BEARER, EXPIRES_IN, Refusal, error_text};
use request_params::{with_fragment, with_query};
use sso_base::{NoMemory, Text, Word};
use std::alloc::Global;

// The text of the word, if there is one.
fn word_text(alloc: Global, word: &Option<Word>) -> Result<Option<Text>, NoMemory>
    ensures { IfOk result (λ o. o ≡ option_map words.word_text word.now) }
{
    match word {
        Some(word) => Ok(Some(word.to_text(alloc)?)),
        None => Ok(None),
    }
}

// The text itself, if there is one.
fn as_str(text: &Option<Text>) -> Option<&str>
    ensures { option_map (λ t. t.now) result ≡ text.now }
{
    match text {
        Some(text) => Some(text.as_str()),
        None => None,
    }
}

// This text, if there is an access token.
fn beside(access: &Option<Text>, text: &'static str) -> Option<&'static str>
    ensures { option_map (λ t. t.now) result ≡ option_map (λ _. text.now) access.now }
{
    match access {
        Some(_) => Some(text),
        None => None,
    }
}

// The parameters that have a value, as pairs.
fn pairs_of<'a>(
    alloc: Global,
    params: &[(&'a str, Option<&'a str>)],
) -> Result<Vec<(&'a str, &'a str)>, NoMemory>
    ensures { IfOk result (λ v. map pair_text v.items ≡ spec.pairs_of (map param_text params.now)) }
{
    let mut pairs = Vec::new(alloc);
    for param in params {
        let (name, value) = *param;
        if let Some(value) = value {
            pairs.push((name, value))?;
        }
    }
    Ok(pairs)
}

// The URL with these pairs as its fragment, or in its query.
fn located(
    alloc: Global,
    url: &Text,
    fragment: bool,
    pairs: &[(&str, &str)],
) -> Result<Text, NoMemory>
    ensures { IfOk result (λ t. t ≡ spec.located url.now fragment (map pair_text pairs.now)) }
{
    if fragment {
        with_fragment(alloc, url, pairs)
    } else {
        with_query(alloc, url, pairs)
    }
}

// The parameters of a successful response that have a value, as pairs.
fn answer_pairs<'a>(
    alloc: Global,
    code: &'a Option<Text>,
    access: &'a Option<Text>,
    id: &'a Option<Text>,
    state: &'a Option<Text>,
) -> Result<Vec<(&'a str, &'a str)>, NoMemory>
    ensures { IfOk result (λ v. map pair_text v.items ≡ spec.pairs_of (spec.params_of code.now access.now id.now state.now)) }
{
    let params = [
        ("code", as_str(code)),
        ("access_token", as_str(access)),
        ("token_type", beside(access, BEARER)),
        ("expires_in", beside(access, EXPIRES_IN)),
        ("id_token", as_str(id)),
        ("state", as_str(state)),
    ];
    pairs_of(alloc, &params)
}

/// The location to which a user agent is sent with a successful response (OpenID Connect Core 1.0, 3.1.2.5, 3.2.2.5 and
/// 3.3.2.5; OAuth 2.0 Multiple Response Type Encoding Practices, 5). It is the redirect URI, then `#`, or `?`, or `&` if the
/// URI already has a `?`, and then a form. The form has those that are present of `code`, `access_token`, `token_type`,
/// `expires_in`, `id_token` and `state`, in this order.
///
/// If and only if there is an access token, `token_type` is `Bearer` and `expires_in` is its life, in seconds (RFC 6749,
/// 4.2.2).
#[tactic(auto, unfolding(crate::specs::Printing::answer_location))]
pub fn print_answer(alloc: Global, answer: &Answer) -> Result<Text, NoMemory>
    ensures { IfOk result (λ t. t ≡ spec.answer_location answer.now) }
{
    let code = word_text(alloc, &answer.code)?;
    let access = word_text(alloc, &answer.access)?;
    let pairs = answer_pairs(alloc, &code, &access, &answer.id, &answer.state)?;
    located(alloc, &answer.redirect, answer.fragment, &pairs)
}

/// The location to which a user agent is sent with an error response (OpenID Connect Core 1.0, 3.1.2.6 and 3.2.2.6; RFC 6749,
/// 4.1.2.1 and 4.2.2.1): as for [`print_answer`], with a form of `error` and, if it is present, `state`.
#[tactic(auto, unfolding(crate::specs::Printing::refusal_location))]
pub fn print_refusal(alloc: Global, refusal: &Refusal) -> Result<Text, NoMemory>
    ensures { IfOk result (λ t. t ≡ spec.refusal_location refusal.now) }
{
    let params = [
        ("error", Some(error_text(refusal.code))),
        ("state", as_str(&refusal.state)),
    ];
    let pairs = pairs_of(alloc, &params)?;
    located(alloc, &refusal.redirect, refusal.fragment, &pairs)
}

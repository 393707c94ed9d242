// The words of the scope of an authorization request, among its merged parameters.

ghost use Rattle.std.specs.Prelude.{◌≡◌, false, IfOk, unwrap_or, option_map};
ghost use Rattle.oidc_words.specs.Words.{has_word as has_word_of};
ghost use Rattle.request_params.specs.Reading.{request_read};
ghost use Rattle.op_request.specs.Prepared as spec;

use crate::prepare::{client_named, with_object};
use client_registry::Registry;
use oidc_words::has_word;
use request_params::{AskNo, Params, form_of, read_request};
use sso_base::{Ask, NoMemory, Text};
use std::alloc::Global;

// Whether there is a text that has the word.
fn text_has_word(text: &Option<Text>, word: &str) -> bool
    ensures { result ≡ unwrap_or (option_map (has_word_of word.now) text.now) false }
{
    match text {
        Some(text) => has_word(text.as_str(), word),
        None => false,
    }
}

// Whether the scope of merged parameters has the word.
fn has_scope(whole: &Option<Params>, word: &str) -> bool
    ensures { result ≡ spec.has_scope word.now whole.now }
{
    match whole {
        Some(whole) => text_has_word(&whole.scope, word),
        None => false,
    }
}

// Whether the scope of a request has the word. Its request object is read if its client is known.
fn whole_has_scope(
    alloc: Global,
    registry: &Registry,
    params: &Params,
    word: &str,
) -> Result<bool, NoMemory>
    ensures { IfOk result (λ b. b ≡ spec.has_scope word.now
        (spec.whole_by registry.now params.now (spec.client_named registry.now params.now) params.now.request)) }
{
    match (client_named(registry, params), &params.request) {
        (Some(client), Some(object)) => {
            let whole = with_object(alloc, registry, client, params, object)?;
            Ok(has_scope(&whole, word))
        }
        _ => Ok(text_has_word(&params.scope, word)),
    }
}

// The same, from the form of the parameters.
fn form_has_scope(
    alloc: Global,
    registry: &Registry,
    form: &[u8],
    word: &str,
) -> Result<bool, NoMemory>
    ensures { IfOk result (λ b. b ≡ spec.scope_in registry.now word.now (request_read form.now)) }
{
    let params = match read_request(alloc, form) {
        Ok(params) => params,
        Err(AskNo::NoMemory) => return Err(NoMemory),
        Err(_) => return Ok(false),
    };
    whole_has_scope(alloc, registry, &params, word)
}

/// Whether the parameter `scope` of an authorization request has a word, among its parameters merged with those of its request object
/// (OpenID Connect Core 1.0, 3.1.2.1 and 6.1). If the request object is rejected, it has none.
#[tactic(auto, unfolding(crate::specs::Prepared::asks_for_scope))]
pub fn asks_for_scope(
    alloc: Global,
    registry: &Registry,
    request: &Ask,
    word: &str,
) -> Result<bool, NoMemory>
    ensures { IfOk result (λ b. b ≡ spec.asks_for_scope registry.now request.now word.now) }
{
    form_has_scope(alloc, registry, form_of(request), word)
}

// The premises at the next place, by its request: whether a token is forged, and whether a cookie leaks.

ghost use Rattle.std.specs.Prelude.{◌≡◌, ◌<◌, length, IfSome, IfOk};
ghost use Rattle.std.specs.List.{list_any};
ghost use Rattle.std.specs.Option.{option_or};
ghost use Rattle.sso_base.specs.Words.{Word as WordOf};
ghost use Rattle.sso_places.specs.Cookies.{http_words, party_words};
ghost use Rattle.sso_places.specs.FirstBroken.{verdict as verdict_of};
ghost use Rattle.world_index.specs.Setting.{set_for_other};
ghost use Rattle.running_world.specs.declared.judging.TokenText.{TokenText as TokenOf};
ghost use Rattle.running_world.specs.Forging as spec;

use crate::judging::{TokenText, is_sealed};
use client_registry::Registry;
use sso_base::{Ask, NoMemory, Word};
use sso_places::{Broken, WorldAsk};
use std::alloc::Global;
use world_index::{Setters, Written};

// Whether there is a word and it was set for another number.
fn is_set_for_other(setters: &Setters, word: &Option<Word>, from: u32) -> bool
    ensures { result ≡ spec.set_if setters.now from word.now }
{
    match word {
        Some(word) => setters.is_set_for_other(word, from),
        None => false,
    }
}

/// Whether the request presents a cookie that was set for another number.
#[tactic(auto, using(crate::proofs::Forging::any_of_two))]
pub(crate) fn leaks(setters: &Setters, request: &Ask, from: u32) -> bool
    ensures { result ≡ list_any (λ (w : WordOf). set_for_other setters.now w from) (http_words request.now) }
{
    is_set_for_other(setters, &request.first, from)
        || is_set_for_other(setters, &request.second, from)
}

/// The same for a request to a party. The answer of a server presents no cookie.
pub(crate) fn ask_leaks(setters: &Setters, ask: &WorldAsk, from: u32) -> bool
    ensures { result ≡ list_any (λ (w : WordOf). set_for_other setters.now w from) (party_words ask.now) }
{
    match ask {
        WorldAsk::Http(request) => leaks(setters, request, from),
        _ => false,
    }
}

// Whether the token is sealed under a secret of the client, but was not written for the client. A written token needs no MAC
// check.
fn is_forged(
    alloc: Global,
    registry: &Registry,
    written: &Written,
    token: &TokenText,
) -> Result<bool, NoMemory>
    requires { token.now.client < length registry.now.clients }
    ensures { IfOk result (λ b. b ≡ spec.is_forged registry.now written.now token.now) }
{
    if written.is_written_for(&token.text, token.client) {
        return Ok(false);
    }
    is_sealed(alloc, registry, token)
}

/// Whether there is a token and it is forged.
pub(crate) fn forges(
    alloc: Global,
    registry: &Registry,
    written: &Written,
    token: &Option<TokenText>,
) -> Result<bool, NoMemory>
    requires { IfSome token.now (λ (t : TokenOf). t.client < length registry.now.clients) }
    ensures { IfOk result (λ b. b ≡ spec.forges registry.now written.now token.now) }
{
    match token {
        Some(token) => is_forged(alloc, registry, written, token),
        None => Ok(false),
    }
}

/// The premise that fails at the place with this number: a forged token comes before a leaked cookie.
pub(crate) fn verdict(number: u64, forged: bool, leaked: bool) -> Option<Broken>
    ensures { result ≡ verdict_of number forged leaked }
{
    if forged {
        Some(Broken::Forged(number))
    } else if leaked {
        Some(Broken::Leaked(number))
    } else {
        None
    }
}

/// The first failure.
pub(crate) fn first_of(before: Option<Broken>, later: Option<Broken>) -> Option<Broken>
    ensures { result ≡ option_or before later }
{
    match before {
        Some(broken) => Some(broken),
        None => later,
    }
}

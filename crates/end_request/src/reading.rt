// Reading requests to end a session.

ghost use Rattle.std.specs.Prelude.{◌≡◌, ◌<◌, length, option_map, IfOk};
ghost use Rattle.request_params.specs.Reading as params;
ghost use Rattle.end_request.specs.Ending as spec;

use crate::hints::fitting;
use crate::returns::Returns;
use crate::wish::{EndNo, EndWish};
use client_registry::Registry;
use request_params::{Pair, read_pairs, value_of};
use sso_base::{NoMemory, Text};
use std::alloc::Global;

// ---- the pairs that count

fn is_end_name(name: &str) -> bool
    ensures { result ≡ spec.is_end_name name.now }
{
    name == "id_token_hint"
        || name == "client_id"
        || name == "post_logout_redirect_uri"
        || name == "state"
}

fn counts(pair: &Pair) -> bool
    ensures { result ≡ spec.counts pair.now }
{
    is_end_name(pair.0.as_str()) && !pair.1.as_str().is_empty()
}

fn end_pairs(alloc: Global, form: &[u8]) -> Result<Vec<Pair>, NoMemory>
    ensures { IfOk result (λ v. v.items ≡ spec.end_pairs form.now) }
{
    let mut pairs = read_pairs(alloc, form)?;
    pairs.retain(|pair| counts(pair));
    Ok(pairs)
}

fn has_name(pairs: &[Pair], name: &str) -> bool
    ensures { result ≡ params.has_name name.now pairs.now }
{
    pairs.iter().any(|pair| pair.0.as_str() == name)
}

// Whether the name at the place occurs before it.
fn stands_before(pairs: &[Pair], place: usize) -> bool
    requires { place < length pairs.now }
    ensures { result ≡ spec.stands_before pairs.now place }
{
    has_name(&pairs[..place], pairs[place].0.as_str())
}

// The first name that occurs again.
fn first_repeated(pairs: &[Pair]) -> Option<&Text>
    ensures { option_map (λ t. t.now) result ≡ params.first_repeated pairs.now }
{
    for place in 0..pairs.len() {
        if stands_before(pairs, place) {
            return Some(&pairs[place].0);
        }
    }
    None
}

// ---- the client, and where the browser goes

// The client that the request names, if it names one.
fn named_client(registry: &Registry, id: Option<&Text>) -> Result<Option<u32>, EndNo>
    ensures { result ≡ spec.named_client registry.now (option_map (λ t. t.now) id.entry) }
{
    match id {
        Some(id) => match registry.find_client(id.as_str().as_bytes()) {
            Some(n) => Ok(Some(n)),
            None => Err(EndNo::Client),
        },
        None => Ok(None),
    }
}

// The client of the hint, if there is a hint.
fn hinted_client(
    alloc: Global,
    registry: &Registry,
    named: Option<u32>,
    hint: Option<&Text>,
) -> Result<Result<Option<u32>, EndNo>, NoMemory>
    ensures { IfOk result (λ r. r ≡ spec.hinted_client registry.now named (option_map (λ t. t.now) hint.entry)) }
{
    match hint {
        Some(hint) => match fitting(alloc, registry, named, hint)? {
            Some(n) => Ok(Ok(Some(n))),
            None => Ok(Err(EndNo::Hint)),
        },
        None => Ok(Ok(None)),
    }
}

// Whether the browser may be sent there.
fn is_allowed(returns: &Returns, hinted: Option<u32>, back: Option<&Text>) -> bool
    ensures { result ≡ spec.is_allowed returns.now hinted (option_map (λ t. t.now) back.entry) }
{
    match (hinted, back) {
        (_, None) => true,
        (None, Some(_)) => false,
        (Some(n), Some(uri)) => returns.has(n, uri.as_str()),
    }
}

fn copied(alloc: Global, text: Option<&Text>) -> Result<Option<Text>, NoMemory>
    ensures { IfOk result (λ t. t ≡ option_map (λ s. s.now) text.entry) }
{
    match text {
        Some(text) => Ok(Some(text.copy(alloc)?)),
        None => Ok(None),
    }
}

// ---- the wish

// The wish in the pairs that count.
fn wish_of(
    alloc: Global,
    registry: &Registry,
    returns: &Returns,
    pairs: &[Pair],
) -> Result<Result<EndWish, EndNo>, NoMemory>
    ensures { IfOk result (λ w. w ≡ spec.wish_by registry.now returns.now pairs.now) }
{
    let named = match named_client(registry, value_of(pairs, "client_id")) {
        Ok(named) => named,
        Err(why) => return Ok(Err(why)),
    };
    let hinted = match hinted_client(alloc, registry, named, value_of(pairs, "id_token_hint"))? {
        Ok(hinted) => hinted,
        Err(why) => return Ok(Err(why)),
    };
    let back = value_of(pairs, "post_logout_redirect_uri");
    if !is_allowed(returns, hinted, back) {
        return Ok(Err(EndNo::Return));
    }
    Ok(Ok(EndWish {
        client: hinted.or(named),
        back: copied(alloc, back)?,
        state: copied(alloc, value_of(pairs, "state"))?,
    }))
}

/// Reads a request to end a session from its form (RP-Initiated Logout 1.0, 2): `id_token_hint`, `client_id`,
/// `post_logout_redirect_uri` and `state`, each of which may be absent. Pairs with an empty value and other names are ignored.
///
/// The hint is read under the secrets of the client that the request names, or else under those of each client. A hint that has
/// expired is accepted. The refusal is the first that applies, in the order of [`EndNo`].
#[tactic(auto, unfolding(crate::specs::Ending::end_read))]
pub fn read_end(
    alloc: Global,
    registry: &Registry,
    returns: &Returns,
    form: &[u8],
) -> Result<Result<EndWish, EndNo>, NoMemory>
    ensures { IfOk result (λ w. w ≡ spec.end_read registry.now returns.now form.now) }
{
    let pairs = end_pairs(alloc, form)?;
    if let Some(name) = first_repeated(pairs.as_slice()) {
        return Ok(Err(EndNo::Twice(name.copy(alloc)?)));
    }
    wish_of(alloc, registry, returns, pairs.as_slice())
}

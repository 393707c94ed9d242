// The replies of new roles to requests, one after another.

ghost use Rattle.std.specs.Prelude.{◌≡◌, ◌<◌, length};

use case_lines::{push_part, told, words_of_place};
use client_registry::{Provider, Registry};
use op_core::provider_in_turn;
use op_exchange::{OpAsk, OpReply};
use op_response::op_line;
use rp_core::party_in_turn;
use rp_exchange::{RpAsk, RpReply};
use rp_response::rp_line;
use sso_base::{Asked, CoreNo, Moment, NoMemory};
use std::alloc::Global;

// A request at this moment, with the random words of this place.
fn with_words<A: Drop>(at: Moment, place: u32, ask: A) -> Asked<A> {
    let fresh = words_of_place(place);
    Asked { at, fresh, ask }
}

// ---- the provider

// Requests for the keys, for the metadata and for something that does not exist.
fn provider_asks(alloc: Global, at: Moment) -> Result<Vec<Asked<OpAsk>>, NoMemory> {
    let mut asks = Vec::new(alloc);
    asks.push(with_words(at, 1, OpAsk::Keys))?;
    asks.push(with_words(at, 2, OpAsk::Metadata))?;
    asks.push(with_words(at, 3, OpAsk::NotHere))?;
    Ok(asks)
}

fn provider_lines(alloc: Global, replies: &[OpReply]) -> Result<String, NoMemory> {
    let mut out = String::new(alloc);
    for reply in replies {
        let line = op_line(alloc, reply)?;
        push_part(&mut out, " / ", line.as_str())?;
    }
    Ok(out)
}

fn provider_told(
    alloc: Global,
    replies: &Result<Vec<OpReply>, CoreNo>,
) -> Result<String, NoMemory> {
    match replies {
        Ok(replies) => provider_lines(alloc, replies.as_slice()),
        Err(CoreNo::JournalFull(_)) => told(alloc, "full"),
        Err(CoreNo::NoMemory) => Err(NoMemory),
    }
}

/// The lines of the replies of a new provider of this registry to requests for its keys, for its metadata and for nothing.
pub fn provider_replies(
    alloc: Global,
    registry: &Registry,
    at: Moment,
) -> Result<String, NoMemory> {
    let registry = registry.copy(alloc)?;
    let Ok(asks) = provider_asks(alloc, at) else {
        drop(registry);
        return Err(NoMemory);
    };
    let replies = provider_in_turn(alloc, registry, asks);
    provider_told(alloc, &replies)
}

// ---- a relying party

// Requests to begin a login, for the page that shows who is logged in, and for something that does not exist.
fn party_asks(alloc: Global, at: Moment) -> Result<Vec<Asked<RpAsk>>, NoMemory> {
    let mut asks = Vec::new(alloc);
    asks.push(with_words(at, 1, RpAsk::Begin { browser: None }))?;
    asks.push(with_words(at, 2, RpAsk::Visit { session: None }))?;
    asks.push(with_words(at, 3, RpAsk::NotHere))?;
    Ok(asks)
}

fn party_lines(alloc: Global, replies: &[RpReply]) -> Result<String, NoMemory> {
    let mut out = String::new(alloc);
    for reply in replies {
        let line = rp_line(alloc, reply)?;
        push_part(&mut out, " / ", line.as_str())?;
    }
    Ok(out)
}

fn party_told(alloc: Global, replies: &Result<Vec<RpReply>, CoreNo>) -> Result<String, NoMemory> {
    match replies {
        Ok(replies) => party_lines(alloc, replies.as_slice()),
        Err(CoreNo::JournalFull(_)) => told(alloc, "full"),
        Err(CoreNo::NoMemory) => Err(NoMemory),
    }
}

/// The lines of the replies of a new party to requests to begin a login, for who is logged in, and for nothing.
pub fn party_replies(
    alloc: Global,
    registry: Registry,
    party: u32,
    provider: Provider,
    at: Moment,
) -> Result<String, NoMemory>
    requires party { party < length registry.parties }
    requires issuer { provider.issuer ≡ registry.provider.issuer }
{
    let Ok(asks) = party_asks(alloc, at) else {
        drop(registry);
        drop(provider);
        return Err(NoMemory);
    };
    let replies = party_in_turn(alloc, registry, party, provider, asks);
    party_told(alloc, &replies)
}

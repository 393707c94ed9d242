// The weights, the words and the values of entries.

ghost use Rattle.std.specs.Prelude.{◌≡◌, ◌<◌, ◌^◌, IfOk};
ghost use Rattle.sso_base.specs.Words.{fresh_word};
ghost use Rattle.sso_base.specs.Legal.{IsEntry};
ghost use Rattle.sso_base.specs.Weights.{told_weight};
ghost use Rattle.refresh_answer.specs.Around as around;
ghost use Rattle.refresh_book.specs.Keeps as keeps;

use core_stack::Provides;
use refresh_answer::{RefreshAsk, RefreshGrant};
use sso_base::{Entry, Moment, NoMemory, Word, know_entry};
use token_endpoint::GrantNo;

// The weight of a request that holds no texts.
const EMPTY_WEIGHT: u64 = 1024;

// The bytes of a refresh request.
fn grant_bytes(grant: &Result<RefreshGrant, GrantNo>) -> u64
    ensures { result ≡ told_weight (around.grant_bytes grant.now) }
{
    match grant {
        Ok(grant) => grant.token.as_str().len() as u64,
        Err(GrantNo::Twice(name) | GrantNo::Missing(name)) => name.as_str().len() as u64,
        Err(_) => 0,
    }
}

/// The weight of a request, or the greatest number of 64 bits if the weight is greater.
pub(crate) fn weight_of<P: Provides>(ask: &RefreshAsk<P::Ask>) -> Result<u64, NoMemory>
    ensures { IfOk result (λ n. n ≡ told_weight (around.outer_weight P.weighs ask.now)) }
{
    match ask {
        RefreshAsk::Through { inner, .. } => P::weight(inner),
        RefreshAsk::Refresh { grant } => Ok(EMPTY_WEIGHT.saturating_add(grant_bytes(grant))),
    }
}

/// Whether a request is a refresh request.
pub(crate) fn is_refresh_ask<A: Drop>(ask: &RefreshAsk<A>) -> bool
    ensures { result ≡ keeps.is_refresh_ask ask.now }
{
    matches!(ask, RefreshAsk::Refresh { .. })
}

/// The first of the fresh words.
pub(crate) fn first(fresh: &[Word; 4]) -> Word
    ensures { result ≡ fresh_word fresh.now 0 }
{
    fresh[0]
}

/// The second of the fresh words.
pub(crate) fn second(fresh: &[Word; 4]) -> Word
    ensures { result ≡ fresh_word fresh.now 1 }
{
    fresh[1]
}

// A number has 32 bits.
fn know_client(n: u32)
    ensures { n < 2 ^ 32 }
{}

fn know_refresh(grant: &Result<RefreshGrant, GrantNo>)
    ensures { around.IsRefreshValue grant.now }
{
    match grant {
        Ok(grant) => {
            know_client(grant.client);
            let _token = grant.token.as_str();
        }
        Err(GrantNo::Twice(name) | GrantNo::Missing(name)) => {
            let _name = name.as_str();
        }
        Err(_) => {}
    }
}

// The same entry of a refresh request, of which it is known that it holds values of its types.
fn known_refresh<P: Provides>(
    at: Moment,
    fresh: [Word; 4],
    grant: Result<RefreshGrant, GrantNo>,
) -> Entry<RefreshAsk<P::Ask>>
    ensures same { result ≡ record { at = at; fresh = fresh; ask = RefreshAsk.Refresh grant } }
    ensures values { IsEntry (around.IsRefreshAsk P.IsAsk) result }
{
    know_refresh(&grant);
    let entry = Entry {
        at,
        fresh,
        ask: RefreshAsk::Refresh { grant },
    };
    know_entry(&entry);
    entry
}

// The same entry that has a request of the inner core.
fn known_through<P: Provides>(
    at: Moment,
    fresh: [Word; 4],
    inner: P::Ask,
    offline: bool,
) -> Entry<RefreshAsk<P::Ask>>
    ensures same { result ≡ record { at = at; fresh = fresh; ask = RefreshAsk.Through inner offline } }
    ensures values { IsEntry (around.IsRefreshAsk P.IsAsk) result }
{
    let Entry { at, fresh, ask } = P::known(Entry {
        at,
        fresh,
        ask: inner,
    });
    Entry {
        at,
        fresh,
        ask: RefreshAsk::Through {
            inner: ask,
            offline,
        },
    }
}

/// The same entry, of which it is known that it holds values of its types. A lemma for the proofs.
pub(crate) fn known<P: Provides>(entry: Entry<RefreshAsk<P::Ask>>) -> Entry<RefreshAsk<P::Ask>>
    ensures same { result ≡ entry }
    ensures values { IsEntry (around.IsRefreshAsk P.IsAsk) result }
{
    let Entry { at, fresh, ask } = entry;
    match ask {
        RefreshAsk::Through { inner, offline } => known_through::<P>(at, fresh, inner, offline),
        RefreshAsk::Refresh { grant } => known_refresh::<P>(at, fresh, grant),
    }
}

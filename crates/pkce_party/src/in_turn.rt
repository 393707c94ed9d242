// The replies of a relying party with proof keys to requests, one after another.

ghost use Rattle.std.specs.Prelude.{◌≡◌, ◌<◌, ℕ, [], length, Err, IfOk};
ghost use Rattle.sso_base.specs.Asked.{history_by, FillsHistory};
ghost use Rattle.sso_base.specs.Journal.{most_of};
ghost use Rattle.rp_exchange.specs.Weight.{ask_weight};
ghost use Rattle.rp_accept.specs.Serving.{setup_of};
ghost use Rattle.pkce_party.specs.Adding.{IsLegalParty};

use crate::party::PkceParty;
use crate::reply::PartyReply;
use client_registry::{Provider, Registry};
use rp_core::RpCore;
use rp_exchange::RpAsk;
use sso_base::{Asked, CoreNo, replies_in_turn};
use std::alloc::Global;

/// The replies of a party of this registry, with an empty history, to these requests, one after another. The list of these
/// requests with these replies is a legal history, also if the party stores nothing: the clause names no history of its core.
///
/// # Errors
///
/// - `NoMemory` if memory runs out.
/// - `JournalFull` if the history of the requests before one, and that one, weigh more than a history of the registry may.
pub fn pkce_party_in_turn(
    alloc: Global,
    registry: Registry,
    number: u32,
    provider: Provider,
    asks: Vec<Asked<RpAsk>>,
) -> Result<Vec<PartyReply>, CoreNo>
    requires party { number < length registry.parties }
    requires issuer { provider.issuer ≡ registry.provider.issuer }
    ensures each { IfOk result (λ replies. length replies.items ≡ length asks.items) }
    ensures legal { IfOk result (λ replies. IsLegalParty (setup_of registry number provider) (history_by [] asks.items replies.items)) }
    ensures full { (w : ℕ) → (result ≡ Err (CoreNo.JournalFull w)) → FillsHistory ask_weight (most_of registry.lasting) asks.items w }
{
    match RpCore::new(alloc, registry, number, provider) {
        Ok(core) => {
            let party = PkceParty::new(alloc, core);
            replies_in_turn(alloc, party, asks)
        }
        Err(_) => {
            drop(asks);
            Err(CoreNo::NoMemory)
        }
    }
}

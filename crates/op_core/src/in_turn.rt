// The replies of a provider to requests, one after another.

ghost use Rattle.std.specs.Prelude.{◌≡◌, ℕ, [], length, Err, IfOk};
ghost use Rattle.sso_base.specs.Asked.{history_by, FillsHistory};
ghost use Rattle.sso_base.specs.Journal.{most_of};
ghost use Rattle.op_exchange.specs.Weight.{ask_weight};
ghost use Rattle.op_answer.specs.Legal.{IsLegalHistory};

use crate::state::OpCore;
use client_registry::Registry;
use op_exchange::{OpAsk, OpReply};
use sso_base::{Asked, CoreNo, replies_in_turn};
use std::alloc::Global;

/// The replies of a provider of this registry, with an empty history, to these requests, one after another. The list of these
/// requests with these replies is a legal history, also if the provider stores nothing: the clause names no history of its core.
///
/// # Errors
///
/// - `NoMemory` if memory runs out.
/// - `JournalFull` if the history of the requests before one, and that one, weigh more than a history of the registry may.
pub fn provider_in_turn(
    alloc: Global,
    registry: Registry,
    asks: Vec<Asked<OpAsk>>,
) -> Result<Vec<OpReply>, CoreNo>
    ensures each { IfOk result (λ replies. length replies.items ≡ length asks.items) }
    ensures legal { IfOk result (λ replies. IsLegalHistory registry (history_by [] asks.items replies.items)) }
    ensures full { (w : ℕ) → (result ≡ Err (CoreNo.JournalFull w)) → FillsHistory ask_weight (most_of registry.lasting) asks.items w }
{
    match OpCore::new(alloc, registry) {
        Ok(core) => replies_in_turn(alloc, core, asks),
        Err(_) => {
            drop(asks);
            Err(CoreNo::NoMemory)
        }
    }
}

// Servers that return how they ended, without their cores.

ghost use Rattle.std.specs.Prelude.{◌≡◌, ◌^◌, ◌≤◌, ◌<◌, [], length, IfOk, OnErr};
ghost use Rattle.std.specs.List.{All};
ghost use Rattle.client_registry.specs.Numbers.{party_row};
ghost use Rattle.serving.specs.Summaries.{Summarises};
ghost use Rattle.server_roles.specs.Ends.{RanSo};
ghost use Rattle.server_roles.specs.Roles.{provider_manner, party_manner};

use crate::op::serve_op;
use crate::rp::serve_rp;
use client_registry::Registry;
use core_stack::{Provides, Relies};
use server_desk::{Clock, Desk, Door, Draw, Link};
use serving::Tells;
use sso_base::NoMemory;
use std::alloc::Global;
use std::sync::Wait;
use std::thread::Threads;

/// The result of a server that has ended, without its core.
#[derive(Clone, Copy)]
pub struct Ran {
    /// Whether a door failed.
    pub fault: bool,
    /// The number of connections that its desks served.
    pub served: u64,
    /// The number of entries in the history of its core.
    pub entries: u64,
}

/// Serves the provider of this registry, as [`serve_op`], and returns how that ended.
///
/// # Errors
///
/// `NoMemory` if memory ran out, before the first door was started. The desks are unchanged, and the core is dropped.
pub fn run_provider<
    R: Threads + Wait + Sync,
    P: Provides + Send + Sync,
    D: Door,
    L: Link,
    C: Clock,
    W: Draw,
>(
    rt: &R,
    alloc: Global,
    registry: &Registry,
    core: P,
    desks: &mut Vec<Desk<D, L, C, W>>,
) -> Result<Ran, NoMemory>
where
    P::Ask: Send,
    P::Reply: Send,
    requires empty { P.history core ≡ [] }
    requires registry { P.provider_registry core ≡ registry.now }
    requires few { length desks.old.items ≤ 64 }
    requires desks { All (λ desk. (desk.turns ≤ 2 ^ 56) × ((D.state desk.door).given < 2 ^ 63)) desks.old.items }
    ensures ran { IfOk result (RanSo (Summarises ⟦<Desk<D, L, C, W> as Tells>⟧.telling
        (provider_manner P.plain_ask P.notices P.prepared P.from_op P.http_of P.weighs registry.now)
        P.most P.setup P.history P.is_legal (P.setup core) registry.now.listen desks.old.items desks.new.items)) }
    ensures memory { OnErr result (desks.new.items ≡ desks.old.items) }
{
    let summary = serve_op(rt, alloc, registry, core, desks)?;
    Ok(Ran {
        fault: summary.fault,
        served: summary.served,
        entries: summary.entries,
    })
}

/// Serves the party with this number in the registry, as [`serve_rp`], and returns how that ended.
///
/// # Errors
///
/// `NoMemory` if memory ran out, before the first door was started. The desks are unchanged, and the core is dropped.
pub fn run_party<
    R: Threads + Wait + Sync,
    P: Relies + Send + Sync,
    D: Door,
    L: Link,
    C: Clock,
    W: Draw,
>(
    rt: &R,
    alloc: Global,
    registry: &Registry,
    party: u32,
    core: P,
    desks: &mut Vec<Desk<D, L, C, W>>,
) -> Result<Ran, NoMemory>
where
    P::Ask: Send,
    P::Reply: Send,
    requires party { party < length registry.now.parties }
    requires empty { P.history core ≡ [] }
    requires registry { (P.party_setup core).configuration ≡ registry.now }
    requires number { (P.party_setup core).number ≡ party }
    requires few { length desks.old.items ≤ 64 }
    requires desks { All (λ desk. (desk.turns ≤ 2 ^ 56) × ((D.state desk.door).given < 2 ^ 63)) desks.old.items }
    ensures ran { IfOk result (RanSo (Summarises ⟦<Desk<D, L, C, W> as Tells>⟧.telling
        (party_manner P.plain_ask P.rp_reply P.sent P.prepared P.tokens_prepared P.info_prepared P.from_rp P.http_of P.weighs registry.now party)
        P.most P.setup P.history P.is_legal (P.setup core) (party_row registry.now party).listen desks.old.items desks.new.items)) }
    ensures memory { OnErr result (desks.new.items ≡ desks.old.items) }
{
    let summary = serve_rp(rt, alloc, registry, party, core, desks)?;
    Ok(Ran {
        fault: summary.fault,
        served: summary.served,
        entries: summary.entries,
    })
}

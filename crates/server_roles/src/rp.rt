// A relying party's server.

ghost use Rattle.std.specs.Prelude.{◌≡◌, ◌^◌, ◌≤◌, ◌<◌, [], length, IfOk, OnErr};
ghost use Rattle.std.specs.List.{All};
ghost use Rattle.client_registry.specs.Numbers.{party_row};
ghost use Rattle.serving.specs.Summaries.{Summarises};
ghost use Rattle.server_roles.specs.Roles.{party_manner};

use crate::rp_role::RpRole;
use client_registry::Registry;
use core_stack::Relies;
use server_desk::{Clock, Desk, Door, Draw, Link};
use serving::{Summary, Tells, serve};
use sso_base::{NoMemory, Text};
use std::alloc::Global;
use std::marker::PhantomData;
use std::sync::Wait;
use std::thread::Threads;

// The address at which the party with this number listens.
fn listen_of(registry: &Registry, party: u32) -> &Text
    requires { party < length registry.now.parties }
    ensures { result.now ≡ (party_row registry.now party).listen }
{
    &registry.party(party).listen
}

/// Serves the party with this number in the registry at its `listen` address, with one worker for each desk, concurrently. The party is
/// in this core, alone or within further cores. The core has an empty history.
///
/// Needs at most 64 desks, each of at most 2^56 turns, whose doors have given fewer than 2^63 connections.
///
/// # Errors
///
/// `NoMemory` if memory ran out, before the first door was started. The desks are unchanged, and the core is dropped.
pub fn serve_rp<
    R: Threads + Wait + Sync,
    P: Relies + Send + Sync,
    D: Door,
    L: Link,
    C: Clock,
    W: Draw,
>(
    rt: &R,
    alloc: Global,
    registry: &Registry,
    party: u32,
    core: P,
    desks: &mut Vec<Desk<D, L, C, W>>,
) -> Result<Summary<P>, NoMemory>
where
    P::Ask: Send,
    P::Reply: Send,
    requires party { party < length registry.now.parties }
    requires empty { P.history core ≡ [] }
    requires registry { (P.party_setup core).configuration ≡ registry.now }
    requires number { (P.party_setup core).number ≡ party }
    requires few { length desks.old.items ≤ 64 }
    requires desks { All (λ desk. (desk.turns ≤ 2 ^ 56) × ((D.state desk.door).given < 2 ^ 63)) desks.old.items }
    ensures summary { IfOk result (Summarises ⟦<Desk<D, L, C, W> as Tells>⟧.telling
        (party_manner P.plain_ask P.rp_reply P.sent P.prepared P.tokens_prepared P.info_prepared P.from_rp P.http_of P.weighs registry.now party)
        P.most P.setup P.history P.is_legal (P.setup core) (party_row registry.now party).listen desks.old.items desks.new.items) }
    ensures memory { OnErr result (desks.new.items ≡ desks.old.items) }
{
    let role: RpRole<P> = RpRole {
        registry,
        party,
        core: PhantomData,
    };
    serve(rt, alloc, &role, core, listen_of(registry, party), desks)
}

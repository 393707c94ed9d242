// The provider's server.

ghost use Rattle.std.specs.Prelude.{◌≡◌, ◌^◌, ◌≤◌, ◌<◌, [], length, IfOk, OnErr};
ghost use Rattle.std.specs.List.{All};
ghost use Rattle.serving.specs.Summaries.{Summarises};
ghost use Rattle.server_roles.specs.Roles.{provider_manner};

use crate::op_role::OpRole;
use client_registry::Registry;
use core_stack::Provides;
use server_desk::{Clock, Desk, Door, Draw, Link};
use serving::{Summary, Tells, serve};
use sso_base::NoMemory;
use std::alloc::Global;
use std::marker::PhantomData;
use std::sync::Wait;
use std::thread::Threads;

/// Serves the provider of this registry at its `listen` address, with one worker for each desk, concurrently. The provider is in this
/// core, alone or within further cores. The core has an empty history.
///
/// Needs at most 64 desks, each of at most 2^56 turns, whose doors have given fewer than 2^63 connections.
///
/// # Errors
///
/// `NoMemory` if memory ran out, before the first door was started. The desks are unchanged, and the core is dropped.
pub fn serve_op<
    R: Threads + Wait + Sync,
    P: Provides + Send + Sync,
    D: Door,
    L: Link,
    C: Clock,
    W: Draw,
>(
    rt: &R,
    alloc: Global,
    registry: &Registry,
    core: P,
    desks: &mut Vec<Desk<D, L, C, W>>,
) -> Result<Summary<P>, NoMemory>
where
    P::Ask: Send,
    P::Reply: Send,
    requires empty { P.history core ≡ [] }
    requires registry { P.provider_registry core ≡ registry.now }
    requires few { length desks.old.items ≤ 64 }
    requires desks { All (λ desk. (desk.turns ≤ 2 ^ 56) × ((D.state desk.door).given < 2 ^ 63)) desks.old.items }
    ensures summary { IfOk result (Summarises ⟦<Desk<D, L, C, W> as Tells>⟧.telling
        (provider_manner P.plain_ask P.notices P.prepared P.from_op P.http_of P.weighs registry.now)
        P.most P.setup P.history P.is_legal (P.setup core) registry.now.listen desks.old.items desks.new.items) }
    ensures memory { OnErr result (desks.new.items ≡ desks.old.items) }
{
    let role: OpRole<P> = OpRole {
        registry,
        core: PhantomData,
    };
    serve(rt, alloc, &role, core, registry.listen(), desks)
}

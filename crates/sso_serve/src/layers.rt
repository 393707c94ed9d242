// The provider's server for cores around others. Each function names one more core: the prover could not follow three in one call.

ghost use Rattle.std.specs.Prelude.{◌≡◌, ◌^◌, ◌≤◌, ◌<◌, [], length, IfOk, OnErr};
ghost use Rattle.std.specs.List.{All};
ghost use Rattle.refresh_answer.specs.Around.{outer_plain, outer_weight, IsRefreshAsk};
ghost use Rattle.refresh_answer.specs.Answering.{IsLegalRefresh};
ghost use Rattle.signout_answer.specs.Answering.{IsLegalSignout};
ghost use Rattle.serving.specs.Summaries.{Summarises};
ghost use Rattle.server_roles.specs.Ends.{RanSo};
ghost use Rattle.sso_serve.specs.Cores.{asking_manner, asking_most, asking_setup, asking_history, renewing_manner, renewing_most, renewing_setup};

use client_registry::Registry;
use core_stack::Provides;
use refresh_book::RefreshCore;
use rp_signout::SignoutCore;
use server_desk::{Clock, Desk, Door, Draw, Link};
use server_roles::{Ran, run_provider};
use serving::Tells;
use sso_base::NoMemory;
use std::alloc::Global;
use std::sync::Wait;
use std::thread::Threads;

/// Serves the provider of this registry, which is in this core, with questions before a sign-out around it.
pub(crate) fn run_asking<
    R: Threads + Wait + Sync,
    P: Provides + Send + Sync,
    D: Door,
    L: Link,
    C: Clock,
    W: Draw,
>(
    rt: &R,
    alloc: Global,
    registry: &Registry,
    core: SignoutCore<P>,
    desks: &mut Vec<Desk<D, L, C, W>>,
) -> Result<Ran, NoMemory>
where
    P::Ask: Send + Sync,
    P::Reply: Send,
    requires empty { core.history ≡ [] }
    requires registry { P.provider_registry core.inner ≡ registry.now }
    requires few { length desks.old.items ≤ 64 }
    requires desks { All (λ desk. (desk.turns ≤ 2 ^ 56) × ((D.state desk.door).given < 2 ^ 63)) desks.old.items }
    ensures ran { IfOk result (RanSo (Summarises ⟦<Desk<D, L, C, W> as Tells>⟧.telling
        (asking_manner P.plain_ask P.notices P.prepared P.from_op P.http_of P.weighs registry.now)
        (asking_most P.most) (asking_setup P.setup) asking_history (IsLegalSignout P.plain_ask P.IsAsk P.weighs P.most P.is_legal)
        (asking_setup P.setup core) registry.now.listen desks.old.items desks.new.items)) }
    ensures memory { OnErr result (desks.new.items ≡ desks.old.items) }
{
    run_provider(rt, alloc, registry, core, desks)
}

/// Serves the provider of this registry, which is in this core, with refresh tokens around it, and with questions before a sign-out around
/// these.
pub(crate) fn run_renewing<
    R: Threads + Wait + Sync,
    P: Provides + Send + Sync,
    D: Door,
    L: Link,
    C: Clock,
    W: Draw,
>(
    rt: &R,
    alloc: Global,
    registry: &Registry,
    core: SignoutCore<RefreshCore<P>>,
    desks: &mut Vec<Desk<D, L, C, W>>,
) -> Result<Ran, NoMemory>
where
    P::Ask: Send + Sync,
    P::Reply: Send,
    requires empty { core.history ≡ [] }
    requires registry { P.provider_registry core.inner.inner ≡ registry.now }
    requires few { length desks.old.items ≤ 64 }
    requires desks { All (λ desk. (desk.turns ≤ 2 ^ 56) × ((D.state desk.door).given < 2 ^ 63)) desks.old.items }
    ensures ran { IfOk result (RanSo (Summarises ⟦<Desk<D, L, C, W> as Tells>⟧.telling
        (renewing_manner P.plain_ask P.op_reply P.notices P.prepared P.from_op P.http_of P.weighs registry.now)
        (asking_most (renewing_most P.most)) (asking_setup (renewing_setup P.plain_ask P.given_reply P.setup)) asking_history
        (IsLegalSignout (outer_plain P.plain_ask) (IsRefreshAsk P.IsAsk) (outer_weight P.weighs) (renewing_most P.most)
        (IsLegalRefresh P.plain_ask P.given_reply P.provided P.IsAsk P.weighs P.most P.is_legal))
        (asking_setup (renewing_setup P.plain_ask P.given_reply P.setup) core) registry.now.listen desks.old.items desks.new.items)) }
    ensures memory { OnErr result (desks.new.items ≡ desks.old.items) }
{
    run_asking(rt, alloc, registry, core, desks)
}

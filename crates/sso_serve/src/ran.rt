// The servers. Each returns how it ended, without its core.

ghost use Rattle.std.specs.Prelude.{◌≡◌, ◌^◌, ◌≤◌, ◌<◌, length, IfOk, OnErr};
ghost use Rattle.std.specs.List.{All};
ghost use Rattle.rp_accept.specs.Serving.{setup_of};
ghost use Rattle.sso_serve.specs.Cores.{end_setup};
ghost use Rattle.sso_serve.specs.Servers.{RanOp, RanOpPlus, RanRp, RanRpPlus};

use crate::cores::{op_plus_core, rp_with_keys};
use crate::layers::run_renewing;
use client_registry::{Provider, Registry};
use end_request::Returns;
use op_core::OpCore;
use rp_core::RpCore;
use server_desk::{Clock, Desk, Door, Draw, Link};
use server_roles::{Ran, run_party, run_provider};
use serving::Tells;
use sso_base::NoMemory;
use std::alloc::Global;
use std::sync::Wait;
use std::thread::Threads;

/// Serves the provider of this registry, as [`serve_op`](server_roles::serve_op), and returns how that ended.
///
/// # Errors
///
/// `NoMemory` if memory ran out, before the first door was started. The desks are unchanged.
pub fn run_op<R: Threads + Wait + Sync, D: Door, L: Link, C: Clock, W: Draw>(
    rt: &R,
    alloc: Global,
    registry: &Registry,
    desks: &mut Vec<Desk<D, L, C, W>>,
) -> Result<Ran, NoMemory>
    requires few { length desks.old.items ≤ 64 }
    requires desks { All (λ desk. (desk.turns ≤ 2 ^ 56) × ((D.state desk.door).given < 2 ^ 63)) desks.old.items }
    ensures ran { IfOk result (RanOp ⟦<Desk<D, L, C, W> as Tells>⟧.telling desks.old.items desks.new.items registry.now) }
    ensures memory { OnErr result (desks.new.items ≡ desks.old.items) }
{
    let core = OpCore::new(alloc, registry.copy(alloc)?)?;
    run_provider(rt, alloc, registry, core, desks)
}

/// Serves the provider of this registry with proof keys, refresh tokens and questions before a sign-out, as [`serve_op`](server_roles::serve_op),
/// and returns how that ended. Browsers may be sent to these URIs.
///
/// # Errors
///
/// `NoMemory` if memory ran out, before the first door was started. The desks are unchanged.
pub fn run_op_plus<R: Threads + Wait + Sync, D: Door, L: Link, C: Clock, W: Draw>(
    rt: &R,
    alloc: Global,
    registry: &Registry,
    returns: Returns,
    desks: &mut Vec<Desk<D, L, C, W>>,
) -> Result<Ran, NoMemory>
    requires few { length desks.old.items ≤ 64 }
    requires desks { All (λ desk. (desk.turns ≤ 2 ^ 56) × ((D.state desk.door).given < 2 ^ 63)) desks.old.items }
    ensures ran { IfOk result
        (RanOpPlus ⟦<Desk<D, L, C, W> as Tells>⟧.telling desks.old.items desks.new.items (end_setup registry.now returns)) }
    ensures memory { OnErr result (desks.new.items ≡ desks.old.items) }
{
    let core = op_plus_core(alloc, registry, returns)?;
    run_renewing(rt, alloc, registry, core, desks)
}

/// Serves the party with this number in the registry, as [`serve_rp`](server_roles::serve_rp), and returns how that ended. It trusts this
/// provider, whose issuer must be the registry's.
///
/// # Errors
///
/// `NoMemory` if memory ran out, before the first door was started. The desks are unchanged.
pub fn run_rp<R: Threads + Wait + Sync, D: Door, L: Link, C: Clock, W: Draw>(
    rt: &R,
    alloc: Global,
    registry: &Registry,
    party: u32,
    provider: Provider,
    desks: &mut Vec<Desk<D, L, C, W>>,
) -> Result<Ran, NoMemory>
    requires party { party < length registry.now.parties }
    requires issuer { provider.issuer ≡ registry.now.provider.issuer }
    requires few { length desks.old.items ≤ 64 }
    requires desks { All (λ desk. (desk.turns ≤ 2 ^ 56) × ((D.state desk.door).given < 2 ^ 63)) desks.old.items }
    ensures ran { IfOk result (RanRp ⟦<Desk<D, L, C, W> as Tells>⟧.telling desks.old.items desks.new.items (setup_of registry.now party provider)) }
    ensures memory { OnErr result (desks.new.items ≡ desks.old.items) }
{
    let core = RpCore::new(alloc, registry.copy(alloc)?, party, provider)?;
    run_party(rt, alloc, registry, party, core, desks)
}

/// Serves the party with this number in the registry with proof keys, as [`serve_rp`](server_roles::serve_rp), and returns how that ended. It trusts this
/// provider, whose issuer must be the registry's.
///
/// # Errors
///
/// `NoMemory` if memory ran out, before the first door was started. The desks are unchanged.
pub fn run_rp_plus<R: Threads + Wait + Sync, D: Door, L: Link, C: Clock, W: Draw>(
    rt: &R,
    alloc: Global,
    registry: &Registry,
    party: u32,
    provider: Provider,
    desks: &mut Vec<Desk<D, L, C, W>>,
) -> Result<Ran, NoMemory>
    requires party { party < length registry.now.parties }
    requires issuer { provider.issuer ≡ registry.now.provider.issuer }
    requires few { length desks.old.items ≤ 64 }
    requires desks { All (λ desk. (desk.turns ≤ 2 ^ 56) × ((D.state desk.door).given < 2 ^ 63)) desks.old.items }
    ensures ran { IfOk result
        (RanRpPlus ⟦<Desk<D, L, C, W> as Tells>⟧.telling desks.old.items desks.new.items (setup_of registry.now party provider)) }
    ensures memory { OnErr result (desks.new.items ≡ desks.old.items) }
{
    let core = rp_with_keys(alloc, registry.copy(alloc)?, party, provider)?;
    run_party(rt, alloc, registry, party, core, desks)
}

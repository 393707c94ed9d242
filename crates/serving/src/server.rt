// A server: one worker for each desk, over one store.

ghost use Rattle.std.specs.Prelude.{◌≡◌, ◌^◌, ◌≤◌, ◌<◌, min, [], length, map, take, IfOk, OnErr, vec_capacity};
ghost use Rattle.std.specs.List.{All};
ghost use Rattle.turn_store.specs.Passes.{IsPassOf, HasDoneNothing, number_of, passes_of, setup_of};
ghost use Rattle.turn_store.specs.Places.{numbers_from};
ghost use Rattle.work_permits.specs.Gates.{IsGateFor};
ghost use Rattle.serving.specs.Summaries.{Summarises, SummarisesDesks};

use crate::backend::Backend;
use crate::role::Role;
use crate::seats::{Seat, open_and_serve, rise, sit};
use crate::summary::Summary;
use crate::tells::Tells;
use server_desk::{Clock, Desk, Door, Draw, Link};
use sso_base::{Core, NoMemory, Text};
use std::alloc::Global;
use std::sync::Wait;
use std::thread::Threads;
use turn_store::{Pass, Turn};
use work_permits::Gate;

// Serves at one or more desks. It takes no memory.
fn serve_desks<R: Threads + Wait + Sync, X: Role, D: Door, L: Link, C: Clock, W: Draw>(
    rt: &R,
    alloc: Global,
    role: &X,
    gate: Gate,
    store: Turn<X::Core>,
    mut passes: Vec<Pass<X::Core>>,
    mut seats: Vec<Seat<X::Core, D, L, C, W>>,
    place: &Text,
    desks: &mut Vec<Desk<D, L, C, W>>,
) -> Summary<X::Core>
where
    <X::Core as Core>::Ask: Send,
    <X::Core as Core>::Reply: Send,
    requires ready { X.ready role.now }
    requires gate { IsGateFor (length desks.old.items) gate }
    requires passes { All (IsPassOf X.Core.setup X.Core.is_legal store) passes.items }
    requires fresh { All HasDoneNothing passes.items }
    requires order { map number_of passes.items ≡ numbers_from 0 (passes_of store) }
    requires same { length passes.items ≡ length desks.old.items }
    requires some { 0 < length desks.old.items }
    requires few { length desks.old.items ≤ 64 }
    requires seats { (seats.items ≡ []) × (length desks.old.items ≤ vec_capacity seats) }
    requires desks { All (λ desk. (desk.turns ≤ 2 ^ 56) × ((D.state desk.door).given < 2 ^ 63)) desks.old.items }
    ensures { SummarisesDesks ⟦<Desk<D, L, C, W> as Tells>⟧.telling (X.manner role.now)
        X.Core.most X.Core.setup X.Core.history X.Core.is_legal (setup_of X.Core.setup store) place.now desks.old.items desks.new.items result }
{
    sit(desks, &mut passes, &mut seats);
    open_and_serve(
        &Backend {
            rt,
            alloc,
            role,
            store: &store,
            gate: &gate,
        },
        seats.as_mut_slice(),
        place,
    );
    let count = rise(&mut seats, desks, &mut passes);
    let closed = store.close(passes);
    Summary {
        served: count.served,
        entries: closed.core.count(),
        fault: count.fault,
        closed: Some(closed),
    }
}

// Drops the desks after the first ones.
fn keep_first<D: Door, L: Link, C: Clock, W: Draw>(desks: &mut Vec<Desk<D, L, C, W>>, count: usize)
    ensures items { desks.new.items ≡ take count desks.old.items }
    ensures count { length desks.new.items ≡ min (length desks.old.items) count }
{
    desks.truncate(count);
}

/// Serves at the first of these desks concurrently, one worker each, with this core, which must have an empty history. There are as many
/// workers as the role says, if there are as many desks; further desks are dropped. The first door listens at the place, and the others
/// share its address. Without a worker nothing is done.
///
/// At most half of the workers prove passwords at a time, and at least one, as [`Gate`] says. A request that proves one is answered with
/// the status 503 if as many workers as may do that, or wait for it.
///
/// Needs at most 64 desks, each of at most 2^56 turns, whose doors have given fewer than 2^63 connections.
///
/// # Errors
///
/// `NoMemory` if memory ran out, before the first door was started. The desks are unchanged, and the core is dropped.
#[tactic(auto, using(crate::proofs::Firsts::served, crate::proofs::Firsts::unserved, crate::proofs::Firsts::hold, crate::proofs::Firsts::gate_for))]
pub fn serve<R: Threads + Wait + Sync, X: Role, D: Door, L: Link, C: Clock, W: Draw>(
    rt: &R,
    alloc: Global,
    role: &X,
    core: X::Core,
    place: &Text,
    desks: &mut Vec<Desk<D, L, C, W>>,
) -> Result<Summary<X::Core>, NoMemory>
where
    <X::Core as Core>::Ask: Send,
    <X::Core as Core>::Reply: Send,
    requires ready { X.ready role.now }
    requires empty { X.Core.history core ≡ [] }
    requires few { length desks.old.items ≤ 64 }
    requires desks { All (λ desk. (desk.turns ≤ 2 ^ 56) × ((D.state desk.door).given < 2 ^ 63)) desks.old.items }
    ensures summary { IfOk result (Summarises ⟦<Desk<D, L, C, W> as Tells>⟧.telling
        (X.manner role.now) X.Core.most X.Core.setup X.Core.history X.Core.is_legal (X.Core.setup core) place.now
        desks.old.items desks.new.items) }
    ensures memory { OnErr result (desks.new.items ≡ desks.old.items) }
{
    let workers = role.workers() as usize;
    let count = desks.len().min(workers);
    if count == 0 {
        keep_first(desks, 0);
        return Ok(Summary {
            served: 0,
            entries: 0,
            fault: false,
            closed: None,
        });
    }
    let gate = Gate::new(alloc, count as u32)?;
    let (store, passes) = Turn::new(alloc, core, count as u32)?;
    let seats = Vec::with_capacity(alloc, count)?;
    keep_first(desks, workers);
    Ok(serve_desks(rt, alloc, role, gate, store, passes, seats, place, desks))
}

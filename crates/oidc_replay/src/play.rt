// The play of a trace.

ghost use Rattle.std.specs.Prelude.{◌≡◌, ◌<◌, ◌^◌, length, option_copied, option_map, option_and_then, None, Some, IfOk, IfErr, IfSome, OnOk};
ghost use Rattle.client_registry.specs.Registered.{IsRegistry};
ghost use Rattle.sso_places.specs.FirstBroken.{first_broken};
ghost use Rattle.sso_places.specs.Site.{own_site};
ghost use Rattle.sso_places.specs.World.{Nothing, place_at, role_at, reply_at};
ghost use Rattle.running_world.specs.Running.{world_of};
ghost use Rattle.running_world.specs.Stepping.{IsForRole};
ghost use Rattle.running_world.specs.Theorem.{TheoremHolds};
ghost use Rattle.sso_places.specs.Legal.{IsRole};
ghost use Rattle.oidc_replay.specs.Sending as sending;
ghost use Rattle.oidc_replay.specs.Play as spec;

use crate::sending::line_sent;
use crate::words::words_after;
use client_registry::Registry;
use running_world::World;
use sso_base::{CoreNo, Moment, NoMemory};
use sso_places::{Broken, To, WorldReply};
use std::alloc::Global;
use std::marker::Model;
use trace_lines::Line;
use web_requests::Sent;

/// The part of a trace that was played: the world, the moment, and the place at which the play ended early, if it did.
#[derive(Drop)]
pub(crate) struct Play {
    seed: [u8; 24],
    world: World,
    at: Moment,
    ended: Option<u64>,
}

impl Model for Play {
    ghost use Rattle.oidc_replay.specs.Play.{Playing};

    ghost Value = { Playing };

    ghost view = { λ p. record { seed = p.seed; running = p.world; at = p.at; ended = p.ended } };
}

impl Play {
    /// Nothing was played.
    pub(crate) fn new(alloc: Global, registry: Registry, seed: [u8; 24]) -> Result<Play, NoMemory>
        ensures registry { IfOk result (λ p. p.running.registry ≡ registry) }
        ensures seed { IfOk result (λ p. p.seed ≡ seed) }
        ensures played { IfOk result (λ p. spec.played_of p ≡ spec.nothing_played) }
        ensures read { IsRegistry registry }
    {
        // The registry's invariant becomes known by reading a field.
        let _parties = registry.parties();
        Ok(Play {
            seed,
            world: World::new(alloc, registry)?,
            at: Moment::new(0).unwrap(),
            ended: None,
        })
    }

    // Sends a request to a role. If the role's history has no room for it, the play ends.
    fn ask(&mut self, alloc: Global, sent: Sent) -> Result<(), NoMemory>
        requires few { length (world_of self.old.running) < 2 ^ 59 }
        requires role { IsRole self.old.running.registry sent.to }
        requires ask { IsForRole sent.to sent.ask }
        ensures registry { self.new.running.registry ≡ self.old.running.registry }
        ensures seed { self.new.seed ≡ self.old.seed }
        ensures ok { OnOk result (spec.played_of self.new ≡ spec.asked self.old.running.registry self.old.seed (spec.played_of self.old) sent) }
    {
        let fresh = words_after(&self.seed, self.world.places());
        let Sent { from, to, ask } = sent;
        match self.world.step(alloc, from, to, self.at, fresh, ask) {
            Ok(()) => {}
            Err(CoreNo::NoMemory) => return Err(NoMemory),
            Err(CoreNo::JournalFull(_)) => self.ended = Some(self.world.places() + 1),
        }
        Ok(())
    }

    // Adds a place without a request.
    fn skip(&mut self, alloc: Global) -> Result<(), NoMemory>
        ensures registry { self.new.running.registry ≡ self.old.running.registry }
        ensures seed { self.new.seed ≡ self.old.seed }
        ensures ok { OnOk result (spec.played_of self.new ≡ spec.with_place (spec.played_of self.old) Nothing) }
    {
        self.world.skip(alloc)
    }

    // Adds the place of a line.
    fn place(&mut self, alloc: Global, line: &Line) -> Result<(), NoMemory>
        requires few { length (world_of self.old.running) < 2 ^ 59 }
        requires role { sending.NamesRole self.old.running.registry line.now }
        ensures registry { self.new.running.registry ≡ self.old.running.registry }
        ensures seed { self.new.seed ≡ self.old.seed }
        ensures ok { OnOk result (spec.played_of self.new ≡ spec.line_asked self.old.running.registry self.old.seed (spec.played_of self.old) line.now) }
    {
        // The world is legal, so that a role which received a request is one of the registry.
        self.world.theorem();
        match line_sent(alloc, &self.world, line)? {
            Some(sent) => self.ask(alloc, sent),
            None => self.skip(alloc),
        }
    }

    /// Plays one more line. Nothing is played after the end.
    pub(crate) fn line(&mut self, alloc: Global, line: &Line) -> Result<(), NoMemory>
        requires few { length (world_of self.old.running) < 2 ^ 59 }
        requires role { sending.NamesRole self.old.running.registry line.now }
        ensures registry { self.new.running.registry ≡ self.old.running.registry }
        ensures seed { self.new.seed ≡ self.old.seed }
        ensures ok { OnOk result (spec.played_of self.new ≡ spec.play_on self.old.running.registry self.old.seed (spec.played_of self.old) line.now) }
    {
        if self.ended.is_some() {
            return Ok(());
        }
        match line {
            Line::At(moment) => self.at = *moment,
            Line::Steal { thief, owner } => self.world.steal(*thief, *owner)?,
            Line::Show { .. } => {}
            _ => self.place(alloc, line)?,
        }
        Ok(())
    }

    /// The place at which the play ended early, if it did.
    pub(crate) fn ended(&self) -> Option<u64>
        ensures { result ≡ self.now.ended }
    {
        self.ended
    }

    /// The registry.
    pub(crate) fn registry(&self) -> &Registry
        ensures { result.now ≡ self.now.running.registry }
    {
        self.world.registry()
    }

    /// The number of places.
    pub(crate) fn places(&self) -> u64
        ensures { result ≡ length (world_of self.now.running) }
    {
        self.world.places()
    }

    /// The role that received the request at a place, if there is such a place and it has a request.
    pub(crate) fn role(&self, place: u64) -> Option<To>
        ensures role { result ≡ option_and_then role_at (place_at (world_of self.now.running) place) }
        ensures known { IfSome result (IsRole self.now.running.registry) }
    {
        self.world.role(place)
    }

    /// The reply at a place, if there is such a place.
    pub(crate) fn reply(&self, place: u64) -> Option<&WorldReply>
        ensures { option_copied result ≡ option_map reply_at (place_at (world_of self.now.running) place) }
    {
        self.world.reply(place)
    }

    /// `Ok` if the tested premises hold, or the first that fails.
    pub(crate) fn premises(&self) -> Result<(), Broken>
        ensures ok { OnOk result (first_broken (own_site self.now.running.registry) (world_of self.now.running) ≡ None) }
        ensures err { IfErr result (λ b. first_broken (own_site self.now.running.registry) (world_of self.now.running) ≡ Some b) }
    {
        self.world.premises()
    }

    /// The theorems about the world, as a lemma. The call does nothing.
    pub(crate) fn theorem(&self)
        ensures { TheoremHolds self.now.running.registry (world_of self.now.running) }
    {
        self.world.theorem();
    }
}

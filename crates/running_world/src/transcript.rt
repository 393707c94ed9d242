// The places of a world, with the browsers' jars and the first failed premise, without the cores.

ghost use Rattle.std.specs.Prelude.{◌≡◌, ◌<◌, [], ◌∷◌, length, Some, None, option_copied, option_map, option_and_then, IfSome, IfOk, IfErr, OnOk, OnErr};
ghost use Rattle.std.specs.Vec.{vec_capacity};
ghost use Rattle.client_registry.specs.Registered.{IsRegistry};
ghost use Rattle.op_request.specs.Prepared.{prepared as op_prepared};
ghost use Rattle.sso_places.specs.FirstBroken.{first_broken};
ghost use Rattle.sso_places.specs.Legal.{IsRole, party_prepared};
ghost use Rattle.sso_places.specs.Site.{own_site};
ghost use Rattle.running_world.specs.declared.kept.Kept.{Kept as KeptOf};
ghost use Rattle.running_world.specs.Breaking.{judged_asked};
ghost use Rattle.running_world.specs.Foreknowing.{IsKnown, IsForeknownAt};
ghost use Rattle.cookie_jars.specs.Jars.{jar_of, jars_set, jars_stolen};
ghost use Rattle.running_world.specs.Running.{kept_at, places_of};
ghost use Rattle.sso_places.specs.Cookies.{set_by};
ghost use Rattle.running_world.specs.Whole.{Answers, IsWhole, from_if, role_if};
ghost use Rattle.running_world.specs.Transcribed.{judged_at_provider};

use crate::clashing::clash_in;
use crate::foreknown::Foreknown;
use crate::judging::{checked_by_party, checked_by_provider};
use crate::kept::{Asked, Kept};
use crate::noting::{Index, settle};
use crate::premises::{ask_leaks, first_of, forges, leaks, verdict};
use crate::told::jar_set;
use client_registry::Registry;
use cookie_jars::Jars;
use op_exchange::OpAsk;
use rp_exchange::RpAsk;
use sso_base::{Ask, NoMemory};
use sso_places::{Broken, Jar, To, WorldAsk, WorldReply};
use std::alloc::Global;
use std::marker::Model;

/// The places of a world, with an index of them. Its model is the registry, what was kept at each place, and the changes of the
/// jars. Indexing takes memory, so the newest place is indexed just before the next one.
#[derive(Drop)]
pub(crate) struct Transcript {
    registry: Registry,
    kept: Vec<Kept>,
    jars: Jars,
    index: Index,
    // what is known of the newest place, if it is not indexed
    behind: Option<Foreknown>,
    broken: Option<Broken>,
    // whether the newest place is indexed, and there is room for one more
    settled: bool,
}

impl Model for Transcript {
    ghost use Rattle.std.specs.Prelude.{reverse};
    ghost use Rattle.std.specs.Vec.{vec_capacity};
    ghost use Rattle.running_world.specs.Transcribed.{Transcribed, ready_if, IsTranscript};

    ghost Value = { Transcribed };

    ghost view = { λ t. record { registry = t.registry; kept = reverse t.kept.items; jars = t.jars.notes; ready = ready_if t.settled t.jars.ready } };

    ghost invariant = { λ t. IsTranscript t.registry (reverse t.kept.items) (vec_capacity t.kept) t.jars t.index t.behind t.broken t.settled };
}

// Makes room for one more place. Places are large, so the capacity grows by an eighth.
fn make_room(kept: &mut Vec<Kept>) -> Result<(), NoMemory>
    ensures items { kept.new.items ≡ kept.old.items }
    ensures room { OnOk result (length kept.new.items < vec_capacity kept.new) }
{
    let count = kept.len();
    if count == kept.capacity() {
        kept.reserve_exact(1 + count / 8)?;
    }
    Ok(())
}

impl Transcript {
    /// No place, and all jars are empty.
    pub(crate) fn new(alloc: Global, registry: Registry) -> Result<Transcript, NoMemory>
        ensures new { IfOk result (λ t. t ≡ record { registry = registry; kept = []; jars = []; ready = None }) }
        ensures read { IsRegistry registry }
    {
        let parties = registry.parties();
        let clients = registry.clients();
        Ok(Transcript {
            registry,
            kept: Vec::new(alloc),
            jars: Jars::new(alloc, parties)?,
            index: Index::new(alloc, clients)?,
            behind: None,
            broken: None,
            settled: false,
        })
    }

    /// The registry.
    pub(crate) fn registry(&self) -> &Registry
        ensures registry { result.now ≡ self.now.registry }
        ensures read { IsRegistry self.now.registry }
    {
        &self.registry
    }

    /// Makes room for the next place.
    pub(crate) fn prepare(&mut self, alloc: Global, from: u32, to: To) -> Result<(), NoMemory>
        requires { IsRole self.old.registry to }
        ensures same { self.new ≡ record self.old { ready = self.new.ready } }
        ensures ok { OnOk result (self.new.ready ≡ Some (record { browser = from; to = to })) }
    {
        self.settled = false;
        settle(
            &mut self.index,
            &mut self.behind,
            alloc,
            &self.registry,
            &self.kept,
        )?;
        make_room(&mut self.kept)?;
        self.jars.prepare(from, to)?;
        self.settled = true;
        Ok(())
    }

    /// The premise that fails at the next place by its request to the provider. Room was made for the place.
    pub(crate) fn judged_at_provider(
        &self,
        alloc: Global,
        from: u32,
        request: &Ask,
        asked: &OpAsk,
    ) -> Result<Option<Broken>, NoMemory>
        requires ready { self.now.ready ≡ Some (record { browser = from; to = To.Provider }) }
        requires asked { asked.now ≡ op_prepared self.now.registry request.now }
        ensures { IfOk result (λ o. o ≡ judged_at_provider self.now from request.now) }
    {
        let token = checked_by_provider(alloc, &self.registry, request, asked)?;
        let forged = forges(alloc, &self.registry, &self.index.written, &token)?;
        let leaked = leaks(&self.index.setters, request, from);
        Ok(verdict(self.kept.len() as u64 + 1, forged, leaked))
    }

    /// The premise that fails at the next place by its request to a party. Room was made for the place.
    pub(crate) fn judged_at_party(
        &self,
        alloc: Global,
        from: u32,
        party: u32,
        ask: &WorldAsk,
        asked: &RpAsk,
    ) -> Result<Option<Broken>, NoMemory>
        requires ready { self.now.ready ≡ Some (record { browser = from; to = To.Party party }) }
        requires party { party < length self.now.registry.parties }
        requires asked { asked.now ≡ party_prepared self.now.registry party ask.now }
        ensures { IfOk result (λ o. o ≡ judged_asked self.now.registry (places_of self.now.registry self.now.kept) from (To.Party party) ask.now) }
    {
        let client = self.registry.party(party).client;
        let token = checked_by_party(alloc, client, ask, asked)?;
        let forged = forges(alloc, &self.registry, &self.index.written, &token)?;
        let leaked = ask_leaks(&self.index.setters, ask, from);
        Ok(verdict(self.kept.len() as u64 + 1, forged, leaked))
    }

    /// Keeps the next place. Room was made for it.
    pub(crate) fn put(
        &mut self,
        asked: Asked,
        reply: WorldReply,
        judged: Option<Broken>,
        fore: Foreknown,
    )
        requires ready { self.old.ready ≡ Some (record { browser = asked.from; to = asked.to }) }
        requires role { IsRole self.old.registry asked.to }
        requires answers { Answers asked.to asked.ask reply }
        requires judged { judged ≡ judged_asked self.old.registry (places_of self.old.registry self.old.kept) asked.from asked.to asked.ask }
        requires known { IsKnown self.old.registry fore }
        requires fore { IsForeknownAt self.old.registry (places_of self.old.registry self.old.kept) asked.at asked.to asked.ask fore }
        ensures registry { self.new.registry ≡ self.old.registry }
        ensures kept { self.new.kept ≡ (record { asked = Some asked; reply = reply }) ∷ self.old.kept }
        ensures jars { self.new.jars ≡ jars_set asked.from asked.to (set_by reply) self.old.jars }
    {
        let clash = clash_in(&self.index.halves, self.kept.len() as u64 + 1, &reply);
        self.broken = first_of(self.broken, first_of(judged, clash));
        self.jars.set(asked.from, asked.to, jar_set(&reply));
        self.kept.push_reserved(Kept {
            asked: Some(asked),
            reply,
        });
        self.behind = Some(fore);
        self.settled = false;
    }

    /// Keeps a place without a request.
    pub(crate) fn skip(&mut self, alloc: Global) -> Result<(), NoMemory>
        ensures registry { self.new.registry ≡ self.old.registry }
        ensures jars { self.new.jars ≡ self.old.jars }
        ensures ok { OnOk result (self.new.kept ≡ (record { asked = None; reply = WorldReply.Nothing }) ∷ self.old.kept) }
        ensures err { OnErr result (self.new.kept ≡ self.old.kept) }
    {
        self.settled = false;
        settle(
            &mut self.index,
            &mut self.behind,
            alloc,
            &self.registry,
            &self.kept,
        )?;
        make_room(&mut self.kept)?;
        self.kept.push_reserved(Kept {
            asked: None,
            reply: WorldReply::Nothing,
        });
        Ok(())
    }

    /// Replaces the thief's jars by copies of the owner's.
    pub(crate) fn steal(&mut self, thief: u32, owner: u32) -> Result<(), NoMemory>
        ensures registry { self.new.registry ≡ self.old.registry }
        ensures kept { self.new.kept ≡ self.old.kept }
        ensures ok { OnOk result (self.new.jars ≡ jars_stolen thief owner self.old.jars) }
        ensures err { OnErr result (self.new.jars ≡ self.old.jars) }
    {
        self.jars.steal(thief, owner)
    }

    /// The jar of a browser at a role.
    pub(crate) fn jar(&self, browser: u32, to: To) -> Jar
        ensures { result ≡ jar_of self.now.jars browser to }
    {
        self.jars.jar(browser, to)
    }

    /// The number of places.
    pub(crate) fn places(&self) -> u64
        ensures { result ≡ length self.now.kept }
    {
        self.kept.len() as u64
    }

    // What was kept at a place, from 1.
    fn kept_at(&self, place: u64) -> Option<&Kept>
        ensures kept { option_copied result ≡ kept_at self.now.kept place }
        ensures whole { IfSome (kept_at self.now.kept place) IsWhole }
    {
        if place == 0 {
            return None;
        }
        self.kept.get(place as usize - 1)
    }

    /// The role that received the request at a place.
    pub(crate) fn role(&self, place: u64) -> Option<To>
        ensures role { result ≡ option_and_then (λ (k : KeptOf). role_if k.asked) (kept_at self.now.kept place) }
        ensures whole { IfSome (kept_at self.now.kept place) IsWhole }
    {
        match self.kept_at(place) {
            Some(kept) => role_of(kept),
            None => None,
        }
    }

    /// The reply at a place.
    pub(crate) fn reply(&self, place: u64) -> Option<&WorldReply>
        ensures reply { option_copied result ≡ option_map (λ (k : KeptOf). k.reply) (kept_at self.now.kept place) }
        ensures whole { IfSome (kept_at self.now.kept place) IsWhole }
    {
        match self.kept_at(place) {
            Some(kept) => Some(&kept.reply),
            None => None,
        }
    }

    /// The number of the sender at a place.
    pub(crate) fn from(&self, place: u64) -> Option<u32>
        ensures from { result ≡ option_map (λ (k : KeptOf). from_if k.asked) (kept_at self.now.kept place) }
        ensures whole { IfSome (kept_at self.now.kept place) IsWhole }
    {
        match self.kept_at(place) {
            Some(kept) => Some(from_of(kept)),
            None => None,
        }
    }

    /// `Ok` if the tested premises hold, or the first that fails.
    pub(crate) fn premises(&self) -> Result<(), Broken>
        ensures ok { OnOk result (first_broken (own_site self.now.registry) (places_of self.now.registry self.now.kept) ≡ None) }
        ensures err { IfErr result (λ b. first_broken (own_site self.now.registry) (places_of self.now.registry self.now.kept) ≡ Some b) }
    {
        match self.broken {
            None => Ok(()),
            Some(broken) => Err(broken),
        }
    }
}

// The number of the sender at a place.
fn from_of(kept: &Kept) -> u32
    ensures { result ≡ from_if kept.now.asked }
{
    match &kept.asked {
        Some(asked) => asked.from,
        None => 0,
    }
}

// The role that received the request at a place.
fn role_of(kept: &Kept) -> Option<To>
    ensures { result ≡ role_if kept.now.asked }
{
    match &kept.asked {
        Some(asked) => Some(asked.to),
        None => None,
    }
}

// A running world.

ghost use Rattle.std.specs.Prelude.{◌≡◌, ◌<◌, ◌≤◌, ◌+◌, [], ◌∷◌, length, Err, None, Some, option_copied, option_map, option_and_then, IfSome, IfOk, IfErr};
ghost use Rattle.std.specs.Prelude.{OnOk, OnErr};
ghost use Rattle.sso_base.specs.Journal.{most_of, ReportsFull};
ghost use Rattle.sso_places.specs.Legal.{IsRole};
ghost use Rattle.sso_places.specs.Site.{own_site};
ghost use Rattle.sso_places.specs.World.{Nothing, place_at, from_of, role_at, reply_at};
ghost use Rattle.sso_places.specs.FirstBroken.{first_broken};
ghost use Rattle.cookie_jars.specs.Jars.{jar_of, jars_after, jars_stolen};
ghost use Rattle.running_world.specs.Running.{world_of};
ghost use Rattle.running_world.specs.Stepping.{IsForRole, stepped, role_weight, asked_weight};
ghost use Rattle.running_world.specs.Theorem.{TheoremHolds};

use crate::asking::{ask_party, ask_provider};
use crate::roles::{TimedParty, TimedProvider, new_parties};
use crate::transcript::Transcript;
use client_registry::Registry;
use sso_base::{CoreNo, Moment, NoMemory, Word};
use sso_places::{Broken, Jar, To, WorldAsk, WorldReply};
use std::alloc::Global;
use std::marker::Model;

/// The provider and the relying parties of one registry, which receive requests at places, one after another. Its model is the
/// registry, what was kept at each place, and the changes of the browsers' jars. Each party trusts the registry's provider.
#[derive(Drop)]
pub struct World {
    transcript: Transcript,
    provider: TimedProvider,
    parties: Vec<TimedParty>,
}

impl Model for World {
    ghost use Rattle.running_world.specs.Running.{Running, places_of};
    ghost use Rattle.running_world.specs.Worlds.{shown, IsWorld};

    ghost Value = { Running };

    ghost view = { λ w. shown w.transcript };

    ghost invariant = { λ w. IsWorld w.transcript.registry w.provider w.parties.items (places_of w.transcript.registry w.transcript.kept) };
}

impl World {
    /// A world of this registry without places.
    pub fn new(alloc: Global, registry: Registry) -> Result<World, NoMemory>
        ensures { IfOk result (λ w. w ≡ record { registry = registry; kept = []; jars = [] }) }
    {
        let Ok(provider) = TimedProvider::new(alloc, &registry) else {
            drop(registry);
            return Err(NoMemory);
        };
        let Ok(parties) = new_parties(alloc, &registry) else {
            drop(provider);
            drop(registry);
            return Err(NoMemory);
        };
        let Ok(transcript) = Transcript::new(alloc, registry) else {
            drop(provider);
            drop(parties);
            return Err(NoMemory);
        };
        Ok(World {
            transcript,
            provider,
            parties,
        })
    }

    /// Sends a request to the provider or to a relying party, and keeps the request and the reply at the next place. The moment
    /// is the later of `at` and the role's last one. The cookies that the reply sets go into the jar of `from`. This is the
    /// number of a browser, or 0 for a server, which has no jar.
    ///
    /// The world with the new place is legal, and the theorems are true for it: under the premises its reading is a run of the
    /// sign-on machine, and honest logins succeed.
    ///
    /// The party must be in the registry, and only a party receives the answer of another server. On an error nothing changes:
    /// memory ran out, or the history of the role has no room for the request.
    pub fn step(
        &mut self,
        alloc: Global,
        from: u32,
        to: To,
        at: Moment,
        fresh: [Word; 4],
        ask: WorldAsk,
    ) -> Result<(), CoreNo>
        requires role { IsRole self.old.registry to }
        requires ask { IsForRole to ask }
        ensures registry { self.new.registry ≡ self.old.registry }
        ensures ok { OnOk result (world_of self.new ≡ stepped (own_site self.old.registry) from to at fresh ask (world_of self.old) ∷ world_of self.old) }
        ensures jars { OnOk result (self.new.jars ≡ jars_after (stepped (own_site self.old.registry) from to at fresh ask (world_of self.old)) self.old.jars) }
        ensures theorem { OnOk result (TheoremHolds self.old.registry (world_of self.new)) }
        ensures err { OnErr result (self.new ≡ self.old) }
        ensures room { OnOk result (role_weight to (world_of self.old) + asked_weight self.old.registry to ask ≤ most_of self.old.registry.lasting) }
        ensures full { ReportsFull (most_of self.old.registry.lasting) result (role_weight to (world_of self.old)) (asked_weight self.old.registry to ask) }
    {
        match to {
            To::Provider => match ask {
                WorldAsk::Http(request) => ask_provider(
                    &mut self.provider,
                    &mut self.transcript,
                    alloc,
                    from,
                    at,
                    fresh,
                    request,
                ),
                WorldAsk::Tokens(..) | WorldAsk::Info(..) => unreachable!(),
            },
            To::Party(party) => ask_party(
                &mut self.parties,
                &mut self.transcript,
                alloc,
                from,
                party,
                at,
                fresh,
                ask,
            ),
        }
    }

    /// Keeps a place without a request.
    pub fn skip(&mut self, alloc: Global) -> Result<(), NoMemory>
        ensures registry { self.new.registry ≡ self.old.registry }
        ensures ok { OnOk result (world_of self.new ≡ Nothing ∷ world_of self.old) }
        ensures jars { self.new.jars ≡ self.old.jars }
        ensures err { OnErr result (self.new ≡ self.old) }
    {
        self.transcript.skip(alloc)
    }

    /// Replaces the thief's jars at all roles by copies of the owner's. The number 0, of a server, has no jars.
    pub fn steal(&mut self, thief: u32, owner: u32) -> Result<(), NoMemory>
        ensures registry { self.new.registry ≡ self.old.registry }
        ensures places { world_of self.new ≡ world_of self.old }
        ensures ok { OnOk result (self.new.jars ≡ jars_stolen thief owner self.old.jars) }
        ensures err { OnErr result (self.new ≡ self.old) }
    {
        self.transcript.steal(thief, owner)
    }

    /// The registry.
    pub fn registry(&self) -> &Registry
        ensures { result.now ≡ self.now.registry }
    {
        self.transcript.registry()
    }

    /// The number of places.
    pub fn places(&self) -> u64
        ensures { result ≡ length (world_of self.now) }
    {
        self.transcript.places()
    }

    /// The role that received the request at a place, from 1. `None` if and only if there is no such place, or no request.
    pub fn role(&self, place: u64) -> Option<To>
        ensures role { result ≡ option_and_then role_at (place_at (world_of self.now) place) }
        ensures known { IfSome result (IsRole self.now.registry) }
    {
        self.transcript.role(place)
    }

    /// The reply at a place, from 1. `None` if and only if there is no such place.
    pub fn reply(&self, place: u64) -> Option<&WorldReply>
        ensures { option_copied result ≡ option_map reply_at (place_at (world_of self.now) place) }
    {
        self.transcript.reply(place)
    }

    /// The number of the sender at a place, 0 if there was no request. `None` if and only if there is no such place.
    pub fn from(&self, place: u64) -> Option<u32>
        ensures { result ≡ option_map from_of (place_at (world_of self.now) place) }
    {
        self.transcript.from(place)
    }

    /// The cookies of a browser at a role.
    pub fn jar(&self, browser: u32, to: To) -> Jar
        ensures { result ≡ jar_of self.now.jars browser to }
    {
        self.transcript.jar(browser, to)
    }

    /// `Ok` if the tested premises of the sign-on theorem hold: no token is forged, no cookie is used under another number, and
    /// no half hashes of codes and access tokens clash. Otherwise the first place at which one fails, and which premise it is.
    pub fn premises(&self) -> Result<(), Broken>
        ensures ok { OnOk result (first_broken (own_site self.now.registry) (world_of self.now) ≡ None) }
        ensures err { IfErr result (λ b. first_broken (own_site self.now.registry) (world_of self.now) ≡ Some b) }
    {
        self.transcript.premises()
    }

    /// The theorems about each world, as a lemma for the crates above: the world is legal, under the premises its reading is a
    /// run of the sign-on machine, and honest logins succeed. The call does nothing.
    pub fn theorem(&self)
        ensures { TheoremHolds self.now.registry (world_of self.now) }
    {
        // The type's invariant becomes known by reading a field.
        let _places = self.transcript.places();
    }
}

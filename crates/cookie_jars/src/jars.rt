// The cookies of each browser at each role.

ghost use Rattle.std.specs.Prelude.{◌≡◌, ℕ, ◌<◌, ◌==◌, true, [], ◌∷◌, ◌++◌, length, Some, None, IfOk, OnOk, OnErr, if◌then◌else◌};
ghost use Rattle.std.specs.Vec.{vec_capacity};
ghost use Rattle.std.specs.Option.{option_or};
ghost use Rattle.cookie_jars.specs.Jars as spec;
ghost use Rattle.cookie_jars.specs.JarMaps.{jar_in, has_jar, jars_at, jar_after_theft};
ghost use Rattle.cookie_jars.specs.JarsFound.{HaveSlots, IsBelow};

use crate::jar_map::{JarMap, empty_jar};
use crate::jar_note::{JarNote, Slot};
use sso_base::{NoMemory, Word};
use sso_places::{Jar, To};
use std::alloc::Global;
use std::marker::Model;

/// The jars of all browsers. Its model is the list of their changes, the newest first. Room for a change of one jar is made
/// before it, so that the change takes no memory.
#[derive(Drop)]
pub struct Jars {
    notes: Vec<JarNote>,
    provider: JarMap,
    parties: Vec<JarMap>,
    ready: Option<Slot>,
}

impl Model for Jars {
    ghost use Rattle.std.specs.Prelude.{reverse, length};
    ghost use Rattle.std.specs.Vec.{vec_capacity};
    ghost use Rattle.cookie_jars.specs.JarsFound.{Jarred, AreJars};

    ghost Value = { Jarred };

    ghost view = { λ j. record { notes = reverse j.notes.items; parties = length j.parties.items; ready = j.ready } };

    ghost invariant = { λ j. AreJars j.provider j.parties.items (reverse j.notes.items) (vec_capacity j.notes) j.ready };
}

// The new cookie, or else the old one.
fn set_or(set: &Option<Word>, was: &Option<Word>) -> Option<Word>
    ensures { result ≡ option_or set.now was.now }
{
    match set {
        Some(word) => Some(*word),
        None => *was,
    }
}

// The cookies of a jar after others were set.
fn jar_with(set: &Jar, jar: &Jar) -> Jar
    ensures { result ≡ spec.jar_with set.now jar.now }
{
    Jar {
        first: set_or(&set.first, &jar.first),
        second: set_or(&set.second, &jar.second),
    }
}

// Sets the cookies in the browser's jar.
fn set_in(map: &mut JarMap, browser: u32, set: &Jar)
    requires { has_jar map.old browser ≡ true }
    ensures { (other : ℕ) → jar_in map.new other ≡ (if other == browser then spec.jar_with set.now (jar_in map.old browser) else jar_in map.old other) }
{
    let jar = jar_with(set, &map.jar(browser));
    map.put(browser, jar);
}

// Replaces the thief's jar by a copy of the owner's.
fn steal_in(map: &mut JarMap, thief: u32, owner: u32)
    requires { has_jar map.old thief ≡ true }
    ensures { (other : ℕ) → jar_in map.new other ≡ jar_after_theft map.old thief owner other }
{
    let jar = map.jar(owner);
    map.put(thief, jar);
}

// Makes room for a browser's jar in each map. No jar changes.
fn prepare_all(maps: &mut Vec<JarMap>, browser: u32) -> Result<(), NoMemory>
    ensures count { length maps.new.items ≡ length maps.old.items }
    ensures same { (n other : ℕ) → jar_in (jars_at maps.new.items n) other ≡ jar_in (jars_at maps.old.items n) other }
    ensures room { OnOk result (HaveSlots maps.new.items browser) }
{
    for n in 0..maps.len() {
        maps[n].prepare(browser)?;
    }
    Ok(())
}

// Replaces the thief's jar by a copy of the owner's in each map.
fn steal_in_all(maps: &mut Vec<JarMap>, thief: u32, owner: u32)
    requires { HaveSlots maps.old.items thief }
    ensures count { length maps.new.items ≡ length maps.old.items }
    ensures jars { (n other : ℕ) → jar_in (jars_at maps.new.items n) other ≡ jar_after_theft (jars_at maps.old.items n) thief owner other }
{
    for n in 0..maps.len() {
        steal_in(&mut maps[n], thief, owner);
    }
}

// Adds one more change, for which there is room. The match names each form, so that the borrow checker finds its fields' types.
fn push_note(notes: &mut Vec<JarNote>, note: JarNote)
    requires { length notes.old.items < vec_capacity notes.old }
    ensures { notes.new.items ≡ notes.old.items ++ note ∷ [] }
{
    match note {
        JarNote::Set { browser, to, set } => {
            notes.push_reserved(JarNote::Set { browser, to, set })
        }
        JarNote::Stolen { thief, owner } => {
            notes.push_reserved(JarNote::Stolen { thief, owner })
        }
    }
}

impl Jars {
    /// Empty jars, at the provider and at `parties` parties.
    pub fn new(alloc: Global, parties: u32) -> Result<Jars, NoMemory>
        ensures { IfOk result (λ j. j ≡ record { notes = []; parties = parties; ready = None }) }
    {
        let mut maps = Vec::new(alloc);
        for _ in 0..parties {
            maps.push(JarMap::new(alloc))?;
        }
        Ok(Jars {
            notes: Vec::new(alloc),
            provider: JarMap::new(alloc),
            parties: maps,
            ready: None,
        })
    }

    /// The jar of a browser at a role.
    pub fn jar(&self, browser: u32, to: To) -> Jar
        ensures { result ≡ spec.jar_of self.now.notes browser to }
    {
        match to {
            To::Provider => self.provider.jar(browser),
            To::Party(n) => match self.parties.get(n as usize) {
                Some(map) => map.jar(browser),
                None => empty_jar(),
            },
        }
    }

    /// Makes room for one change of a browser's jar at a role.
    pub fn prepare(&mut self, browser: u32, to: To) -> Result<(), NoMemory>
        requires { IsBelow self.old.parties to }
        ensures same { self.new ≡ record self.old { ready = self.new.ready } }
        ensures ok { OnOk result (self.new.ready ≡ Some (record { browser = browser; to = to })) }
    {
        self.ready = None;
        self.notes.reserve(1)?;
        match to {
            To::Provider => self.provider.prepare(browser)?,
            To::Party(n) => self.parties[n as usize].prepare(browser)?,
        }
        self.ready = Some(Slot { browser, to });
        Ok(())
    }

    /// Sets the cookies of a role's reply for the browser. Room must have been made for it. The number 0 has no jar.
    pub fn set(&mut self, browser: u32, to: To, set: Jar)
        requires { self.old.ready ≡ Some (record { browser = browser; to = to }) }
        ensures { self.new ≡ record self.old { notes = spec.jars_set browser to set self.old.notes; ready = None } }
    {
        self.ready = None;
        if browser == 0 {
            return;
        }
        match to {
            To::Provider => set_in(&mut self.provider, browser, &set),
            To::Party(n) => set_in(&mut self.parties[n as usize], browser, &set),
        }
        push_note(&mut self.notes, JarNote::Set { browser, to, set });
    }

    /// Replaces the thief's jars by copies of the owner's. The number 0 has no jar. On an error no jar changes.
    pub fn steal(&mut self, thief: u32, owner: u32) -> Result<(), NoMemory>
        ensures ok { OnOk result (self.new ≡ record self.old { notes = spec.jars_stolen thief owner self.old.notes; ready = None }) }
        ensures err { OnErr result (self.new ≡ record self.old { ready = None }) }
    {
        self.ready = None;
        if thief == 0 {
            return Ok(());
        }
        self.notes.reserve(1)?;
        self.provider.prepare(thief)?;
        prepare_all(&mut self.parties, thief)?;
        steal_in(&mut self.provider, thief, owner);
        steal_in_all(&mut self.parties, thief, owner);
        push_note(&mut self.notes, JarNote::Stolen { thief, owner });
        Ok(())
    }
}

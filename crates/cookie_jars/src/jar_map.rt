// The cookies of each browser at one role.

ghost use Rattle.std.specs.Prelude.{◌≡◌, ℕ, ◌==◌, OnOk, OnErr, true, if◌then◌else◌};
ghost use Rattle.sso_places.specs.Cookies.{no_jar};
ghost use Rattle.cookie_jars.specs.JarMaps.{jar_in, has_jar, IsPut};

use sso_base::{NoMemory, Word};
use sso_places::Jar;
use std::alloc::Global;
use std::collections::BTreeMap;
use std::marker::Model;

/// The jars of browsers at one role. Its model is a list of browsers with their jars. A browser that is not in it has an empty
/// jar.
#[derive(Drop)]
pub(crate) struct JarMap {
    jars: BTreeMap<u32, Jar>,
}

impl Model for JarMap {
    ghost use Rattle.std.specs.Prelude.{List, ℕ};
    ghost use Rattle.sso_places.specs.declared.types.Jar.{Jar};

    ghost Value = { List (ℕ × Jar) };

    ghost view = { λ m. m.jars.entries };
}

// A jar without cookies.
pub(crate) fn empty_jar() -> Jar
    ensures { result ≡ no_jar }
{
    Jar {
        first: None,
        second: None,
    }
}

impl JarMap {
    /// All jars are empty.
    pub(crate) fn new(alloc: Global) -> JarMap
        ensures { (browser : ℕ) → jar_in result browser ≡ no_jar }
    {
        JarMap {
            jars: BTreeMap::new(alloc),
        }
    }

    /// The jar of a browser.
    pub(crate) fn jar(&self, browser: u32) -> Jar
        ensures { result ≡ jar_in self.now browser }
    {
        match self.jars.get(&browser) {
            Some(jar) => *jar,
            None => empty_jar(),
        }
    }

    /// Makes room for the jar of a browser. No jar changes.
    pub(crate) fn prepare(&mut self, browser: u32) -> Result<(), NoMemory>
        ensures same { (other : ℕ) → jar_in self.new other ≡ jar_in self.old other }
        ensures room { OnOk result (has_jar self.new browser ≡ true) }
    {
        let jar = self.jar(browser);
        self.add(browser, jar.first, jar.second)
    }

    // Adds the browser's jar with these cookies. It takes memory if the browser had none.
    fn add(
        &mut self,
        browser: u32,
        first: Option<Word>,
        second: Option<Word>,
    ) -> Result<(), NoMemory>
        ensures ok { OnOk result (IsPut self.old self.new browser (record { first = first; second = second })) }
        ensures err { OnErr result (self.new ≡ self.old) }
    {
        self.jars.insert(browser, Jar { first, second })?;
        Ok(())
    }

    /// Replaces the browser's jar. Room must have been made for it.
    pub(crate) fn put(&mut self, browser: u32, jar: Jar)
        requires { has_jar self.old browser ≡ true }
        ensures { (other : ℕ) → jar_in self.new other ≡ (if other == browser then jar else jar_in self.old other) }
    {
        if let Some(place) = self.jars.get_mut(&browser) {
            *place = jar;
        }
    }
}

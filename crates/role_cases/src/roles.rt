// The roles of a run.

use crate::cores::Begins;
use crate::party::RelyingParty;
use crate::provider::Provider;
use case_lines::{Run, told};
use sso_base::NoMemory;
use std::alloc::Global;
use std::mem;

/// A role.
#[derive(Clone, Copy)]
pub enum Role {
    Provider,
    Party,
}

/// The provider and the relying party, which is in a core of this type, and their run.
#[derive(Drop)]
pub struct Roles<C: Begins> {
    provider: Option<Provider>,
    party: Option<RelyingParty<C>>,
    run: Run,
}

impl<C: Begins> Roles<C> {
    /// No role yet.
    pub fn new(alloc: Global) -> Roles<C> {
        Roles {
            provider: None,
            party: None,
            run: Run::new(alloc),
        }
    }

    // Sets the provider, begins its run, and returns whether there is one. (The old one is dropped by a call, and not in place:
    // the proof of that is long.)
    fn set_provider(&mut self, alloc: Global, provider: Option<Provider>) -> bool {
        let begins = provider.is_some();
        drop(mem::replace(&mut self.provider, provider));
        self.run = Run::new(alloc);
        begins
    }

    // The same for this relying party.
    fn set_party(&mut self, alloc: Global, party: Option<RelyingParty<C>>) -> bool {
        let begins = party.is_some();
        drop(mem::replace(&mut self.party, party));
        self.run = Run::new(alloc);
        begins
    }

    /// Begins a provider with this configuration, and a run.
    pub fn begin_provider(&mut self, alloc: Global, file: &str) -> Result<String, NoMemory> {
        let provider = Provider::begin(alloc, file)?;
        let begins = self.set_provider(alloc, provider);
        told(alloc, if begins { "begun" } else { "no such provider" })
    }

    /// Begins the relying party with this name, as `RelyingParty::begin`, and a run.
    pub fn begin_party(
        &mut self,
        alloc: Global,
        file: &str,
        name: &str,
        authorize: Option<&str>,
    ) -> Result<String, NoMemory> {
        let party = RelyingParty::begin(alloc, file, name, authorize)?;
        let begins = self.set_party(alloc, party);
        told(
            alloc,
            if begins {
                "nobody came"
            } else {
                "no such party"
            },
        )
    }

    /// The answer of the provider to a call.
    pub fn ask_provider(&mut self, alloc: Global, fields: &[&str]) -> Result<String, NoMemory> {
        match &mut self.provider {
            Some(provider) => provider.answer(alloc, &mut self.run, fields),
            None => told(alloc, "no provider"),
        }
    }

    /// The answer of the relying party to a call.
    pub fn ask_party(&mut self, alloc: Global, fields: &[&str]) -> Result<String, NoMemory> {
        match &mut self.party {
            Some(party) => party.answer(alloc, &mut self.run, fields),
            None => told(alloc, "no party"),
        }
    }

    fn ask(&mut self, alloc: Global, role: Role, fields: &[&str]) -> Result<String, NoMemory> {
        match role {
            Role::Provider => self.ask_provider(alloc, fields),
            Role::Party => self.ask_party(alloc, fields),
        }
    }

    /// The answers of a role to a call that is made `count` times: the first answer, and how many answers are equal to it.
    pub fn ask_often(
        &mut self,
        alloc: Global,
        role: Role,
        count: u32,
        fields: &[&str],
    ) -> Result<String, NoMemory> {
        let first = self.ask(alloc, role, fields)?;
        let mut same: u32 = 1;
        for _ in 1..count {
            let next = self.ask(alloc, role, fields)?;
            if next.as_str() == first.as_str() {
                same = same.wrapping_add(1);
            }
        }
        Ok(format!(in alloc; "{}, {same} times", first.as_str())?)
    }

    /// The text of the last reply with this name.
    pub fn text(&self, name: &str) -> Option<&str> {
        self.run.text(name)
    }
}

// The cores of relying parties.

ghost use Rattle.std.specs.Prelude.{◌≡◌, ◌<◌, length};

use client_registry::{Provider, Registry};
use core_stack::Relies;
use pkce_party::PkceParty;
use rp_core::RpCore;
use rp_login::Logins;
use sso_base::NoMemory;
use std::alloc::Global;

/// A core with which a run begins.
pub trait Begins: Relies {
    /// The party of the registry with this number, at this provider, in this core, with an empty history.
    fn begin(
        alloc: Global,
        registry: Registry,
        party: u32,
        provider: Provider,
    ) -> Result<Self, NoMemory>
        requires party { party < length registry.parties }
        requires issuer { provider.issuer ≡ registry.provider.issuer };

    /// The tables of the party, if the core shows them.
    fn tables(&self) -> Option<&Logins>;
}

impl Begins for RpCore {
    fn begin(
        alloc: Global,
        registry: Registry,
        party: u32,
        provider: Provider,
    ) -> Result<RpCore, NoMemory> {
        RpCore::new(alloc, registry, party, provider)
    }

    fn tables(&self) -> Option<&Logins> {
        Some(RpCore::tables(self))
    }
}

impl Begins for PkceParty {
    fn begin(
        alloc: Global,
        registry: Registry,
        party: u32,
        provider: Provider,
    ) -> Result<PkceParty, NoMemory> {
        let core = RpCore::new(alloc, registry, party, provider)?;
        Ok(PkceParty::new(alloc, core))
    }

    fn tables(&self) -> Option<&Logins> {
        None
    }
}

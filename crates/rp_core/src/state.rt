// A relying party: its setup, its history, and the tables for that history.

ghost use Rattle.std.specs.Prelude.{◌≡◌, ◌<◌, length, [], IfOk};
ghost use Rattle.sso_base.specs.Legal.{last_moment};
ghost use Rattle.rp_login.specs.Tables.{no_tables};
ghost use Rattle.rp_answer.specs.Setup.{party_of};
ghost use Rattle.rp_accept.specs.Serving.{setup_of};
ghost use Rattle.rp_core.specs.Agreeing.{Agrees};
ghost use Rattle.rp_core.specs.Relying.{past_of};

use client_registry::{Provider, Registry};
use oidc_words::Types;
use rp_accept::Setup;
use rp_exchange::{RpAsk, RpReply};
use rp_login::Logins;
use sso_base::{Journal, NoMemory};
use std::alloc::Global;
use std::marker::Model;

/// A relying party (OpenID Connect Core 1.0, 3). The model is its setup, its history, oldest first, and its tables. The setup
/// is a registry, the number of a party in it, and the provider that the party trusts.
#[derive(Drop)]
pub struct RpCore {
    pub(crate) setup: Setup,
    pub(crate) journal: Journal<RpAsk, RpReply>,
    pub(crate) logins: Logins,
}

impl Model for RpCore {
    ghost use Rattle.rp_core.specs.Relying.{Relying};

    ghost Value = { Relying };

    ghost use Rattle.std.specs.Coded.{codes};
    ghost use Rattle.claim_set.specs.MembersCode.{members_code};

    ghost coded = { Prim.hlevel (codes, members_code) };

    ghost view = { λ c. record { setup = c.setup; history = c.journal.pairs; tables = c.logins } };

    ghost use Rattle.rp_core.specs.Agreeing.{Keeps};

    ghost invariant = { λ c. Keeps c.setup c.journal.pairs c.logins c.journal.most };
}

impl RpCore {
    /// A relying party with an empty history: the party with this number in the registry, which trusts this provider. The
    /// provider's issuer is the registry's. The party stores its history, unless the registry's histories last.
    pub fn new(
        alloc: Global,
        registry: Registry,
        number: u32,
        provider: Provider,
    ) -> Result<RpCore, NoMemory>
        requires party { number < length registry.parties }
        requires issuer { provider.issuer ≡ registry.provider.issuer }
        ensures { IfOk result (λ c. c ≡ record { setup = setup_of registry number provider; history = []; tables = no_tables }) }
    {
        let lasts = registry.lasting();
        let logins = Logins::new(alloc)?;
        Ok(RpCore {
            setup: Setup::new(registry, number, provider),
            journal: Journal::new(alloc, lasts),
            logins,
        })
    }

    /// The response type of the party's requests.
    pub fn types(&self) -> Types
        ensures { result ≡ (party_of self.now.setup).types }
    {
        self.setup.party().types
    }

    /// The tables. Their live rows at the moment of the last entry are exactly those that live after the history.
    pub fn tables(&self) -> &Logins
        ensures tables { result.now ≡ self.now.tables }
        ensures agrees { Agrees (party_of self.now.setup).types result.now (past_of self.now) (last_moment (past_of self.now)) }
    {
        &self.logins
    }
}

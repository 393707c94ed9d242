// The setup of a relying party.

ghost use Rattle.std.specs.Prelude.{◌≡◌, ◌<◌, length, IfOk};
ghost use Rattle.login_request.specs.Request.{login_location};
ghost use Rattle.logout_token.specs.Judging.{logout_judged};
ghost use Rattle.rp_answer.specs.Setup.{party_of, client_of};
ghost use Rattle.rp_accept.specs.Serving.{setup_of};

use client_registry::{Client, Party, Provider, Registry};
use login_request::login_request;
use logout_token::{LogoutClaims, LogoutNo, judge_logout};
use sso_base::{Moment, NoMemory, Text, Word};
use std::alloc::Global;
use std::marker::Model;

/// The setup of a relying party: a registry, the number of a party in it, and the provider that the party trusts.
#[derive(Drop)]
pub struct Setup {
    registry: Registry,
    number: u32,
    provider: Provider,
}

impl Model for Setup {
    ghost use Rattle.rp_answer.specs.Setup.{PartySetup};

    ghost Value = { PartySetup };

    ghost use Rattle.rp_accept.specs.Serving.{MayServe, setup_of};

    ghost view = { λ s. setup_of s.registry s.number s.provider };

    ghost invariant = { λ s. MayServe (setup_of s.registry s.number s.provider) };
}

impl Setup {
    /// The party with this number in the registry, which trusts this provider. The provider's issuer is the registry's.
    pub fn new(registry: Registry, number: u32, provider: Provider) -> Setup
        requires party { number < length registry.parties }
        requires issuer { provider.issuer ≡ registry.provider.issuer }
        ensures { result ≡ setup_of registry number provider }
    {
        Setup {
            registry,
            number,
            provider,
        }
    }

    /// The party.
    pub fn party(&self) -> &Party
        ensures { result.now ≡ party_of self.now }
    {
        self.registry.party(self.number)
    }

    /// The client of the party.
    pub(crate) fn client(&self) -> &Client
        ensures { result.now ≡ client_of self.now }
    {
        // The contract of `parties` states the invariant of every registry: the client of each of its parties exists.
        let _parties = self.registry.parties();
        self.registry.client(self.party().client)
    }

    /// The provider that the party trusts.
    pub(crate) fn provider(&self) -> &Provider
        ensures { result.now ≡ self.now.provider }
    {
        &self.provider
    }

    /// Verifies the claims of a logout token that the party received, at a moment (OpenID Connect Back-Channel Logout 1.0,
    /// 2.6).
    pub fn judge_logout(&self, claims: &LogoutClaims, at: Moment) -> Result<(), LogoutNo>
        ensures { result ≡ logout_judged self.now.provider.issuer (client_of self.now).id claims.now at }
    {
        judge_logout(&self.provider().issuer, &self.client().id, claims, at)
    }

    /// The location that begins a login with this state and nonce: an authorization request to the provider (OpenID Connect
    /// Core 1.0, 3.1.2.1).
    pub fn login_location(
        &self,
        alloc: Global,
        state: &Word,
        nonce: &Word,
    ) -> Result<Text, NoMemory>
        ensures { IfOk result (λ t. t ≡ login_location (client_of self.now) (party_of self.now) self.now.provider state.now nonce.now) }
    {
        // The contract of `parties` states the invariant of every registry: its issuer is short.
        let _parties = self.registry.parties();
        login_request(
            alloc,
            &self.registry,
            self.number,
            &self.provider,
            state,
            nonce,
        )
    }
}

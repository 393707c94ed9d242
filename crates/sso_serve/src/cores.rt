// The cores that are put together: the provider's with proof keys, refresh tokens and questions before a sign-out, and a relying party's
// with proof keys.

ghost use Rattle.std.specs.Prelude.{◌≡◌, ◌<◌, [], length, IfOk};
ghost use Rattle.rp_accept.specs.Serving.{setup_of};
ghost use Rattle.rp_login.specs.Tables.{no_tables};
ghost use Rattle.sso_serve.specs.Cores.{end_setup};

use client_registry::{Provider, Registry};
use end_request::Returns;
use op_core::OpCore;
use pkce_check::PkceCore;
use pkce_party::PkceParty;
use refresh_book::RefreshCore;
use rp_core::RpCore;
use rp_signout::SignoutCore;
use signout_answer::EndSetup;
use sso_base::NoMemory;
use std::alloc::Global;

// Proof keys around a provider that has an empty history. The core lasts if the provider does.
fn keys_around(alloc: Global, inner: OpCore, lasts: bool) -> PkceCore<OpCore>
    requires empty { inner.history ≡ [] }
    requires lasts { lasts ≡ inner.registry.lasting }
    ensures history { result.history ≡ [] }
    ensures inner { result.inner ≡ inner }
{
    PkceCore::new(alloc, inner, lasts)
}

// The provider of a registry with proof keys around it, with an empty history.
fn op_with_keys(alloc: Global, registry: Registry) -> Result<PkceCore<OpCore>, NoMemory>
    ensures history { IfOk result (λ c. c.history ≡ []) }
    ensures registry { IfOk result (λ c. c.inner.registry ≡ registry) }
{
    let lasts = registry.lasting();
    let inner = OpCore::new(alloc, registry)?;
    Ok(keys_around(alloc, inner, lasts))
}

// Refresh tokens around proof keys around a provider of this registry, with an empty history. The core lasts if the provider does.
fn tokens_around(
    alloc: Global,
    registry: Registry,
    inner: PkceCore<OpCore>,
    lasts: bool,
) -> RefreshCore<PkceCore<OpCore>>
    requires empty { inner.history ≡ [] }
    requires registry { registry ≡ inner.inner.registry }
    requires lasts { lasts ≡ inner.inner.registry.lasting }
    ensures history { result.history ≡ [] }
    ensures inner { result.inner ≡ inner }
    ensures registry { result.registry ≡ registry }
{
    RefreshCore::new(alloc, registry, inner, lasts)
}

// The provider of a registry with proof keys and refresh tokens around it, with an empty history.
fn op_with_tokens(
    alloc: Global,
    registry: &Registry,
) -> Result<RefreshCore<PkceCore<OpCore>>, NoMemory>
    ensures history { IfOk result (λ c. c.history ≡ []) }
    ensures registry { IfOk result (λ c. c.inner.inner.registry ≡ registry.now) }
    ensures own { IfOk result (λ c. c.registry ≡ registry.now) }
{
    let lasts = registry.lasting();
    let inner = op_with_keys(alloc, registry.copy(alloc)?)?;
    match registry.copy(alloc) {
        Ok(own) => Ok(tokens_around(alloc, own, inner, lasts)),
        Err(no) => {
            drop(inner);
            Err(no)
        }
    }
}

// Questions before a sign-out around a provider with proof keys and refresh tokens that has an empty history.
fn asks_around(
    alloc: Global,
    setup: EndSetup,
    inner: RefreshCore<PkceCore<OpCore>>,
) -> SignoutCore<RefreshCore<PkceCore<OpCore>>>
    requires empty { inner.history ≡ [] }
    requires registry { inner.inner.inner.registry ≡ setup.registry }
    ensures history { result.history ≡ [] }
    ensures setup { result.setup ≡ setup }
    ensures inner { result.inner ≡ inner }
{
    SignoutCore::new(alloc, setup, inner)
}

// The setup of the questions, with a copy of the registry.
fn setup_with(alloc: Global, registry: &Registry, returns: Returns) -> Result<EndSetup, NoMemory>
    ensures { IfOk result (λ e. e ≡ end_setup registry.now returns) }
{
    match registry.copy(alloc) {
        Ok(own) => Ok(EndSetup {
            registry: own,
            returns,
        }),
        Err(no) => {
            // dropped by a call: at an early return the prover would walk through all of its parts
            drop(returns);
            Err(no)
        }
    }
}

// The provider of a registry with proof keys and refresh tokens, and with these questions before a sign-out around them.
fn op_around(
    alloc: Global,
    setup: EndSetup,
) -> Result<SignoutCore<RefreshCore<PkceCore<OpCore>>>, NoMemory>
    ensures history { IfOk result (λ c. c.history ≡ []) }
    ensures setup { IfOk result (λ c. c.setup ≡ setup) }
    ensures registry { IfOk result (λ c. c.inner.inner.inner.registry ≡ setup.registry) }
    ensures own { IfOk result (λ c. c.inner.registry ≡ setup.registry) }
{
    match op_with_tokens(alloc, &setup.registry) {
        Ok(inner) => Ok(asks_around(alloc, setup, inner)),
        Err(no) => {
            drop(setup);
            Err(no)
        }
    }
}

/// The provider of a registry with proof keys and refresh tokens, and with questions before a sign-out around them, with an empty history.
/// Browsers may be sent to these URIs.
///
/// # Errors
///
/// `NoMemory` if memory ran out.
pub fn op_plus_core(
    alloc: Global,
    registry: &Registry,
    returns: Returns,
) -> Result<SignoutCore<RefreshCore<PkceCore<OpCore>>>, NoMemory>
    ensures history { IfOk result (λ c. c.history ≡ []) }
    ensures setup { IfOk result (λ c. c.setup ≡ end_setup registry.now returns) }
    ensures registry { IfOk result (λ c. c.inner.inner.inner.registry ≡ registry.now) }
    ensures own { IfOk result (λ c. c.inner.registry ≡ registry.now) }
{
    let setup = setup_with(alloc, registry, returns)?;
    op_around(alloc, setup)
}

// Proof keys around a relying party that has an empty history.
fn keys_within(alloc: Global, inner: RpCore) -> PkceParty
    requires { inner.history ≡ [] }
    ensures { result ≡ inner }
{
    PkceParty::new(alloc, inner)
}

/// A relying party of a registry with proof keys, with an empty history.
pub(crate) fn rp_with_keys(
    alloc: Global,
    registry: Registry,
    party: u32,
    provider: Provider,
) -> Result<PkceParty, NoMemory>
    requires party { party < length registry.parties }
    requires issuer { provider.issuer ≡ registry.provider.issuer }
    ensures { IfOk result (λ c. c ≡ record { setup = setup_of registry party provider; history = []; tables = no_tables }) }
{
    let inner = RpCore::new(alloc, registry, party, provider)?;
    Ok(keys_within(alloc, inner))
}

// Which client a token request authenticates (RFC 6749, 2.3.1; OpenID Connect Core 1.0, 9).

ghost use Rattle.std.specs.Prelude.{◌≡◌, ◌⊎◌, Ok, Err, IfOk, IfErr, option_map};
ghost use Rattle.client_registry.specs.Secrets as secrets;
ghost use Rattle.sso_base.specs.Texts as texts;
ghost use Rattle.token_endpoint.specs.Authentication as spec;

use crate::basic::{Credentials, basic_header, read_basic};
use crate::no::GrantNo;
use crate::parameters::first_repeated;
use client_registry::{Client, Registry};
use hmac256::same;
use request_params::{Pair, value_of};
use sso_base::{NoMemory, Text};
use std::alloc::Global;

// Whether a parameter of the name is there.
fn is_there(parameters: &[Pair], name: &str) -> bool
    ensures { result ≡ spec.is_there name.now parameters.now }
{
    value_of(parameters, name).is_some()
}

/// Whether a parameter is there, and is another text.
pub fn is_other(text: &str, given: Option<&Text>) -> bool
    ensures { result ≡ texts.is_other text.now (option_map (λ t. t.now) given.entry) }
{
    match given {
        Some(given) => !given.equals(text),
        None => false,
    }
}

fn is_old(shown: &[u8], old: &Option<Text>) -> bool
    ensures { result ≡ secrets.is_old shown.now old.now }
{
    match old {
        Some(old) => same(old.as_str().as_bytes(), shown),
        None => false,
    }
}

// Whether this is a secret of the client. Both secrets are always compared, and the time does not depend on where the texts
// differ.
fn is_secret_of(client: &Client, secret: &Text) -> bool
    ensures { result ≡ secrets.has_secret secret.now client.now }
{
    let shown = secret.as_str().as_bytes();
    let by_secret = same(client.secret.as_str().as_bytes(), shown);
    let by_old = is_old(shown, &client.old_secret);
    by_secret || by_old
}

// The number of the client that has this id and this secret, as its secret or its old one. For an id that no client has, the
// first client's secrets are compared.
#[tactic(auto, using(crate::proofs::Clients::place_within))]
fn client_with(registry: &Registry, id: &Text, secret: &Text) -> Option<u32>
    ensures { result ≡ spec.client_with registry.now (record { id = id.now; secret = secret.now }) }
{
    let found = registry.find_client(id.as_str().as_bytes());
    let compared = found.unwrap_or(0);
    if compared >= registry.clients() {
        return None;
    }
    if is_secret_of(registry.client(compared), secret) {
        found
    } else {
        None
    }
}

// The number of the client whose id and secret a `Basic` header shows, unless `client_id` names another.
fn by_basic(registry: &Registry, shown: &Credentials, named: Option<&Text>) -> Option<u32>
    ensures { result ≡ spec.unless_other registry.now (option_map (λ t. t.now) named.entry) shown.now }
{
    if is_other(shown.id.as_str(), named) {
        return None;
    }
    client_with(registry, &shown.id, &shown.secret)
}

// The number of the client whose id and secret the parameters show.
fn by_parameters(registry: &Registry, parameters: &[Pair]) -> Option<u32>
    ensures { result ≡ spec.client_shown registry.now None parameters.now }
{
    let id = value_of(parameters, "client_id")?;
    let secret = value_of(parameters, "client_secret")?;
    client_with(registry, id, secret)
}

// The number of the client whose id and secret a request shows.
fn client_shown(
    alloc: Global,
    registry: &Registry,
    basic: Option<&[u8]>,
    parameters: &[Pair],
) -> Result<Option<u32>, NoMemory>
    ensures { IfOk result (λ o. o ≡ spec.client_shown registry.now (option_map (λ h. h.now) basic.entry) parameters.now) }
{
    let Some(header) = basic else {
        return Ok(by_parameters(registry, parameters));
    };
    match read_basic(alloc, header)? {
        Some(shown) => Ok(by_basic(registry, &shown, value_of(parameters, "client_id"))),
        None => Ok(None),
    }
}

/// The number of the client that a request with these parameters authenticates. The refusals are [`GrantNo::Twice`],
/// [`GrantNo::TwoAuths`], [`GrantNo::NoAuth`] and [`GrantNo::WrongClient`], the first that fits.
#[tactic(auto, unfolding(crate::specs::Authentication::client_read))]
pub(crate) fn client_by(
    alloc: Global,
    registry: &Registry,
    auth: Option<&[u8]>,
    parameters: &[Pair],
) -> Result<u32, GrantNo>
    ensures ok { IfOk result (λ n. spec.client_read registry.now (option_map (λ h. h.now) auth.entry) parameters.now ≡ Ok n) }
    ensures err { IfErr result (λ e. (e ≡ GrantNo.NoMemory) ⊎ (spec.client_read registry.now (option_map (λ h. h.now) auth.entry) parameters.now ≡ Err e)) }
{
    if let Some(name) = first_repeated(alloc, parameters)? {
        return Err(GrantNo::Twice(name.copy(alloc)?));
    }
    let basic = basic_header(auth);
    let has_secret = is_there(parameters, "client_secret");
    if basic.is_some() && has_secret {
        return Err(GrantNo::TwoAuths);
    }
    if basic.is_none() && !(is_there(parameters, "client_id") && has_secret) {
        return Err(GrantNo::NoAuth);
    }
    match client_shown(alloc, registry, basic, parameters)? {
        Some(client) => Ok(client),
        None => Err(GrantNo::WrongClient),
    }
}

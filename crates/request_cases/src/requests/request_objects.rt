// Writes and reads request objects.

use crate::requests::parameters::params_of;
use case_lines::{claim_refusal, or_else, push_named, told, told_refusal};
use client_registry::{Client, Registry};
use jws_compact::{Typ, seal as seal_jws};
use request_object::{ObjNo, seal_request, unseal_request, written_len};
use request_params::{ALL_NAMES, Params};
use sso_base::{NoMemory, Text};
use std::alloc::Global;

// The client with this id.
fn client_of<'a>(registry: &'a Registry, id: &str) -> Option<&'a Client> {
    match registry.find_client(id.as_bytes()) {
        Some(place) if place < registry.clients() => Some(registry.client(place)),
        _ => None,
    }
}

// The parameters that are present, by name.
fn listed(alloc: Global, params: &Params) -> Result<String, NoMemory> {
    let mut list = String::new(alloc);
    for name in &ALL_NAMES {
        push_named(
            &mut list,
            name.as_str(),
            params.get(*name).as_ref().map(Text::as_str),
        )?;
    }
    or_else(list, "nothing")
}

// The name of a refusal, and a detail: the name of a claim, or of an inner refusal.
fn refusal(why: &ObjNo) -> (&str, &str) {
    match why {
        ObjNo::NoMemory => ("NoMemory", ""),
        ObjNo::Jws(why) => ("Jws", why.name()),
        ObjNo::Claims(why) => claim_refusal(why),
        ObjNo::Issuer => ("Issuer", ""),
        ObjNo::Audience => ("Audience", ""),
        ObjNo::Nested => ("Nested", ""),
    }
}

fn told_object(alloc: Global, answer: &Result<Params, ObjNo>) -> Result<String, NoMemory> {
    match answer {
        Ok(params) => listed(alloc, params),
        Err(why) => told_refusal(alloc, refusal(why)),
    }
}

fn read_as(
    alloc: Global,
    registry: &Registry,
    client: &Client,
    object: &str,
) -> Result<String, NoMemory> {
    let issuer = &registry.provider().issuer;
    let answer = unseal_request(alloc, client, issuer, object.as_bytes());
    told_object(alloc, &answer)
}

/// `unseal_request|CLIENT|OBJECT`: the parameters of a request object of a client, or why it is refused. The client is
/// `mail-client` if none is given.
pub fn unseal(
    alloc: Global,
    registry: &Registry,
    id: &str,
    object: &str,
) -> Result<String, NoMemory> {
    match client_of(registry, id) {
        Some(client) => read_as(alloc, registry, client, object),
        None => told(alloc, "no such client"),
    }
}

/// `object_under|SECRET|CLAIMS`: the claims are sealed under this secret, and the object is read for `mail-client`.
pub fn object_under(
    alloc: Global,
    registry: &Registry,
    secret: &str,
    claims: &str,
) -> Result<String, NoMemory> {
    if claims.len() > 6000 {
        return told(alloc, "not to be sealed");
    }
    let object = seal_jws(alloc, secret.as_bytes(), Typ::Jwt, claims.as_bytes())?;
    unseal(alloc, registry, "mail-client", object.as_str())
}

/// `object|CLIENT|CLAIMS`: the same under the secret of a client.
pub fn object(
    alloc: Global,
    registry: &Registry,
    id: &str,
    claims: &str,
) -> Result<String, NoMemory> {
    match client_of(registry, id) {
        Some(client) => object_under(alloc, registry, client.secret.as_str(), claims),
        None => told(alloc, "not to be sealed"),
    }
}

// The number of bytes of the claims of the object with these parameters, and the object. `None` if it must not be sealed.
fn sealed(
    alloc: Global,
    client: &Client,
    issuer: &Text,
    params: &Params,
) -> Result<Option<(usize, Text)>, NoMemory> {
    let length = written_len(alloc, client, issuer, params)?;
    let nested = params.request.is_some()
        || params.request_uri.is_some()
        || params.registration.is_some();
    if nested || length > 6000 {
        return Ok(None);
    }
    Ok(Some((length, seal_request(alloc, client, issuer, params)?)))
}

fn told_sealed(alloc: Global, sealed: &Option<(usize, Text)>) -> Result<String, NoMemory> {
    match sealed {
        Some((length, object)) => Ok(format!(in alloc; "{length} bytes: {}", object.as_str())?),
        None => told(alloc, "not to be sealed"),
    }
}

fn sealed_pairs(
    alloc: Global,
    client: &Client,
    issuer: &Text,
    pairs: &str,
) -> Result<String, NoMemory> {
    let params = params_of(alloc, pairs, " & ")?;
    let sealed = sealed(alloc, client, issuer, &params)?;
    told_sealed(alloc, &sealed)
}

/// `seal_request|CLIENT|NAME=VALUE & ..`: the number of bytes of the claims, and the request object of a client with these
/// parameters. The client is `mail-client` if none is given.
pub fn seal(alloc: Global, registry: &Registry, id: &str, pairs: &str) -> Result<String, NoMemory> {
    match client_of(registry, id) {
        Some(client) => sealed_pairs(alloc, client, &registry.provider().issuer, pairs),
        None => told(alloc, "no such client"),
    }
}

// Queries of the sample's registry.

use case_lines::{flagged, told, told_words};
use client_registry::{Client, Party, Registry, User};
use sso_base::{NoMemory, Text};
use std::alloc::Global;

/// `provider`: the path of the issuer, the address at which the provider listens, whether it is https, and its token endpoint.
pub fn provider(alloc: Global, registry: &Registry) -> Result<String, NoMemory> {
    let (prefix, listen) = (registry.prefix().as_str(), registry.listen().as_str());
    let (secure, token) = (registry.secure(), registry.provider().token.as_str());
    Ok(format!(in alloc;
        "path {prefix:?}, listens at {listen}, https {secure}, token endpoint {token}"
    )?)
}

fn place(registry: &Registry, kind: &str, name: &str) -> Option<u32> {
    match kind {
        "user" => registry.find_user(name.as_bytes()),
        "client" => registry.find_client(name.as_bytes()),
        "party" => registry.find_party(name.as_bytes()),
        _ => None,
    }
}

/// `find|KIND|NAME`: the number of the user or client with this id, or of the party with this name.
pub fn find(
    alloc: Global,
    registry: &Registry,
    kind: &str,
    name: &str,
) -> Result<String, NoMemory> {
    match place(registry, kind, name) {
        Some(place) => Ok(place.to_string(alloc)?),
        None => told(alloc, "-"),
    }
}

fn told_user(alloc: Global, user: &User) -> Result<String, NoMemory> {
    let (id, rounds) = (user.id.as_str(), user.rounds);
    let claims = std::str::from_utf8(user.claims.as_bytes()).unwrap_or("no text");
    Ok(format!(in alloc; "{id}, rounds {rounds}, claims {claims}")?)
}

// The response types of a client.
fn types(alloc: Global, types: &[bool; 6]) -> Result<String, NoMemory> {
    flagged(
        alloc,
        &[
            (types[0], r#""code""#),
            (types[1], r#""id_token""#),
            (types[2], r#""id_token token""#),
            (types[3], r#""code id_token""#),
            (types[4], r#""code token""#),
            (types[5], r#""code id_token token""#),
        ],
        " ",
        "-",
    )
}

fn told_client(alloc: Global, client: &Client) -> Result<String, NoMemory> {
    let (id, logout) = (client.id.as_str(), client.logout.as_ref());
    let redirects = told_words(alloc, &client.redirects)?;
    let types = types(alloc, &client.types)?;
    let logout = logout.map_or("-", Text::as_str);
    let flags = flagged(
        alloc,
        &[
            (client.pairwise, "pairwise"),
            (client.asks_consent, "asks_consent"),
            (client.logout_session, "logout_session"),
        ],
        " ",
        "-",
    )?;
    Ok(format!(in alloc; "{id} at {redirects}, types {types}, logout at {logout}, flags {flags}")?)
}

fn told_party(alloc: Global, party: &Party) -> Result<String, NoMemory> {
    let (name, client) = (party.name.as_str(), party.client);
    let (redirect, scope) = (party.redirect.as_str(), party.scope.as_str());
    let types = &party.types;
    let words = flagged(
        alloc,
        &[
            (types.code, "code"),
            (types.id_token, "id_token"),
            (types.token, "token"),
            (party.userinfo, "userinfo"),
            (party.signed, "signed"),
        ],
        " ",
        "-",
    )?;
    Ok(format!(in alloc; "{name} of client {client} at {redirect}, {words}, scope {scope}")?)
}

fn told_row(
    alloc: Global,
    registry: &Registry,
    kind: &str,
    number: u32,
) -> Result<String, NoMemory> {
    match kind {
        "user" if number < registry.users() => told_user(alloc, registry.user(number)),
        "client" if number < registry.clients() => told_client(alloc, registry.client(number)),
        "party" if number < registry.parties() => told_party(alloc, registry.party(number)),
        _ => told(alloc, "no such row"),
    }
}

/// `row|KIND|NUMBER`: the row with this number, in a copy of the registry.
pub fn row(
    alloc: Global,
    registry: &Registry,
    kind: &str,
    number: &str,
) -> Result<String, NoMemory> {
    let number = number.parse::<u32>().unwrap_or(u32::MAX);
    let copied = registry.copy(alloc)?;
    told_row(alloc, &copied, kind, number)
}

/// `subject|CLIENT|USER`: the subject of the user at the client, by their ids.
pub fn subject(
    alloc: Global,
    registry: &Registry,
    client: &str,
    user: &str,
) -> Result<String, NoMemory> {
    let client = registry.find_client(client.as_bytes()).unwrap_or(u32::MAX);
    let user = registry.find_user(user.as_bytes()).unwrap_or(u32::MAX);
    if client < registry.clients() && user < registry.users() {
        told(alloc, registry.subject(client, user).as_str())
    } else {
        told(alloc, "no such client or user")
    }
}

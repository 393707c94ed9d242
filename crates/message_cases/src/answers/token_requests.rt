// Reads and writes token requests.

use crate::answers::messages::told_message;
use case_lines::{given, told, told_refusal};
use client_registry::{Client, Registry};
use sso_base::{Message, NoMemory, Text};
use std::alloc::Global;
use token_endpoint::{Grant, GrantNo, print_grant, read_grant, token_error};

// The client with this id.
fn client_of<'a>(registry: &'a Registry, id: &str) -> Option<&'a Client> {
    match registry.find_client(id.as_bytes()) {
        Some(place) if place < registry.clients() => Some(registry.client(place)),
        _ => None,
    }
}

// The name of a refusal, and the parameter that it names.
fn refusal(why: &GrantNo) -> (&str, &str) {
    match why {
        GrantNo::BadForm => ("BadForm", ""),
        GrantNo::Twice(name) => ("Twice", name.as_str()),
        GrantNo::TwoAuths => ("TwoAuths", ""),
        GrantNo::NoAuth => ("NoAuth", ""),
        GrantNo::WrongClient => ("WrongClient", ""),
        GrantNo::OtherGrant => ("OtherGrant", ""),
        GrantNo::Missing(name) => ("Missing", name.as_str()),
        GrantNo::NoMemory => ("NoMemory", ""),
    }
}

// The error code of a refusal, if it has one.
fn error_of(why: &GrantNo) -> &'static str {
    match why {
        GrantNo::NoMemory => "",
        why => token_error(why).as_str(),
    }
}

// The id of the client with this number.
fn id_of(registry: &Registry, place: u32) -> &str {
    if place < registry.clients() {
        registry.client(place).id.as_str()
    } else {
        "no client"
    }
}

fn told_grant(
    alloc: Global,
    registry: &Registry,
    answer: &Result<Grant, GrantNo>,
) -> Result<String, NoMemory> {
    match answer {
        Ok(grant) => {
            let id = id_of(registry, grant.client);
            let (code, redirect) = (grant.code.as_str(), grant.redirect.as_str());
            Ok(format!(in alloc; "{id}, code {code:?}, to {redirect:?}")?)
        }
        Err(why) => {
            let refusal = told_refusal(alloc, refusal(why))?;
            let code = error_of(why);
            Ok(format!(in alloc; "{refusal}, {code}")?)
        }
    }
}

/// `read_grant|AUTHORIZATION|BODY`: the client, the code and the redirect URI, or why the request is refused and the error code
/// of the answer.
pub fn read(
    alloc: Global,
    registry: &Registry,
    auth: &str,
    body: &str,
) -> Result<String, NoMemory> {
    let (auth, body) = (given(auth), given(body));
    let answer = read_grant(
        alloc,
        registry,
        auth.map(str::as_bytes),
        body.map(str::as_bytes),
    );
    told_grant(alloc, registry, &answer)
}

fn request(
    alloc: Global,
    client: &Client,
    endpoint: &Text,
    code: &str,
    redirect: &str,
) -> Result<Message, NoMemory> {
    let code = Text::new(alloc, code)?;
    let redirect = Text::new(alloc, redirect)?;
    print_grant(alloc, client, endpoint, &code, &redirect)
}

/// `print_grant|CLIENT|CODE|REDIRECT`: the client's request, as its endpoint, its header and its body.
pub fn print(
    alloc: Global,
    registry: &Registry,
    id: &str,
    code: &str,
    redirect: &str,
) -> Result<String, NoMemory> {
    match client_of(registry, id) {
        Some(client) => {
            let endpoint = &registry.provider().token;
            let asked = request(alloc, client, endpoint, code, redirect)?;
            told_message(alloc, &asked)
        }
        None => told(alloc, "no such client"),
    }
}

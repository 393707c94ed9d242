// The claims about a user, the header of a UserInfo request, and its answer.

use crate::answers::messages::told_message;
use case_lines::{
    bytes, claim_refusal, given, given_texts, scopes, told, told_bytes, told_hex, told_refusal,
};
use claim_set::{ClaimSet, write_claims};
use client_registry::Registry;
use sso_base::{Answered, Blob, NoMemory, Text};
use std::alloc::{AllocError, Global};
use userinfo::{Bearer, InfoNo, held_claims, info_claims, print_info, read_bearer, read_info};

fn told_claims(alloc: Global, claims: &ClaimSet) -> Result<String, NoMemory> {
    let body = write_claims(claims)?;
    told_bytes(alloc, body.as_bytes())
}

// The number of the user with this id.
fn user_place(registry: &Registry, id: &str) -> u32 {
    registry.find_user(id.as_bytes()).unwrap_or(u32::MAX)
}

// The number of the client with this id.
fn client_place(registry: &Registry, id: &str) -> u32 {
    registry.find_client(id.as_bytes()).unwrap_or(u32::MAX)
}

/// `info_claims|CLIENT|USER|SCOPES|ASKED`: the claims that UserInfo returns to a client about a user, for scope values and for
/// the claims that are requested by name.
pub fn info(
    alloc: Global,
    registry: &Registry,
    (client, user): (&str, &str),
    values: &str,
    asked: &str,
) -> Result<String, NoMemory> {
    let client = client_place(registry, client);
    let user = user_place(registry, user);
    if registry.clients() <= client || registry.users() <= user {
        return told(alloc, "no such client or user");
    }
    let asked = given_texts(alloc, asked, ' ')?;
    let scopes = scopes(alloc, values)?;
    let claims = info_claims(alloc, registry, client, user, &scopes, &asked)?;
    told_claims(alloc, &claims)
}

/// `held_claims|USER|SCOPES|ASKED`: the user's claims that are requested.
pub fn held(
    alloc: Global,
    registry: &Registry,
    user: &str,
    values: &str,
    asked: &str,
) -> Result<String, NoMemory> {
    let user = user_place(registry, user);
    if registry.users() <= user {
        return told(alloc, "no such user");
    }
    let asked = given_texts(alloc, asked, ' ')?;
    let scopes = scopes(alloc, values)?;
    let claims = held_claims(alloc, registry, user, &scopes, &asked)?;
    told_claims(alloc, &claims)
}

fn bearer_in(header: Option<&str>, alloc: Global) -> Result<Bearer, AllocError> {
    match header {
        Some(field) => Ok(read_bearer(Some(bytes(alloc, field)?.as_slice()))),
        None => Ok(read_bearer(None)),
    }
}

/// `read_bearer|HEADER`: the word that an `Authorization` header presents, in hex.
pub fn bearer(alloc: Global, header: &str) -> Result<String, NoMemory> {
    match bearer_in(given(header), alloc)? {
        Bearer::Absent => told(alloc, "Absent"),
        Bearer::Unreadable => told(alloc, "Unreadable"),
        Bearer::Given(word) => told_hex(alloc, &word.bytes()),
    }
}

/// `print_info|ENDPOINT|ACCESS`: the request with an access token, as its endpoint, its header and its body.
pub fn print(alloc: Global, endpoint: &str, access: &str) -> Result<String, NoMemory> {
    let endpoint = Text::new(alloc, endpoint)?;
    let access = Text::new(alloc, access)?;
    let asked = print_info(alloc, &endpoint, &access)?;
    told_message(alloc, &asked)
}

// The name of a refusal, and the claim that it names.
fn refusal(why: &InfoNo) -> (&str, &str) {
    match why {
        InfoNo::NoMemory => ("NoMemory", ""),
        InfoNo::Status(_) => ("Status", ""),
        InfoNo::Claims(why) => claim_refusal(why),
        InfoNo::NoSub => ("NoSub", ""),
    }
}

fn told_subject(alloc: Global, answer: &Result<Text, InfoNo>) -> Result<String, NoMemory> {
    match answer {
        Ok(sub) => Ok(format!(in alloc; "subject {:?}", sub.as_str())?),
        Err(InfoNo::Status(status)) => Ok(format!(in alloc; "Status {status}")?),
        Err(why) => told_refusal(alloc, refusal(why)),
    }
}

fn read_answer(alloc: Global, status: u16, body: Blob) -> Result<String, NoMemory> {
    let answer = read_info(alloc, &Answered { status, body });
    told_subject(alloc, &answer)
}

/// `read_info|STATUS|BODY`: the subject in an answer, or why it is refused.
pub fn read(alloc: Global, status: &str, body: &str) -> Result<String, NoMemory> {
    match status.parse::<u16>() {
        Ok(status) => read_answer(alloc, status, Blob::from_vec(bytes(alloc, body)?)),
        Err(_) => told(alloc, "no status"),
    }
}

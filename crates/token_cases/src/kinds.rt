// Each kind of sealed text, read as another. All are sealed under the secret of the client `c`.

use crate::ids::told_subject;
use crate::keys::client_with;
use crate::sealed::sealed_under;
use crate::{ids, logouts};
use case_lines::told;
use client_registry::Client;
use id_token::{check_id, read_id};
use jws_compact::Typ;
use logout_token::read_logout;
use request_object::{ObjNo, unseal_request};
use request_params::Params;
use sso_base::{NoMemory, Text};
use std::alloc::Global;

/// The answer of a call of this module; none if the call is another module's.
pub fn answer(alloc: Global, fields: &[&str]) -> Option<Result<String, NoMemory>> {
    match fields {
        ["read as", reader, kind] => Some(read_as(alloc, reader, kind)),
        _ => None,
    }
}

// A request object of the client for the provider `i` (OpenID Connect Core 1.0, 6.1).
const REQUEST: &str =
    r#"{"aud":"i","client_id":"c","iss":"c","nonce":"n","redirect_uri":"http://127.0.0.1:8081/cb","response_type":"id_token","scope":"openid","state":"s"}"#;

fn text_alone(sealed: Option<(usize, Text)>) -> Option<Text> {
    match sealed {
        Some((_, text)) => Some(text),
        None => None,
    }
}

// A sealed text of this kind, which the provider `i`, or the client itself, issued for alice's login.
fn sealed_text(alloc: Global, kind: &str) -> Result<Option<Text>, NoMemory> {
    match kind {
        "an ID Token of i" => {
            Ok(text_alone(ids::seal_parts(alloc, "secret", "i", "alice", "g", "-")?))
        }
        "an ID Token of c" => {
            Ok(text_alone(ids::seal_parts(alloc, "secret", "c", "alice", "g", "-")?))
        }
        "a logout token of i" => {
            Ok(text_alone(logouts::seal_parts(alloc, "secret", "i", "c", "alice", "g")?))
        }
        "a request object of c" => sealed_under(alloc, Typ::Jwt, "secret", REQUEST.as_bytes()),
        _ => Ok(None),
    }
}

fn as_good_id_token(alloc: Global, text: &[u8]) -> Result<String, NoMemory> {
    let rules = ids::plain_rules(alloc)?;
    let answer = check_id(alloc, &rules, b"secret", text, rules.begun);
    told_subject(alloc, &answer)
}

fn as_id_token(alloc: Global, text: &[u8]) -> Result<String, NoMemory> {
    let answer = read_id(alloc, b"secret", text);
    told_subject(alloc, &answer)
}

fn as_logout_token(alloc: Global, text: &[u8]) -> Result<String, NoMemory> {
    let answer = read_logout(alloc, b"secret", text);
    logouts::told_read(alloc, &answer)
}

fn told_request(alloc: Global, answer: &Result<Params, ObjNo>) -> Result<String, NoMemory> {
    match answer {
        Ok(_) => told(alloc, "good"),
        Err(ObjNo::Issuer) => told(alloc, "Issuer"),
        Err(ObjNo::Audience) => told(alloc, "Audience"),
        Err(_) => told(alloc, "refused for another reason"),
    }
}

fn unsealed(
    alloc: Global,
    client: &Client,
    issuer: &Text,
    text: &[u8],
) -> Result<String, NoMemory> {
    let answer = unseal_request(alloc, client, issuer, text);
    told_request(alloc, &answer)
}

fn unsealed_by(alloc: Global, client: &Client, text: &[u8]) -> Result<String, NoMemory> {
    let issuer = Text::new(alloc, "i")?;
    unsealed(alloc, client, &issuer, text)
}

fn as_request_object(alloc: Global, text: &[u8]) -> Result<String, NoMemory> {
    let client = client_with(alloc, "secret", "-")?;
    unsealed_by(alloc, &client, text)
}

fn read_text(alloc: Global, reader: &str, text: &[u8]) -> Result<String, NoMemory> {
    match reader {
        "a good ID Token" => as_good_id_token(alloc, text),
        "an ID Token" => as_id_token(alloc, text),
        "a logout token" => as_logout_token(alloc, text),
        "a request object" => as_request_object(alloc, text),
        _ => told(alloc, "no such reader"),
    }
}

// `read as|KIND|KIND`: the result of reading the second, sealed, as the first at 1000.
fn read_as(alloc: Global, reader: &str, kind: &str) -> Result<String, NoMemory> {
    match sealed_text(alloc, kind)? {
        Some(text) => read_text(alloc, reader, text.as_str().as_bytes()),
        None => told(alloc, "no such text"),
    }
}

// Texts that are sealed and unsealed.

use case_lines::{as_text, bytes, told, told_text};
use jws_compact::{JwsNo, Typ, Unsealed, seal, unseal};
use sso_base::{NoMemory, Text};
use std::alloc::Global;

/// The answer of a call of this module; none if the call is another module's.
pub fn answer(alloc: Global, fields: &[&str]) -> Option<Result<String, NoMemory>> {
    match fields {
        ["seal", typ, key, payload] => Some(sealed(alloc, typ, key, payload)),
        ["unseal", key, text] => Some(unsealed(alloc, key, text)),
        ["seal and unseal", key, payload] => Some(sealed_and_unsealed(alloc, key, payload)),
        _ => None,
    }
}

fn typ_named(name: &str) -> Option<Typ> {
    match name {
        "JWT" => Some(Typ::Jwt),
        "logout+jwt" => Some(Typ::LogoutJwt),
        _ => None,
    }
}

/// The payload, sealed under the key. `None` if it is too long.
pub fn sealed_under(
    alloc: Global,
    typ: Typ,
    key: &str,
    payload: &[u8],
) -> Result<Option<Text>, NoMemory> {
    if payload.len() > 6000 {
        return Ok(None);
    }
    Ok(Some(seal(alloc, key.as_bytes(), typ, payload)?))
}

fn told_sealed(alloc: Global, sealed: &Option<Text>) -> Result<String, NoMemory> {
    match sealed {
        Some(text) => told(alloc, text.as_str()),
        None => told(alloc, "not to be sealed"),
    }
}

// `seal|TYP|KEY|PAYLOAD`: the payload, sealed under the key.
fn sealed(alloc: Global, typ: &str, key: &str, payload: &str) -> Result<String, NoMemory> {
    let payload = bytes(alloc, payload)?;
    match typ_named(typ) {
        Some(typ) => told_sealed(alloc, &sealed_under(alloc, typ, key, payload.as_slice())?),
        None => told(alloc, "not to be sealed"),
    }
}

/// The contents of a sealed text, or why there are none.
pub fn told_unsealed(alloc: Global, answer: &Result<Unsealed, JwsNo>) -> Result<String, NoMemory> {
    match answer {
        Ok(unsealed) => {
            let typ = told_text(alloc, &unsealed.typ)?;
            let payload = as_text(unsealed.payload.as_bytes());
            Ok(format!(in alloc; "typ {typ}, payload {payload:?}")?)
        }
        Err(why) => told(alloc, why.name()),
    }
}

// `unseal|KEY|TEXT`: the kind and the payload of the sealed text.
fn unsealed(alloc: Global, key: &str, text: &str) -> Result<String, NoMemory> {
    let (key, text) = (bytes(alloc, key)?, bytes(alloc, text)?);
    let answer = unseal(alloc, key.as_slice(), text.as_slice());
    told_unsealed(alloc, &answer)
}

// Whether the payload is read.
fn is_read(answer: &Result<Unsealed, JwsNo>, payload: &[u8]) -> bool {
    match answer {
        Ok(unsealed) => unsealed.payload.as_bytes() == payload,
        Err(_) => false,
    }
}

fn told_back(alloc: Global, key: &str, text: &Text, payload: &[u8]) -> Result<String, NoMemory> {
    let answer = unseal(alloc, key.as_bytes(), text.as_str().as_bytes());
    let back = if is_read(&answer, payload) {
        "the payload"
    } else {
        "something else"
    };
    Ok(format!(in alloc; "{} characters, read as {back}", text.as_str().len())?)
}

// `seal and unseal|KEY|PAYLOAD`: the length of the sealed text, and whether the payload is read from it.
fn sealed_and_unsealed(alloc: Global, key: &str, payload: &str) -> Result<String, NoMemory> {
    let payload = bytes(alloc, payload)?;
    if payload.len() > 6000 {
        return told(alloc, "not to be sealed");
    }
    let text = seal(alloc, key.as_bytes(), Typ::Jwt, payload.as_slice())?;
    told_back(alloc, key, &text, payload.as_slice())
}

// Reads requests, and answers of a provider, from the fields of a case.

use crate::fields::{field, given, given_text, number, word_in};
use sso_base::{Answered, Ask, Blob, Method, NoMemory, Text};
use std::alloc::Global;

fn method(name: &str) -> Method {
    match name {
        "GET" => Method::Get,
        "POST" => Method::Post,
        _ => Method::Other,
    }
}

fn body(alloc: Global, field: &str) -> Result<Option<Blob>, NoMemory> {
    match given(field) {
        Some(body) => Ok(Some(Blob::new(alloc, body.as_bytes())?)),
        None => Ok(None),
    }
}

/// The request `METHOD|TARGET|BODY|BROWSER|SESSION|AUTHORIZATION`. The cookies of the browser and of the session are texts of
/// words. A missing field is the same as `-`.
pub fn request(alloc: Global, fields: &[&str]) -> Result<Ask, NoMemory> {
    let target = field(fields, 1);
    let (path, query) = target.split_once('?').unwrap_or((target, ""));
    Ok(Ask {
        method: method(field(fields, 0)),
        path: Text::new(alloc, path)?,
        query: Blob::new(alloc, query.as_bytes())?,
        body: body(alloc, field(fields, 2))?,
        first: word_in(field(fields, 3)),
        second: word_in(field(fields, 4)),
        auth: given_text(alloc, field(fields, 5))?,
    })
}

/// The answer `STATUS|BODY` of a provider's endpoint to a request of a relying party.
pub fn answered(alloc: Global, fields: &[&str]) -> Result<Answered, NoMemory> {
    Ok(Answered {
        status: u16::try_from(number(field(fields, 0))).unwrap_or(0),
        body: Blob::new(alloc, field(fields, 1).as_bytes())?,
    })
}

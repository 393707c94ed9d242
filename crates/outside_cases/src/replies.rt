// Writes replies and messages.

use crate::requests::refusal_name;
use case_lines::{
    as_text, field, given, given_text, given_texts, number, push_field, told, told_quoted,
};
use sso_base::{Blob, HttpReply, Kind, Message, NoMemory, Text};
use sso_http::{HttpNo, message_place, print_http_no, print_message, print_reply};
use std::alloc::Global;

fn kind(name: &str) -> Kind {
    match name {
        "plain" => Kind::Plain,
        "html" => Kind::Html,
        "json" => Kind::Json,
        _ => Kind::Empty,
    }
}

// The reply `reply|STATUS|PRAGMA|LOCATION|COOKIES|CHALLENGE|KIND|BODY`.
fn reply_in(alloc: Global, fields: &[&str]) -> Result<HttpReply, NoMemory> {
    Ok(HttpReply {
        status: u16::try_from(number(field(fields, 1))).unwrap_or(0),
        pragma: field(fields, 2) == "pragma",
        location: given_text(alloc, field(fields, 3))?,
        cookies: given_texts(alloc, field(fields, 4), ',')?,
        challenge: given_text(alloc, field(fields, 5))?,
        kind: kind(field(fields, 6)),
        body: Blob::new(alloc, given(field(fields, 7)).unwrap_or("").as_bytes())?,
    })
}

/// `reply|STATUS|PRAGMA|LOCATION|COOKIES|CHALLENGE|KIND|BODY`: the bytes of the reply with these values. Cookies are separated
/// by commas, PRAGMA is `pragma` or `-`, and KIND is `plain`, `html`, `json` or `-`.
pub fn reply(alloc: Global, fields: &[&str]) -> Result<String, NoMemory> {
    let reply = reply_in(alloc, fields)?;
    let bytes = print_reply(alloc, &reply)?;
    told_quoted(alloc, as_text(bytes.as_bytes()))
}

fn refusal_named(name: &str) -> Option<HttpNo> {
    let all = [
        HttpNo::ReadFault,
        HttpNo::EndedEarly,
        HttpNo::HeadTooLong,
        HttpNo::BadHead,
        HttpNo::Transfer,
        HttpNo::NoLength,
        HttpNo::BodyTooLong,
        HttpNo::BadTarget,
        HttpNo::CookieTwice,
    ];
    for why in all {
        if refusal_name(why) == name {
            return Some(why);
        }
    }
    None
}

fn told_bytes_if(alloc: Global, bytes: &Option<Blob>) -> Result<String, NoMemory> {
    match bytes {
        Some(bytes) => told_quoted(alloc, as_text(bytes.as_bytes())),
        None => told(alloc, "-"),
    }
}

/// `refusal|NAME`: the bytes of the reply to a request with this refusal, or `-` if none is written.
pub fn refusal(alloc: Global, name: &str) -> Result<String, NoMemory> {
    match refusal_named(name) {
        Some(why) if why != HttpNo::NoMemory => {
            told_bytes_if(alloc, &print_http_no(alloc, &why)?)
        }
        _ => told(alloc, "no such refusal"),
    }
}

fn message_in(alloc: Global, to: &str, auth: &str, body: &str) -> Result<Message, NoMemory> {
    let body = match given(body) {
        Some(body) => Some(Blob::new(alloc, body.as_bytes())?),
        None => None,
    };
    Ok(Message {
        to: Text::new(alloc, to)?,
        auth: given_text(alloc, auth)?,
        body,
    })
}

/// `message|TO|AUTH|BODY`: the recipient of this message, and its bytes.
pub fn message(alloc: Global, to: &str, auth: &str, body: &str) -> Result<String, NoMemory> {
    let message = message_in(alloc, to, auth, body)?;
    let place = message_place(alloc, &message)?;
    let bytes = print_message(alloc, &message)?;
    let mut out = told(alloc, place.as_str())?;
    let text = told_quoted(alloc, as_text(bytes.as_bytes()))?;
    push_field(&mut out, "", text.as_str())?;
    Ok(out)
}

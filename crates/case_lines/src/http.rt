// A reply in HTTP as a text: its status, its fields and its body, with ` / ` between.

use crate::fields::as_text;
use sso_base::{Blob, HttpReply, Kind, Message, NoMemory, Text, Texts};
use std::alloc::{AllocError, Global};

/// Adds a part behind ` / `.
pub fn push_field(out: &mut String, name: &str, value: &str) -> Result<(), AllocError> {
    out.push_str(" / ")?;
    out.push_str(name)?;
    out.push_str(value)
}

fn push_if(out: &mut String, name: &str, value: &Option<Text>) -> Result<(), AllocError> {
    match value {
        Some(value) => push_field(out, name, value.as_str()),
        None => Ok(()),
    }
}

fn push_cookies(out: &mut String, cookies: &Texts) -> Result<(), AllocError> {
    for place in 0..cookies.count() {
        push_field(out, "Set-Cookie: ", cookies.at(place))?;
    }
    Ok(())
}

fn push_kind(out: &mut String, kind: Kind) -> Result<(), AllocError> {
    match kind {
        Kind::Empty => Ok(()),
        Kind::Plain => push_field(out, "Content-Type: ", "text/plain; charset=utf-8"),
        Kind::Html => push_field(out, "Content-Type: ", "text/html; charset=utf-8"),
        Kind::Json => push_field(out, "Content-Type: ", "application/json"),
    }
}

fn push_body(alloc: Global, out: &mut String, body: &[u8]) -> Result<(), AllocError> {
    let text = as_text(body).replace(alloc, "\n", "\\n")?;
    push_field(out, "", text.as_str())
}

/// Adds the status, the fields and the body of a reply. A line feed in the body is written as `\n`. For an empty body this text
/// is added, if there is one.
pub fn push_http(
    alloc: Global,
    out: &mut String,
    http: &HttpReply,
    no_body: Option<&str>,
) -> Result<(), NoMemory> {
    push_field(out, "", http.status.to_string(alloc)?.as_str())?;
    if http.pragma {
        push_field(out, "Pragma: ", "no-cache")?;
    }
    push_if(out, "Location: ", &http.location)?;
    push_cookies(out, &http.cookies)?;
    push_if(out, "WWW-Authenticate: ", &http.challenge)?;
    push_kind(out, http.kind)?;
    if !http.body.as_bytes().is_empty() {
        push_body(alloc, out, http.body.as_bytes())?;
    } else if let Some(text) = no_body {
        push_field(out, text, "")?;
    }
    Ok(())
}

fn push_form(alloc: Global, out: &mut String, body: &Option<Blob>) -> Result<(), AllocError> {
    match body {
        Some(body) => push_body(alloc, out, body.as_bytes()),
        None => Ok(()),
    }
}

/// Adds the method, the URL, the fields and the form of a message.
pub fn push_message(alloc: Global, out: &mut String, message: &Message) -> Result<(), AllocError> {
    let method = if message.body.is_some() {
        "POST "
    } else {
        "GET "
    };
    push_field(out, method, message.to.as_str())?;
    push_if(out, "Authorization: ", &message.auth)?;
    push_form(alloc, out, &message.body)
}

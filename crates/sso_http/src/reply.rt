// Replies are printed.

ghost use Rattle.std.specs.Prelude.{◌≡◌, ◌++◌, decimal, string_bytes, option_copied, IfOk, OnOk};
ghost use Rattle.sso_http.specs.Replies as spec;

use crate::lines::{
    put_all, put_field, put_field_if, put_last, put_no_store, put_number, with_body,
};
use sso_base::{Blob, HttpReply, Kind, NoMemory, Texts};
use std::alloc::Global;

// The reason of a status (RFC 9110, 15).
#[tactic(auto, unfolding(crate::specs::Replies::reason))]
fn reason(status: u16) -> &'static str
    ensures { result.now ≡ spec.reason status }
{
    match status {
        200 => "OK",
        303 => "See Other",
        400 => "Bad Request",
        401 => "Unauthorized",
        404 => "Not Found",
        411 => "Length Required",
        413 => "Content Too Large",
        431 => "Request Header Fields Too Large",
        501 => "Not Implemented",
        502 => "Bad Gateway",
        503 => "Service Unavailable",
        _ => "Other",
    }
}

#[tactic(auto, unfolding(crate::specs::Replies::status_line))]
fn put_status(alloc: Global, out: &mut String, status: u16) -> Result<(), NoMemory>
    ensures { OnOk result (string_bytes out.new ≡ string_bytes out.old ++ spec.status_line status) }
{
    let number = status.to_string(alloc)?;
    put_all(out, &["HTTP/1.1 ", &number, " ", reason(status), "\r\n"])
}

fn put_pragma(out: &mut String, pragma: bool) -> Result<(), NoMemory>
    ensures { OnOk result (string_bytes out.new ≡ string_bytes out.old ++ spec.pragma_line pragma) }
{
    if pragma {
        put_field(out, "Pragma", "no-cache")
    } else {
        Ok(())
    }
}

fn put_start(alloc: Global, out: &mut String, reply: &HttpReply) -> Result<(), NoMemory>
    ensures { OnOk result (string_bytes out.new ≡ string_bytes out.old ++ spec.start_lines reply.now) }
{
    put_status(alloc, out, reply.status)?;
    put_no_store(out)?;
    put_pragma(out, reply.pragma)
}

fn put_cookies(out: &mut String, cookies: &Texts) -> Result<(), NoMemory>
    ensures { OnOk result (string_bytes out.new ≡ string_bytes out.old ++ spec.cookie_lines cookies.now) }
{
    for i in 0..cookies.count() {
        put_field(out, "Set-Cookie", cookies.at(i))?;
    }
    Ok(())
}

fn put_answer(out: &mut String, reply: &HttpReply) -> Result<(), NoMemory>
    ensures { OnOk result (string_bytes out.new ≡ string_bytes out.old ++ spec.answer_lines reply.now) }
{
    put_field_if(out, "Location", &reply.location)?;
    put_cookies(out, &reply.cookies)?;
    put_field_if(out, "WWW-Authenticate", &reply.challenge)
}

// The media type of a body.
fn type_of(kind: Kind) -> Option<&'static str>
    ensures { option_copied result ≡ spec.type_of kind }
{
    match kind {
        Kind::Empty => None,
        Kind::Plain => Some("text/plain; charset=utf-8"),
        Kind::Html => Some("text/html; charset=utf-8"),
        Kind::Json => Some("application/json"),
    }
}

fn put_type(out: &mut String, kind: Kind, body: &[u8]) -> Result<(), NoMemory>
    ensures { OnOk result (string_bytes out.new ≡ string_bytes out.old ++ spec.type_line kind body.now) }
{
    if body.is_empty() {
        return Ok(());
    }
    match type_of(kind) {
        Some(name) => put_field(out, "Content-Type", name),
        None => Ok(()),
    }
}

fn put_body(alloc: Global, out: &mut String, reply: &HttpReply) -> Result<(), NoMemory>
    ensures { OnOk result (string_bytes out.new ≡ string_bytes out.old ++ spec.body_lines reply.now) }
{
    let body = reply.body.as_bytes();
    put_type(out, reply.kind, body)?;
    put_number(alloc, out, "Content-Length", body.len())?;
    put_last(out)
}

/// The bytes of a reply (RFC 9112, 4 to 6): the status line, the fields that apply, and the body. The type of the body is named
/// if the body is not empty. Every reply says that nobody keeps it (RFC 9111, 5.2.2.5) and that the connection ends (RFC 9110,
/// 7.6.1).
///
/// Texts are written as they are: whoever makes a reply keeps line ends out of them.
#[tactic(auto, unfolding(crate::specs::Replies::reply_bytes))]
pub fn print_reply(alloc: Global, reply: &HttpReply) -> Result<Blob, NoMemory>
    ensures { IfOk result (λ b. b ≡ spec.reply_bytes reply.now) }
{
    let mut head = String::new(alloc);
    put_start(alloc, &mut head, reply)?;
    put_answer(&mut head, reply)?;
    put_body(alloc, &mut head, reply)?;
    with_body(alloc, &head, reply.body.as_bytes())
}

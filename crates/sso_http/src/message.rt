// Prints messages from one server to another.

ghost use Rattle.std.specs.Prelude.{◌≡◌, ◌++◌, [], ◌∷◌, codes, string_bytes, option_copied, unwrap_or, IfOk, OnOk};
ghost use Rattle.std.specs.Str.{bytes_eq};
ghost use Rattle.std.specs.List.{concat};
ghost use Rattle.sso_http.specs.Messages as spec;
ghost use Rattle.sso_http.specs.Writing.{line_end};

use crate::lines::{
    put_all, put_field, put_field_if, put_form_type, put_last, put_number, with_body,
};
use http_reply::joined;
use sso_base::{Blob, Message, NoMemory, Text};
use std::alloc::Global;
use url::{ParseError, Url};

fn same(a: &str, b: &str) -> bool
    ensures { result ≡ bytes_eq a.now b.now }
{
    a == b
}

// Parses an http or https URL.
#[tactic(auto, unfolding(crate::specs::Messages::web_url))]
fn web_url(alloc: Global, text: &str) -> Result<Option<Url>, NoMemory>
    ensures { IfOk result (λ o. o ≡ spec.web_url text.now) }
{
    match Url::parse(alloc, text) {
        Ok(url) => {
            if same(url.scheme(), "https") || same(url.scheme(), "http") {
                Ok(Some(url))
            } else {
                Ok(None)
            }
        }
        Err(ParseError::OutOfMemory | ParseError::Overflow) => Err(NoMemory),
        Err(_) => Ok(None),
    }
}

fn host(url: &Url) -> &str
    ensures { result.now ≡ spec.host_of url.now }
{
    match url.host_str() {
        Some(host) => host,
        None => "",
    }
}

fn port(url: &Url) -> u16
    ensures { result ≡ spec.port_of url.now }
{
    match url.port_or_known_default() {
        Some(port) => port,
        None => 80,
    }
}

// HOST:PORT.
fn place(alloc: Global, url: &Option<Url>) -> Result<Text, NoMemory>
    ensures { IfOk result (λ t. t ≡ spec.place_of url.now) }
{
    match url {
        Some(url) => {
            let number = port(url).to_string(alloc)?;
            Ok(Text::from_string(joined(alloc, &[host(url), ":", &number])?))
        }
        None => Text::new(alloc, ":80"),
    }
}

fn put_target(out: &mut String, url: &Option<Url>) -> Result<(), NoMemory>
    ensures { OnOk result (string_bytes out.new ≡ string_bytes out.old ++ spec.target_of url.now) }
{
    match url {
        Some(url) => put_path(out, url),
        None => put_all(out, &["/"]),
    }
}

fn put_path(out: &mut String, url: &Url) -> Result<(), NoMemory>
    ensures { OnOk result (string_bytes out.new ≡ string_bytes out.old ++ (url.now.path ++ spec.query_part url.now.query)) }
{
    match url.query() {
        Some(query) => put_all(out, &[url.path(), "?", query]),
        None => put_all(out, &[url.path()]),
    }
}

// The path and the query.
fn target(alloc: Global, url: &Option<Url>) -> Result<Text, NoMemory>
    ensures { IfOk result (λ t. t ≡ spec.target_of url.now) }
{
    let mut text = String::new(alloc);
    put_target(&mut text, url)?;
    Ok(Text::from_string(text))
}

fn method_name(body: &Option<Blob>) -> &'static str
    ensures { result.now ≡ spec.method_name body.now }
{
    match body {
        Some(_) => "POST ",
        None => "GET ",
    }
}

fn put_line(out: &mut String, method: &str, target: &str) -> Result<(), NoMemory>
    ensures { OnOk result (string_bytes out.new ≡ string_bytes out.old ++ concat (method.now ∷ target.now ∷ codes " HTTP/1.1" ∷ line_end ∷ [])) }
{
    put_all(out, &[method, target, " HTTP/1.1", "\r\n"])
}

#[tactic(auto, unfolding(crate::specs::Messages::request_line))]
fn put_request(out: &mut String, body: &Option<Blob>, target: &str) -> Result<(), NoMemory>
    ensures { OnOk result (string_bytes out.new ≡ string_bytes out.old ++ spec.request_line body.now target.now) }
{
    put_line(out, method_name(body), target)
}

fn put_form(alloc: Global, out: &mut String, body: &Option<Blob>) -> Result<(), NoMemory>
    ensures { OnOk result (string_bytes out.new ≡ string_bytes out.old ++ spec.form_lines body.now) }
{
    match body {
        Some(body) => {
            put_form_type(out)?;
            put_number(alloc, out, "Content-Length", body.as_bytes().len())
        }
        None => Ok(()),
    }
}

fn put_head(
    alloc: Global,
    out: &mut String,
    message: &Message,
    url: &Option<Url>,
) -> Result<(), NoMemory>
    ensures { OnOk result (string_bytes out.new ≡ string_bytes out.old ++ spec.message_head message.now url.now) }
{
    let target = target(alloc, url)?;
    put_request(out, &message.body, target.as_str())?;
    let place = place(alloc, url)?;
    put_field(out, "Host", place.as_str())?;
    put_field_if(out, "Authorization", &message.auth)?;
    put_form(alloc, out, &message.body)?;
    put_last(out)
}

fn body_bytes(body: &Option<Blob>) -> &[u8]
    ensures { result.now ≡ spec.body_of body.now }
{
    match body {
        Some(body) => body.as_bytes(),
        None => b"",
    }
}

/// The recipient of a message, as `HOST:PORT`. The port is that of its URL or, if none is written, 80 or 443. If the message's
/// `to` is not a URL of http or https, this is `:80`.
#[tactic(auto, unfolding(crate::specs::Messages::message_place))]
pub fn message_place(alloc: Global, message: &Message) -> Result<Text, NoMemory>
    ensures { IfOk result (λ t. t ≡ spec.message_place message.now) }
{
    let url = web_url(alloc, message.to.as_str())?;
    place(alloc, &url)
}

/// The bytes of a message (RFC 9112, 3 to 6): a POST of a form if it has a body, otherwise a GET. The target is the path and
/// query of its URL, and `Host` is the result of [`message_place`]. If the message's `to` is not a URL of http or https, the
/// target is `/`.
#[tactic(auto, unfolding(crate::specs::Messages::message_bytes))]
pub fn print_message(alloc: Global, message: &Message) -> Result<Blob, NoMemory>
    ensures { IfOk result (λ b. b ≡ spec.message_bytes message.now) }
{
    let url = web_url(alloc, message.to.as_str())?;
    let mut head = String::new(alloc);
    put_head(alloc, &mut head, message, &url)?;
    with_body(alloc, &head, body_bytes(&message.body))
}

// Requests to a server and its replies, as far as HTTP carries them (RFC 9110).

ghost use Rattle.std.specs.Prelude.{◌≡◌};
ghost use Rattle.std.specs.List.{before_first, after_first};
ghost use Rattle.sso_base.specs.RequestLine.{method_of, is_question};

use crate::text::{Blob, Text};
use crate::texts::Texts;
use crate::word::Word;

/// The method of a request (RFC 9110, 9.3).
#[derive(Clone, Copy, PartialEq, Eq)]
pub enum Method {
    Get,
    Post,
    /// Any other method.
    Other,
}

impl Method {
    /// The method of this name, which is in upper case (RFC 9110, 9.1).
    pub fn of_name(name: &[u8]) -> Method
        ensures { result ≡ method_of name.now }
    {
        if name == b"GET".as_slice() {
            Method::Get
        } else if name == b"POST".as_slice() {
            Method::Post
        } else {
            Method::Other
        }
    }
}

/// The path and the query of a target: the text before and after its first `?`. Without one, all of it is the path, and the query
/// is empty (RFC 9112, 3.2.1).
pub fn split_target(target: &str) -> (&str, &str)
    ensures path { result.0.now ≡ before_first is_question target.now }
    ensures query { result.1.now ≡ after_first is_question target.now }
{
    match target.split_once('?') {
        Some((path, query)) => (path, query),
        None => (target, ""),
    }
}

/// One request to a server.
#[derive(Drop)]
pub struct Ask {
    pub method: Method,
    /// The target up to its first `?`.
    pub path: Text,
    /// The query after that `?`; empty if there is none.
    pub query: Blob,
    /// The form that was posted, in `application/x-www-form-urlencoded`.
    pub body: Option<Blob>,
    /// The first of the server's two cookies, if its value is the text of a word.
    pub first: Option<Word>,
    /// The second.
    pub second: Option<Word>,
    /// The value of the `Authorization` header (RFC 9110, 11.6.2).
    pub auth: Option<Text>,
}

/// The kind of a reply's body.
#[derive(Clone, Copy, PartialEq, Eq)]
pub enum Kind {
    /// No body.
    Empty,
    /// `text/plain; charset=utf-8`
    Plain,
    /// `text/html; charset=utf-8`
    Html,
    /// `application/json`
    Json,
}

/// The reply to a request.
#[derive(Drop)]
pub struct HttpReply {
    /// The status (RFC 9110, 15).
    pub status: u16,
    /// Whether it has `Pragma: no-cache` (RFC 6749, 5.1).
    pub pragma: bool,
    /// The value of its `Location` header (RFC 9110, 10.2.2).
    pub location: Option<Text>,
    /// The values of its `Set-Cookie` headers (RFC 6265, 4.1).
    pub cookies: Texts,
    /// The value of its `WWW-Authenticate` header (RFC 9110, 11.6.1).
    pub challenge: Option<Text>,
    /// The kind of its body, which decides the `Content-Type` header.
    pub kind: Kind,
    /// Its body.
    pub body: Blob,
}

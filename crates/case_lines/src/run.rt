// A run: requests that are answered one after another, their random words, and the follow-up of the last reply.

use crate::answers::told;
use crate::fields::as_text;
use crate::http::{push_http, push_message};
use crate::numbered::words_of_place;
use sso_base::{Blob, HttpReply, Message, NoMemory, Text, Word};
use std::alloc::{AllocError, Global};

/// The number of answered requests, the last reply in HTTP with its messages, and the reply before it.
#[derive(Drop)]
pub struct Run {
    answered: u32,
    before: Option<HttpReply>,
    http: Option<HttpReply>,
    messages: Vec<Message>,
}

impl Run {
    /// A run without requests.
    pub fn new(alloc: Global) -> Run {
        Run {
            answered: 0,
            before: None,
            http: None,
            messages: Vec::new(alloc),
        }
    }

    /// The random words of the next request: at place p, from 1, those with the numbers from 4p - 3 to 4p.
    pub fn words(&self) -> [Word; 4] {
        words_of_place(self.answered.wrapping_add(1))
    }

    /// Counts one more answered request, whose reply is not kept yet.
    pub fn count(&mut self) {
        self.answered = self.answered.wrapping_add(1);
        self.before = self.http.take();
    }

    /// Keeps the last reply.
    pub fn keep(&mut self, http: HttpReply, messages: Vec<Message>) {
        self.http = Some(http);
        self.messages = messages;
    }

    /// What a call prints for the last reply: its line only for `ask`, and also the reply as it is sent for `send`.
    pub fn told(&self, alloc: Global, call: &str, line: &str) -> Result<String, NoMemory> {
        let mut out = told(alloc, line)?;
        if call != "send" {
            return Ok(out);
        }
        if let Some(http) = &self.http {
            push_http(alloc, &mut out, http, None)?;
        }
        push_messages(alloc, &mut out, self.messages.as_slice())?;
        Ok(out)
    }

    /// The text with this name in the last reply, if there is one:
    ///
    /// | Name | Text |
    /// |---|---|
    /// | `target` | the path and the query of its location, which a browser requests there |
    /// | `fragment` | the fragment of its location or, if it has none, that of the reply before, which a browser keeps |
    /// | `body` | its body |
    /// | `ID Token` | the ID Token in its location or in its body |
    /// | `message target` | the path and the query of the URL of its first message |
    /// | `message authorization`, `message body` | the value of that message's `Authorization` header, and its form |
    /// | `message token` | the logout token in that form |
    /// | `second message target` and so on | those of its second message |
    pub fn text(&self, name: &str) -> Option<&str> {
        if let Some(part) = name.strip_prefix("message ") {
            return message_text(self.message(0)?, part);
        }
        if let Some(part) = name.strip_prefix("second message ") {
            return message_text(self.message(1)?, part);
        }
        match name {
            "fragment" => self.fragment(),
            _ => reply_text(self.http.as_ref()?, name),
        }
    }

    // The message at this place of the last reply, from 0.
    fn message(&self, place: usize) -> Option<&Message> {
        self.messages.as_slice().get(place)
    }

    fn fragment(&self) -> Option<&str> {
        match fragment(self.http.as_ref()?) {
            Some(text) => Some(text),
            None => fragment(self.before.as_ref()?),
        }
    }
}

fn push_messages(alloc: Global, out: &mut String, messages: &[Message]) -> Result<(), AllocError> {
    for message in messages {
        push_message(alloc, out, message)?;
    }
    Ok(())
}

fn reply_text<'a>(http: &'a HttpReply, name: &str) -> Option<&'a str> {
    match name {
        "target" => Some(target(location(http)?)),
        "body" => Some(body(http)),
        "ID Token" => id_token(http),
        _ => None,
    }
}

fn message_text<'a>(message: &'a Message, name: &str) -> Option<&'a str> {
    match name {
        "target" => Some(target(message.to.as_str())),
        "authorization" => Some(message.auth.as_ref()?.as_str()),
        "body" => Some(form(message.body.as_ref()?)),
        "token" => form(message.body.as_ref()?).strip_prefix("logout_token="),
        _ => None,
    }
}

fn location(http: &HttpReply) -> Option<&str> {
    Some(http.location.as_ref()?.as_str())
}

fn fragment(http: &HttpReply) -> Option<&str> {
    Some(location(http)?.split_once('#')?.1)
}

fn body(http: &HttpReply) -> &str {
    as_text(http.body.as_bytes())
}

fn form(body: &Blob) -> &str {
    as_text(body.as_bytes())
}

// The path and the query of a URL, or of a path with a query.
fn target(url: &str) -> &str {
    let (url, _) = url.split_once('#').unwrap_or((url, ""));
    match url.split_once("://") {
        Some((_, rest)) => after_authority(rest),
        None => url,
    }
}

fn after_authority(rest: &str) -> &str {
    let (authority, _) = rest.split_once('/').unwrap_or((rest, ""));
    rest.strip_prefix(authority).unwrap_or("/")
}

// The text between two marks.
fn between<'a>(text: &'a str, before: &str, after: char) -> Option<&'a str> {
    let (_, rest) = text.split_once(before)?;
    match rest.split_once(after) {
        Some((found, _)) => Some(found),
        None => Some(rest),
    }
}

fn id_token(http: &HttpReply) -> Option<&str> {
    match location(http) {
        Some(location) => between(location, "id_token=", '&'),
        None => between(body(http), "\"id_token\":\"", '"'),
    }
}

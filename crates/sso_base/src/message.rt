// Messages between servers.

ghost use Rattle.std.specs.Prelude.{◌≡◌, IfOk, option_map};

use crate::memory::NoMemory;
use crate::text::{Blob, Text};
use std::alloc::Global;

/// A request from one server to another: a POST of a form if it has a body, otherwise a GET.
#[derive(Drop)]
pub struct Message {
    /// The URL it is sent to.
    pub to: Text,
    /// The value of its `Authorization` header (RFC 9110, 11.6.2).
    pub auth: Option<Text>,
    /// The form, in `application/x-www-form-urlencoded`.
    pub body: Option<Blob>,
}

impl Message {
    /// A copy of the message.
    pub fn copy(&self, alloc: Global) -> Result<Message, NoMemory>
        ensures { IfOk result (λ m. m ≡ self.now) }
    {
        let body = match &self.body {
            Some(body) => Some(body.copy(alloc)?),
            None => None,
        };
        Ok(Message {
            to: self.to.copy(alloc)?,
            auth: copied_text(alloc, &self.auth)?,
            body,
        })
    }
}

/// The response to such a request.
#[derive(Drop)]
pub struct Answered {
    /// The HTTP status.
    pub status: u16,
    pub body: Blob,
}

/// A copy of the text, if there is one.
pub fn copied_text(alloc: Global, text: &Option<Text>) -> Result<Option<Text>, NoMemory>
    ensures { IfOk result (λ o. o ≡ text.now) }
{
    match text {
        Some(text) => Ok(Some(text.copy(alloc)?)),
        None => Ok(None),
    }
}

/// The bytes of the text, if there is one.
pub fn bytes_if(text: &Option<Text>) -> Option<&[u8]>
    ensures { option_map (λ b. b.now) result ≡ text.now }
{
    match text {
        Some(text) => Some(text.as_str().as_bytes()),
        None => None,
    }
}

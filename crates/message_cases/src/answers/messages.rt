// Messages from server to server.

use case_lines::as_text;
use sso_base::{Blob, Message, NoMemory, Text};
use std::alloc::Global;

/// A message as the fields of a case: the recipient, the header and the body.
pub fn told_message(alloc: Global, message: &Message) -> Result<String, NoMemory> {
    let to = message.to.as_str();
    let auth = message.auth.as_ref().map_or("-", Text::as_str);
    let body = message
        .body
        .as_ref()
        .map_or(b"-".as_slice(), Blob::as_bytes);
    let body = as_text(body);
    Ok(format!(in alloc; "{to}|{auth}|{body}")?)
}

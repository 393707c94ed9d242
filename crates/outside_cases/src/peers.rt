// Reads the answers of other servers.

use crate::requests::line_bytes;
use case_lines::{as_text, told, told_quoted};
use sso_base::{Answered, NoMemory};
use sso_http::read_peer;
use std::alloc::Global;

fn told_answered(alloc: Global, answered: &Answered) -> Result<String, NoMemory> {
    let status = answered.status;
    let text = told_quoted(alloc, as_text(answered.body.as_bytes()))?;
    Ok(format!(in alloc; "{status} {}", text.as_str())?)
}

/// `peer|BYTES`: the status and the body of this answer, or `-` if the bytes are not one.
pub fn peer(alloc: Global, field: &str) -> Result<String, NoMemory> {
    let bytes = line_bytes(alloc, field)?;
    match read_peer(alloc, &bytes)? {
        Some(answered) => told_answered(alloc, &answered),
        None => told(alloc, "-"),
    }
}

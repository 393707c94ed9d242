// Where browsers may be sent by a configuration.

use crate::configured::configured;
use case_lines::{told, told_refusal, told_truth};
use client_registry::RegNo;
use end_request::{Returns, read_returns};
use sso_base::NoMemory;
use std::alloc::Global;

// The name of a refusal, and what it names.
fn refusal(why: &RegNo) -> (&str, &str) {
    match why {
        RegNo::NotToml => ("NotToml", ""),
        RegNo::WrongKind(path) => ("WrongKind", path.as_str()),
        RegNo::BadUrl(path) => ("BadUrl", path.as_str()),
        RegNo::TooMany(client) => ("TooMany", client.as_str()),
        _ => ("another", ""),
    }
}

fn read(alloc: Global, lines: &str) -> Result<Result<Returns, RegNo>, NoMemory> {
    let file = configured(alloc, lines)?;
    match read_returns(alloc, file.as_str().as_bytes()) {
        Ok(returns) => Ok(Ok(returns)),
        Err(RegNo::NoMemory) => Err(NoMemory),
        Err(why) => Ok(Err(why)),
    }
}

/// Whether they are accepted in the configuration with these lines, or why not.
pub fn returns(alloc: Global, lines: &str) -> Result<String, NoMemory> {
    match read(alloc, lines)? {
        Ok(_) => told(alloc, "accepted"),
        Err(why) => told_refusal(alloc, refusal(&why)),
    }
}

/// Whether the URI is registered for the client with this number.
pub fn has(alloc: Global, lines: &str, client: u32, uri: &str) -> Result<String, NoMemory> {
    match read(alloc, lines)? {
        Ok(returns) => told_truth(alloc, returns.has(client, uri)),
        Err(_) => told(alloc, "not accepted"),
    }
}

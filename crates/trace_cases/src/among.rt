// Logins among the other lines of a trace.

use crate::plays::play;
use case_lines::{field, push_part};
use sso_base::NoMemory;
use std::alloc::Global;

// The reply at a place of a play that ended well, as `play` prints it.
fn reply_at<'a>(told: &'a str, place: &str) -> Option<&'a str> {
    for line in told.strip_prefix("Met: ")?.split(" / ") {
        match line.split_once(' ') {
            Some((number, reply)) if number == place => return Some(reply),
            _ => {}
        }
    }
    None
}

// The replies to the lines of a login that is played alone, if the whole play has the same at these places. Otherwise the first
// of these places with another reply.
fn compared(alloc: Global, whole: &str, alone: &str, places: &str) -> Result<String, NoMemory> {
    let mut replies = String::new(alloc);
    for (number, place) in places.split(' ').enumerate() {
        let own = number.saturating_add(1).to_string(alloc)?;
        match (reply_at(alone, own.as_str()), reply_at(whole, place)) {
            (Some(reply), Some(other)) if reply == other => push_part(&mut replies, " / ", reply)?,
            _ => return Ok(format!(in alloc; "place {place} differs")?),
        }
    }
    Ok(format!(in alloc; "as alone: {}", replies.as_str())?)
}

/// `among|NAME|LINES|LOGIN|PLACES|..`: the play of these lines, as `play` prints it, and then each login compared with a play
/// of the login alone. LOGIN is the lines of the login alone, and PLACES are the places that they have among LINES.
pub fn among(alloc: Global, name: &str, lines: &str, logins: &[&str]) -> Result<String, NoMemory> {
    let whole = play(alloc, name, lines)?;
    let mut told = String::from_str(alloc, whole.as_str())?;
    for login in logins.chunks(2) {
        let alone = play(alloc, name, field(login, 0))?;
        let part = compared(alloc, whole.as_str(), alone.as_str(), field(login, 1))?;
        push_part(&mut told, "; ", part.as_str())?;
    }
    Ok(told)
}

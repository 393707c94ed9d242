// The lines of replies.

use crate::provider::Lined;
use case_lines::{push_part, told, told_refusal, told_text};
use core_stack::Provides;
use end_request::EndNo;
use op_core::OpCore;
use op_exchange::OpReply;
use op_response::op_line;
use pkce_answer::PkceReply;
use pkce_check::PkceCore;
use refresh_answer::{OwnReply, RefreshReply};
use refresh_book::RefreshCore;
use signout_answer::EndReply;
use sso_base::{Messages, NoMemory, Text};
use std::alloc::{AllocError, Global};

fn after(alloc: Global, before: &str, reply: &OpReply) -> Result<String, NoMemory> {
    let line = op_line(alloc, reply)?;
    Ok([before, line.as_str()].concat(alloc)?)
}

// The line of a reply of the core with proof keys, after `first` if it has a first refresh token, or after `key` if that core refused by
// itself.
fn keys_line(alloc: Global, first: &str, reply: &PkceReply<OpReply>) -> Result<String, NoMemory> {
    match reply {
        PkceReply::Through(reply) => after(alloc, first, reply),
        PkceReply::Own(reply) => after(alloc, "key ", reply),
    }
}

// The line of a reply of the core with refresh tokens by itself.
fn refresh_line(alloc: Global, reply: &OwnReply) -> Result<String, NoMemory> {
    match reply {
        OwnReply::Refreshed { .. } => told(alloc, "refreshed"),
        OwnReply::Refused { code } => Ok(["refresh refused ", code.as_str()].concat(alloc)?),
        OwnReply::Info { .. } => told(alloc, "refresh info"),
        OwnReply::NotHere => told(alloc, "refresh nothing"),
        OwnReply::Full => told(alloc, "refresh full"),
    }
}

// The line of a reply of the core inside.
fn inner_line(alloc: Global, reply: &RefreshReply<PkceReply<OpReply>>) -> Result<String, NoMemory> {
    match reply {
        RefreshReply::Through(reply) => keys_line(alloc, "", reply),
        RefreshReply::First { inner, .. } => keys_line(alloc, "first ", inner),
        RefreshReply::Own(reply) => refresh_line(alloc, reply),
    }
}

fn refusal(why: &EndNo) -> (&str, &str) {
    match why {
        EndNo::Twice(name) => ("wrong Twice", name.as_str()),
        EndNo::Client => ("wrong Client", ""),
        EndNo::Hint => ("wrong Hint", ""),
        EndNo::Return => ("wrong Return", ""),
    }
}

// Adds where the messages go.
fn push_targets(line: &mut String, messages: &Messages) -> Result<(), AllocError> {
    for place in 0..messages.count() {
        push_part(line, " to ", messages.at(place).to.as_str())?;
    }
    Ok(())
}

// `gone` with the location, the reply of the core inside, and where its messages go.
fn gone_line(
    alloc: Global,
    back: &Option<Text>,
    inner: &RefreshReply<PkceReply<OpReply>>,
) -> Result<String, NoMemory> {
    let back = told_text(alloc, back)?;
    let told = inner_line(alloc, inner)?;
    let mut line = ["gone ", back.as_str(), ", ", told.as_str()].concat(alloc)?;
    if let Some(messages) = <RefreshCore<PkceCore<OpCore>> as Provides>::messages(inner) {
        push_targets(&mut line, messages)?;
    }
    Ok(line)
}

/// - that of the core inside: of the provider, after `first` if a first refresh token was added; after `key`, a refusal of the core with
///   proof keys; `refreshed`, or after `refresh` what else the core with refresh tokens replies by itself;
/// - `sure`, `kept`, `stale`, `full`;
/// - `wrong` with the reason;
/// - `gone` with the location in quotes, or `-` if there is none, and the line of the core inside, with the URLs to which its messages go.
impl Lined for EndReply<RefreshReply<PkceReply<OpReply>>> {
    fn line(&self, alloc: Global) -> Result<String, NoMemory> {
        match self {
            EndReply::Through(inner) => inner_line(alloc, inner),
            EndReply::Sure { .. } => told(alloc, "sure"),
            EndReply::Wrong { why } => told_refusal(alloc, refusal(why)),
            EndReply::Gone { back, inner } => gone_line(alloc, back, inner),
            EndReply::Kept => told(alloc, "kept"),
            EndReply::Stale => told(alloc, "stale"),
            EndReply::Full => told(alloc, "full"),
        }
    }
}

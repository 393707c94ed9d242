// Writing the line of a reply.

ghost use Rattle.std.specs.Prelude.{◌≡◌, IfOk};
ghost use Rattle.rp_response.specs.Lines as spec;

use crate::refusals::refusal_line;
use http_reply::concatenated;
use rp_exchange::RpReply;
use sso_base::{NoMemory, Text};
use std::alloc::Global;

// `ended` and the number of sessions that ended.
fn ended(alloc: Global, count: u32) -> Result<Text, NoMemory>
    ensures { IfOk result (λ t. t ≡ spec.ended count) }
{
    let count = count.to_string(alloc)?;
    concatenated(alloc, "ended ", count.as_str())
}

/// The line of this reply in the text of a replay, without its index and its party:
///
/// - `ask`, `fragment`, `exchange`, `fetch`;
/// - `session` with the subject, `user` with the subject, `nobody`, `left`, `left nothing`;
/// - `ended` with the number of sessions; `refused` with the names of the error; `nothing`.
///
/// The names of an error are written from the outermost to the innermost, as `refused Id Jws BadMac`. For the provider's error
/// it is the code, as `refused Provider access_denied`. A line shows no word, token or claim except the subject.
#[tactic(auto, unfolding(crate::specs::Lines::line_of))]
pub fn rp_line(alloc: Global, reply: &RpReply) -> Result<Text, NoMemory>
    ensures { IfOk result (λ t. t ≡ spec.line_of reply.now) }
{
    match reply {
        RpReply::Ask { .. } => Text::new(alloc, "ask"),
        RpReply::Fragment => Text::new(alloc, "fragment"),
        RpReply::Exchange { .. } => Text::new(alloc, "exchange"),
        RpReply::Fetch { .. } => Text::new(alloc, "fetch"),
        RpReply::Entered { sub, .. } => concatenated(alloc, "session ", sub.as_str()),
        RpReply::User { sub } => concatenated(alloc, "user ", sub.as_str()),
        RpReply::Nobody => Text::new(alloc, "nobody"),
        RpReply::Left { ended: true } => Text::new(alloc, "left"),
        RpReply::Left { ended: false } => Text::new(alloc, "left nothing"),
        RpReply::Ended { count } => ended(alloc, *count),
        RpReply::Refused { why } => refusal_line(alloc, why),
        RpReply::NotHere => Text::new(alloc, "nothing"),
    }
}

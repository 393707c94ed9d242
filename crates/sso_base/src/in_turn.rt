// What a core replies to requests, one after another.

ghost use Rattle.std.specs.Prelude.{◌≡◌, ℕ, [], length, Err, IfOk};
ghost use Rattle.sso_base.specs.Asked.{history_by, FillsHistory};

use crate::asked::Asked;
use crate::step::{Core, CoreNo};
use std::alloc::Global;

/// The replies of a core with an empty history to these requests, one after another. There are as many replies as requests. The
/// list of these requests with these replies is a legal history: each request at its moment, or at the last one's if that is
/// later.
///
/// The clauses name the caller's requests and the returned replies, and no history of the core. So they are true for a core that
/// stores nothing, too: its history in contracts is what was really requested and replied.
///
/// # Errors
///
/// - `NoMemory` if memory runs out.
/// - `JournalFull` if the history of the requests before one, and that one, weigh more than a history of the core may.
pub fn replies_in_turn<C: Core>(
    alloc: Global,
    mut core: C,
    asks: Vec<Asked<C::Ask>>,
) -> Result<Vec<C::Reply>, CoreNo>
    requires { C.history core ≡ [] }
    ensures each { IfOk result (λ replies. length replies.items ≡ length asks.items) }
    ensures legal { IfOk result (λ replies. C.is_legal (C.setup core) (history_by [] asks.items replies.items)) }
    ensures full { (w : ℕ) → (result ≡ Err (CoreNo.JournalFull w)) → FillsHistory C.weighs (C.most (C.setup core)) asks.items w }
{
    let _count = core.count();
    let mut replies = Vec::new(alloc);
    for asked in asks {
        let Asked { at, fresh, ask } = asked;
        if replies.reserve(1).is_err() {
            return Err(CoreNo::NoMemory);
        }
        let reply = core.step(alloc, at, fresh, ask)?;
        replies.push_reserved(reply);
    }
    Ok(replies)
}

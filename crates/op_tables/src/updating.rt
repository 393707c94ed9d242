// Updating the tables with a pair.

ghost use Rattle.std.specs.Prelude.{◌≡◌, ◌<◌, ◌≤◌, true, length, IfSome};
ghost use Rattle.held_rows.specs.Held.{most_rows};
ghost use Rattle.op_tables.specs.Updating.{MayUpdateTables, UpdatesTables};

use crate::keeping::{grant_agreed, keep_codes, keep_sessions, keep_turns, put_rows};
use crate::made::Made;
use code_grant::{Grants, SessionRow};
use op_exchange::{OpAsk, OpReply};
use sso_base::{Pair, Word};

// The number of sessions is at most the limit. A lookup has this as its postcondition.
fn sessions_fit(grants: &Grants, session: &Option<SessionRow>)
    ensures { IfSome session.now (λ row. length grants.now.sessions ≤ most_rows) }
{
    if let Some(session) = session {
        let _held = grants.session(session.word);
    }
}

/// Updates the tables with a pair: expired rows are removed, the pair changes the other rows, and its new rows are added. It
/// allocates nothing.
pub fn update_tables(
    grants: &mut Grants,
    pair: &Pair<OpAsk, OpReply>,
    made: Made,
    used: Option<Word>,
    client: Option<u32>,
)
    requires may { MayUpdateTables grants.old pair.now made used client }
    requires reserved { grants.old.reserved ≡ record { turns = true; sessions = true; codes = true; tokens = true } }
    requires client { IfSome client (λ n. n < 128) }
    requires turn { IfSome made.turn (λ r. r.wish.client < 128) }
    requires session { IfSome made.session (λ r. r.user < 512) }
    requires code { IfSome made.code (λ r. (r.user < 512) × (r.wish.client < 128)) }
    requires token { IfSome made.token (λ r. (r.user < 512) × (r.client < 128)) }
    ensures { UpdatesTables grants.old grants.new pair.now made used client }
{
    sessions_fit(grants, &made.session);
    grants.purge(pair.entry.at);
    grant_agreed(grants, pair);
    keep_turns(grants, pair);
    keep_sessions(grants, pair, used, client);
    keep_codes(grants, pair);
    put_rows(grants, made.turn, made.session, made.code, made.token);
}

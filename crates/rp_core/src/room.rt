// Whether the tables have room for the rows of a reply.

ghost use Rattle.std.specs.Prelude.{◌≡◌, ◌≤◌};
ghost use Rattle.sso_base.specs.Legal.{last_moment};
ghost use Rattle.rp_answer.specs.Setup.{party_of};
ghost use Rattle.held_rows.specs.Held.{most_rows, is_full};
ghost use Rattle.rp_login.specs.Rows.{pending_name};
ghost use Rattle.rp_answer.specs.Room as spec;
ghost use Rattle.rp_core.specs.Relying.{past_of, exchanges_at};

use crate::state::RpCore;
use rp_exchange::{RpAsk, RpReply};
use rp_login::RpTable;
use sso_base::{Entry, Word};

fn if_full(table: RpTable, full: bool) -> Option<RpTable>
    ensures { result ≡ spec.if_full table full }
{
    if full { Some(table) } else { None }
}

impl RpCore {
    // Whether there is no room for a UserInfo request with this word, when the exchange of a token response ends.
    fn lacks_question(&self, entry: &Entry<RpAsk>, word: Word) -> bool
        requires { last_moment (past_of self.now) ≤ entry.now.at }
        ensures { result ≡ is_full most_rows pending_name word (spec.beside_answered entry.now.ask (exchanges_at self.now entry.now.at)) }
    {
        match &entry.ask {
            RpAsk::Tokens { pending, .. } => self.lacks_pending_beside(entry.at, *pending, word),
            _ => self.lacks_pending(entry.at, word),
        }
    }

    // The table of the logout tokens, if it has no room for this one.
    fn seen_lacking(&self, entry: &Entry<RpAsk>) -> Option<RpTable>
        requires { last_moment (past_of self.now) ≤ entry.now.at }
        ensures { result ≡ spec.seen_lacking (past_of self.now) entry.now entry.now.ask }
    {
        match &entry.ask {
            RpAsk::Logout { claims: Ok(claims) } => {
                if_full(
                    RpTable::Seen,
                    self.lacks_seen(entry.at, claims.jti.as_str().as_bytes()),
                )
            }
            _ => None,
        }
    }

    // The table that has no room for a row of the reply.
    pub(crate) fn table_lacking(&self, entry: &Entry<RpAsk>, reply: &RpReply) -> Option<RpTable>
        requires { last_moment (past_of self.now) ≤ entry.now.at }
        ensures { result ≡ spec.table_lacking (party_of self.now.setup).types (past_of self.now) entry.now reply.now }
    {
        match reply {
            RpReply::Ask { .. } => {
                if_full(RpTable::Logins, self.lacks_login(entry.at, entry.fresh[1]))
            }
            RpReply::Exchange { pending, .. } => {
                if_full(RpTable::Pendings, self.lacks_pending(entry.at, *pending))
            }
            RpReply::Fetch { pending, .. } => {
                if_full(RpTable::Pendings, self.lacks_question(entry, *pending))
            }
            RpReply::Ended { .. } => self.seen_lacking(entry),
            RpReply::Entered { session, .. } => {
                if_full(RpTable::Sessions, self.lacks_visit(entry.at, *session))
            }
            _ => None,
        }
    }
}

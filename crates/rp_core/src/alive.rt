// Whether a logout came before its login: no session begins with a `sid` that a remembered logout token has.

ghost use Rattle.std.specs.Prelude.{◌≡◌, ◌≤◌};
ghost use Rattle.std.specs.Option.{option_copied};
ghost use Rattle.sso_base.specs.Legal.{last_moment};
ghost use Rattle.rp_login.specs.declared.rows.Stage.TheVariants as stage;
ghost use Rattle.rp_exchange.specs.declared.reply.RpReply.TheVariants.{Entered};
ghost use Rattle.rp_answer.specs.Alive as spec;
ghost use Rattle.rp_answer.specs.Asked.{claims_judged as claims_judged_of, sid_in};
ghost use Rattle.rp_answer.specs.Pendings.{live_pending};
ghost use Rattle.rp_answer.specs.Setup.{party_of};
ghost use Rattle.rp_core.specs.Relying.{past_of};

use crate::making::claims_judged;
use crate::state::RpCore;
use oidc_words::Types;
use rp_exchange::{RpAsk, RpNo, RpReply};
use rp_login::{DeadRow, Stage};
use sso_base::{Moment, Text, Word};

// The text, if there is one.
fn text_if(text: &Option<Text>) -> Option<&Text>
    ensures { option_copied result ≡ text.now }
{
    match text {
        Some(text) => Some(text),
        None => None,
    }
}

// The `sid` of the claims of the ID Token that is verified.
fn sid_claimed<'a>(types: &Types, ask: &'a RpAsk) -> Option<&'a Text>
    ensures { option_copied result ≡ sid_in (claims_judged_of types.now ask.now) }
{
    match claims_judged(types, ask) {
        Some(claims) => text_if(&claims.sid),
        None => None,
    }
}

// A session begins, unless its `sid` is remembered.
fn enter_unless(session: Word, sub: Text, dead: Option<&DeadRow>) -> RpReply
    ensures { result ≡ spec.enter_unless (Entered session sub) (option_copied dead.entry) }
{
    match dead {
        Some(dead) => RpReply::Refused {
            why: RpNo::EndedSid(dead.place),
        },
        None => RpReply::Entered { session, sub },
    }
}

// The reply, unless it is a session whose `sid` is remembered.
pub(crate) fn unless_dead(reply: RpReply, dead: Option<&DeadRow>) -> RpReply
    ensures { result ≡ spec.unless_dead reply (option_copied dead.entry) }
{
    match reply {
        RpReply::Entered { session, sub } => enter_unless(session, sub, dead),
        reply => reply,
    }
}

impl RpCore {
    // The `sid` of the exchange that waits for UserInfo under this word.
    fn sid_waiting(&self, at: Moment, word: Word) -> Option<&Text>
        requires { last_moment (past_of self.now) ≤ at }
        ensures { option_copied result ≡ spec.sid_waiting (live_pending (party_of self.now.setup).types (past_of self.now) at word stage.Info) }
    {
        match self.live_pending(at, word, Stage::Info) {
            Some(pending) => text_if(&pending.sid),
            None => None,
        }
    }

    // The `sid` of the last ID Token of the session that would begin.
    fn sid_judged<'a>(&'a self, at: Moment, ask: &'a RpAsk) -> Option<&'a Text>
        requires { last_moment (past_of self.now) ≤ at }
        ensures { option_copied result ≡ spec.sid_judged (party_of self.now.setup).types (past_of self.now) at ask.now }
    {
        match ask {
            RpAsk::Info { pending, .. } => self.sid_waiting(at, *pending),
            _ => sid_claimed(&self.setup.party().types, ask),
        }
    }

    // The record of that `sid`, if it is remembered.
    pub(crate) fn dead_for(&self, at: Moment, ask: &RpAsk) -> Option<&DeadRow>
        requires { last_moment (past_of self.now) ≤ at }
        ensures { option_copied result ≡ spec.dead_for (party_of self.now.setup).types (past_of self.now) at ask.now }
    {
        match self.sid_judged(at, ask) {
            Some(sid) => self.live_dead(at, sid.as_str().as_bytes()),
            None => None,
        }
    }
}

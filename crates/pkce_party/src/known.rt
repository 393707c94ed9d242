// What is known of a request before the party inside steps.

ghost use Rattle.std.specs.Prelude.{◌≡◌, ◌≤◌};
ghost use Rattle.sso_base.specs.Legal.{last_moment};
ghost use Rattle.rp_core.specs.Relying.{past_of};
ghost use Rattle.pkce_party.specs.Verifiers as spec;
ghost use Rattle.pkce_party.specs.Keeping.{known_of};

use crate::party::PkceParty;
use crate::rows::VerifierRow;
use rp_core::state_named;
use rp_exchange::RpAsk;
use sso_base::{Moment, Word};

/// What is known of a request before the party inside steps.
#[derive(Clone, Copy)]
pub(crate) struct Known {
    /// The moment of its entry.
    pub(crate) at: Moment,
    /// The verifier of the login that begins, if the reply is an authorization request.
    pub(crate) drawn: Option<VerifierRow>,
    /// The state of an authorization response.
    pub(crate) state: Option<Word>,
    /// The word of the verifier of its login.
    pub(crate) held: Option<Word>,
}

// The verifier that a request to begin a login draws.
fn row_drawn(at: Moment, fresh: &[Word; 4], ask: &RpAsk) -> Option<VerifierRow>
    ensures { result ≡ spec.row_drawn at fresh.now ask.now }
{
    match ask {
        RpAsk::Begin { .. } => Some(VerifierRow {
            state: fresh[1],
            word: fresh[3],
            begun: at,
        }),
        _ => None,
    }
}

impl PkceParty {
    // The word of the verifier of the live login that an authorization response belongs to.
    fn word_held(&self, at: Moment, ask: &RpAsk) -> Option<Word>
        requires { last_moment (past_of self.now) ≤ at }
        ensures { result ≡ spec.word_held (past_of self.now) at ask.now }
    {
        match self.live_verifier(at, state_named(ask)) {
            Some(row) => Some(row.word),
            None => None,
        }
    }

    /// What is known of a request at this moment, or at the last entry's if that is later.
    pub(crate) fn known(&self, at: Moment, fresh: &[Word; 4], ask: &RpAsk) -> Known
        ensures { result ≡ known_of (past_of self.now) at fresh.now ask.now }
    {
        let now = self.party.moment(at);
        Known {
            at: now,
            drawn: row_drawn(now, fresh, ask),
            state: state_named(ask),
            held: self.word_held(now, ask),
        }
    }
}

// The core: the party inside, and the verifiers of its logins.

ghost use Rattle.std.specs.Prelude.{◌≡◌, ◌≤◌, [], option_and_then};
ghost use Rattle.std.specs.Option.{option_copied};
ghost use Rattle.sso_base.specs.Legal.{last_moment};
ghost use Rattle.sso_base.specs.Rows.{row_of, if_lives};
ghost use Rattle.oidc_words.specs.Lives.{login_life};
ghost use Rattle.held_rows.specs.Held.{IsHeld, AnyRow};
ghost use Rattle.rp_core.specs.Relying.{past_of};
ghost use Rattle.pkce_party.specs.Verifiers as spec;

use crate::rows::VerifierRow;
use crate::timed::TimedParty;
use held_rows::Held;
use rp_core::RpCore;
use sso_base::{Moment, Word};
use std::alloc::Global;
use std::marker::Model;

/// A relying party that uses Proof Key for Code Exchange (RFC 7636). Its model is that of the party inside.
///
/// Each entry is passed to the party inside, and the reply is the party's with a challenge or a verifier. The core stores nothing
/// more of the history: the additions follow from the party's history. So it lasts if the party's history does.
#[derive(Drop)]
pub struct PkceParty {
    pub(crate) party: TimedParty,
    pub(crate) verifiers: Held<VerifierRow>,
}

impl Model for PkceParty {
    ghost use Rattle.rp_core.specs.Relying.{Relying};
    ghost use Rattle.std.specs.Coded.{codes};
    ghost use Rattle.claim_set.specs.MembersCode.{members_code};
    ghost use Rattle.pkce_party.specs.Keeping.{KeepsParty};

    ghost Value = { Relying };

    ghost coded = { Prim.hlevel (codes, members_code) };

    ghost view = { λ c. c.party };

    ghost invariant = { λ c. KeepsParty c.party c.verifiers.rows };
}

// The verifier of the login with this state, if it lives at the moment.
fn living(verifiers: &Held<VerifierRow>, state: Word, at: Moment) -> Option<&VerifierRow>
    ensures row { option_copied result
        ≡ option_and_then (if_lives login_life spec.verifier_begun at) (row_of spec.verifier_name state verifiers.now.rows) }
    ensures held { IsHeld spec.verifier_name spec.verifier_begun AnyRow verifiers.now.rows }
{
    verifiers.living(&state.bytes(), at)
}

impl PkceParty {
    /// A core around this party, whose history is empty.
    pub fn new(alloc: Global, inner: RpCore) -> PkceParty
        requires { inner.history ≡ [] }
        ensures { result ≡ inner }
    {
        let party = TimedParty::new(inner);
        let verifiers = Held::new(alloc);
        PkceParty { party, verifiers }
    }

    /// The live verifier of a state.
    pub(crate) fn live_verifier(&self, at: Moment, state: Option<Word>) -> Option<&VerifierRow>
        requires { last_moment (past_of self.now) ≤ at }
        ensures { option_copied result ≡ spec.live_verifier (past_of self.now) at state }
    {
        let Some(state) = state else {
            return None;
        };
        living(&self.verifiers, state, at)
    }
}

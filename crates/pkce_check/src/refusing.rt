// Which requests are refused without the inner core.

ghost use Rattle.std.specs.Prelude.{◌≡◌, ◌≤◌, reverse, IfOk, None};
ghost use Rattle.sso_base.specs.Legal.{last_moment};
ghost use Rattle.pkce_answer.specs.Answering as spec;

use crate::challenges::challenge_of;
use crate::pkce_core::PkceCore;
use auth_request::{Verdict, Wish};
use core_stack::Provides;
use oidc_words::{AuthError, Refusal};
use op_exchange::{OpAsk, OpReply};
use pkce_answer::{Challenge, PkceAsk, Verifier};
use sso_base::{Moment, NoMemory, Word, copied_text};
use std::alloc::Global;
use token_endpoint::TokenError;

// The refusal of a token request for a code, by the challenge of the authorization request that the code answers.
fn token_refusal(asked: Option<[u8; 43]>, verifier: &Verifier) -> Option<OpReply>
    ensures { result ≡ spec.token_refusal asked verifier.now }
{
    match (asked, verifier) {
        (_, Verifier::Bad) => Some(OpReply::TokenRefused {
            code: TokenError::InvalidRequest,
        }),
        (Some(digest), Verifier::Given(text)) if challenge_of(text.as_bytes()) == digest => None,
        (None, Verifier::Absent) => None,
        _ => Some(OpReply::TokenRefused {
            code: TokenError::InvalidGrant,
        }),
    }
}

// The error response of an authorization request whose challenge is bad.
fn invalid_request(alloc: Global, wish: &Wish) -> Result<OpReply, NoMemory>
    ensures { IfOk result (λ r. r ≡ OpReply.Refused (spec.invalid_request wish.now) None) }
{
    Ok(OpReply::Refused {
        refusal: Refusal {
            redirect: wish.redirect.copy(alloc)?,
            fragment: wish.types.is_in_fragment(),
            state: copied_text(alloc, &wish.state)?,
            code: AuthError::InvalidRequest,
        },
        session: None,
    })
}

// The refusal of an authorization request that may be answered.
fn wish_refusal(
    alloc: Global,
    wish: &Wish,
    challenge: &Challenge,
) -> Result<Option<OpReply>, NoMemory>
    ensures { IfOk result (λ r. r ≡ spec.wish_refusal wish.now challenge.now) }
{
    match challenge {
        Challenge::Bad if wish.types.code => Ok(Some(invalid_request(alloc, wish)?)),
        _ => Ok(None),
    }
}

impl<P: Provides> PkceCore<P> {
    /// The refusal of a request, if it is refused without the inner core.
    pub(crate) fn refusal(
        &self,
        alloc: Global,
        at: Moment,
        ask: &PkceAsk<P::Ask>,
    ) -> Result<Option<OpReply>, NoMemory>
        requires { last_moment (reverse self.now.history) ≤ at }
        ensures { IfOk result (λ r. r ≡ spec.pkce_answer P.plain_ask P.given_reply (reverse self.now.history) at ask.now) }
    {
        match P::plain(&ask.inner) {
            Some(
                OpAsk::Authorize {
                    verdict: Verdict::Grant(wish),
                    ..
                },
            ) => wish_refusal(alloc, wish, &ask.challenge),
            Some(OpAsk::Token { grant: Ok(grant) }) => {
                let code = Word::read(grant.code.as_str().as_bytes());
                Ok(token_refusal(self.code_challenge(at, code), &ask.verifier))
            }
            _ => Ok(None),
        }
    }
}

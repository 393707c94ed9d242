// The reply to the tokens of a live exchange.

ghost use Rattle.std.specs.Prelude.{◌≡◌, IfOk};
ghost use Rattle.rp_answer.specs.Replies as spec;

use crate::fetching::is_other;
use crate::setup::Setup;
use id_token::{Half, IdClaims, IdNo, IdRules, half_hash, judge_id};
use rp_exchange::{Part, RpAsk, RpNo, RpReply, copied_id};
use rp_login::PendingRow;
use sso_base::{Entry, NoMemory, Text};
use std::alloc::Global;
use token_endpoint::Tokens;

// If there is a text, a half digest that is present must be the text's.
fn may_hash(text: &Option<Text>) -> Half
    ensures { result ≡ spec.may_hash text.now }
{
    match text {
        Some(text) => Half::IfThere(half_hash(text.as_str().as_bytes())),
        None => Half::Free,
    }
}

impl Setup {
    fn back_rules(
        &self,
        alloc: Global,
        pending: &PendingRow,
        tokens: &Tokens,
    ) -> Result<IdRules, NoMemory>
        ensures { IfOk result (λ r. r ≡ spec.back_rules self.now pending.now tokens.now) }
    {
        let token = Half::IfThere(half_hash(tokens.access.as_str().as_bytes()));
        let code = may_hash(&pending.code);
        self.rules_for(alloc, &pending.nonce, pending.begun, token, code)
    }

    // Verifies the claims of the ID Token.
    fn judge_back(
        &self,
        alloc: Global,
        entry: &Entry<RpAsk>,
        pending: &PendingRow,
        tokens: &Tokens,
        claims: &IdClaims,
    ) -> Result<RpReply, NoMemory>
        ensures { IfOk result (λ r. r ≡ spec.back_verified self.now entry.now pending.now tokens.now claims.now) }
    {
        let rules = self.back_rules(alloc, pending, tokens)?;
        if let Err(why) = judge_id(&rules, claims, entry.at) {
            return Ok(RpReply::Refused { why: RpNo::Id(why) });
        }
        if is_other(&pending.sub, &claims.sub) {
            return Ok(RpReply::Refused {
                why: RpNo::SubjectDiffers,
            });
        }
        let access = Some(&tokens.access);
        self.fetch_or_enter(alloc, entry, access, pending.word, &claims.sub)
    }

    /// The reply to the tokens of this live exchange, after the claims of their ID Token are verified.
    pub fn reply_to_tokens(
        &self,
        alloc: Global,
        entry: &Entry<RpAsk>,
        pending: &PendingRow,
        tokens: &Tokens,
        id: &Option<Result<IdClaims, IdNo>>,
    ) -> Result<RpReply, NoMemory>
        ensures { IfOk result (λ r. r ≡ spec.back_read self.now entry.now pending.now tokens.now id.now) }
    {
        match id {
            None => Ok(RpReply::Refused {
                why: RpNo::Missing(Part::Id),
            }),
            Some(Ok(claims)) => self.judge_back(alloc, entry, pending, tokens, claims),
            Some(Err(why)) => Ok(RpReply::Refused {
                why: RpNo::Id(copied_id(alloc, why)?),
            }),
        }
    }
}

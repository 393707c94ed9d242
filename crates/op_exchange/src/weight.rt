// The weight of a request. Sums saturate at the greatest number of 64 bits.

ghost use Rattle.std.specs.Prelude.{◌≡◌};
ghost use Rattle.sso_base.specs.Weights.{told_weight};
ghost use Rattle.op_exchange.specs.Weight as spec;

use crate::ask::OpAsk;
use auth_request::{Verdict, Wish};
use sso_base::{EMPTY_WEIGHT, NoMemory, Weighed, text_bytes, texts_bytes, texts_bytes_if};
use token_endpoint::{Grant, GrantNo};

fn wish_bytes(wish: &Wish) -> u64
    ensures { result ≡ told_weight (spec.wish_bytes wish.now) }
{
    let Wish {
        redirect,
        state,
        nonce,
        subs,
        id_asked,
        info_asked,
        ..
    } = wish;
    (redirect.as_str().len() as u64)
        .saturating_add(text_bytes(state))
        .saturating_add(text_bytes(nonce))
        .saturating_add(texts_bytes_if(subs))
        .saturating_add(texts_bytes(id_asked))
        .saturating_add(texts_bytes(info_asked))
}

fn verdict_bytes(verdict: &Verdict) -> u64
    ensures { result ≡ told_weight (spec.verdict_bytes verdict.now) }
{
    match verdict {
        Verdict::Page(_) => 0,
        Verdict::Refuse(refusal) => {
            (refusal.redirect.as_str().len() as u64).saturating_add(text_bytes(&refusal.state))
        }
        Verdict::Grant(wish) => wish_bytes(wish),
    }
}

fn grant_bytes(grant: &Result<Grant, GrantNo>) -> u64
    ensures { result ≡ told_weight (spec.grant_bytes grant.now) }
{
    match grant {
        Ok(grant) => {
            (grant.code.as_str().len() as u64).saturating_add(grant.redirect.as_str().len() as u64)
        }
        Err(GrantNo::Twice(name) | GrantNo::Missing(name)) => name.as_str().len() as u64,
        Err(_) => 0,
    }
}

impl Weighed for OpAsk {
    ghost use Rattle.std.proofs.Math.Nat.{le-add_right};
    ghost use Rattle.sso_base.specs.Weights.{empty_weight};

    ghost weighs = { spec.ask_weight };

    fn weight(&self) -> Result<u64, NoMemory> {
        let bytes = match self {
            OpAsk::Authorize { verdict, .. } => verdict_bytes(verdict),
            OpAsk::Token { grant } => grant_bytes(grant),
            _ => 0,
        };
        Ok(bytes.saturating_add(EMPTY_WEIGHT))
    }

    ghost least = { λ asked. le-add_right empty_weight (spec.ask_bytes asked) };
}

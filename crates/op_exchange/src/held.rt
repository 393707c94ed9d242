// The bytes of the texts that rows hold because of a request. Sums saturate at the greatest number of 64 bits.

ghost use Rattle.std.specs.Prelude.{◌≡◌};
ghost use Rattle.sso_base.specs.Weights.{told_weight};
ghost use Rattle.op_exchange.specs.Held as spec;

use crate::ask::OpAsk;
use auth_request::{Verdict, Wish};
use sso_base::{MOST_HELD, Texts, text_bytes, texts_bytes};

fn listed_bytes(texts: &Texts) -> u64
    ensures { result ≡ told_weight (spec.listed_bytes texts.now) }
{
    texts_bytes(texts).saturating_add(texts.count() as u64)
}

fn listed_bytes_if(texts: &Option<Texts>) -> u64
    ensures { result ≡ told_weight (spec.listed_bytes_if texts.now) }
{
    match texts {
        Some(texts) => listed_bytes(texts),
        None => 0,
    }
}

fn wish_held(wish: &Wish) -> u64
    ensures { result ≡ told_weight (spec.wish_held wish.now) }
{
    let Wish {
        redirect,
        state,
        nonce,
        subs,
        id_asked,
        info_asked,
        ..
    } = wish;
    (redirect.as_str().len() as u64)
        .saturating_add(text_bytes(state))
        .saturating_add(text_bytes(nonce))
        .saturating_add(listed_bytes_if(subs))
        .saturating_add(listed_bytes(id_asked))
        .saturating_add(listed_bytes(info_asked))
}

fn verdict_held(verdict: &Verdict) -> u64
    ensures { result ≡ told_weight (spec.verdict_held verdict.now) }
{
    match verdict {
        Verdict::Grant(wish) => wish_held(wish),
        _ => 0,
    }
}

fn held_bytes(ask: &OpAsk) -> u64
    ensures { result ≡ told_weight (spec.held_bytes ask.now) }
{
    match ask {
        OpAsk::Authorize { verdict, .. } => verdict_held(verdict),
        _ => 0,
    }
}

/// Whether the rows that hold texts of this request hold at most 1,536 bytes of them.
pub fn is_small(ask: &OpAsk) -> bool
    ensures { result ≡ spec.is_small ask.now }
{
    held_bytes(ask) <= MOST_HELD
}

// The weight of a request. Sums saturate at the greatest number of 64 bits.

ghost use Rattle.std.specs.Prelude.{◌≡◌, length, IfOk};
ghost use Rattle.sso_base.specs.Weights.{told_weight};
ghost use Rattle.rp_exchange.specs.Weight as spec;

use crate::ask::RpAsk;
use auth_answer::{AnswerNo, Heard};
use claim_set::{ClaimNo, write_claims};
use id_token::{IdClaims, IdNo};
use logout_token::{LogoutClaims, LogoutNo};
use sso_base::{EMPTY_WEIGHT, NoMemory, Text, Weighed, text_bytes, texts_bytes};
use token_endpoint::{Tokens, TokensNo};
use userinfo::InfoNo;

fn bytes_of(text: &Text) -> u64
    ensures { result ≡ told_weight (length text.now) }
{
    text.as_str().len() as u64
}

// The claims of an ID Token that are fields.
fn field_bytes(claims: &IdClaims) -> u64
    ensures { result ≡ told_weight (spec.field_bytes claims.now) }
{
    bytes_of(&claims.iss)
        .saturating_add(bytes_of(&claims.sub))
        .saturating_add(texts_bytes(&claims.aud))
        .saturating_add(text_bytes(&claims.azp))
        .saturating_add(text_bytes(&claims.nonce))
        .saturating_add(text_bytes(&claims.sid))
        .saturating_add(text_bytes(&claims.at_hash))
        .saturating_add(text_bytes(&claims.c_hash))
}

fn id_bytes(claims: &IdClaims) -> Result<u64, NoMemory>
    ensures { IfOk result (λ n. n ≡ told_weight (spec.id_bytes claims.now)) }
{
    let more = write_claims(&claims.more)?;
    Ok(field_bytes(claims).saturating_add(more.as_bytes().len() as u64))
}

fn claims_refused_bytes(why: &ClaimNo) -> u64
    ensures { result ≡ told_weight (spec.claims_refused_bytes why.now) }
{
    match why {
        ClaimNo::WrongKind(name) => bytes_of(name),
        _ => 0,
    }
}

fn id_refused_bytes(why: &IdNo) -> u64
    ensures { result ≡ told_weight (spec.id_refused_bytes why.now) }
{
    match why {
        IdNo::Claims(why) => claims_refused_bytes(why),
        IdNo::Missing(name) => bytes_of(name),
        _ => 0,
    }
}

fn id_read_bytes(id: &Option<Result<IdClaims, IdNo>>) -> Result<u64, NoMemory>
    ensures { IfOk result (λ n. n ≡ told_weight (spec.id_read_bytes id.now)) }
{
    match id {
        Some(Ok(claims)) => id_bytes(claims),
        Some(Err(why)) => Ok(id_refused_bytes(why)),
        None => Ok(0),
    }
}

fn heard_bytes(heard: &Result<Heard, AnswerNo>) -> u64
    ensures { result ≡ told_weight (spec.heard_bytes heard.now) }
{
    match heard {
        Ok(heard) => text_bytes(&heard.code)
            .saturating_add(text_bytes(&heard.access))
            .saturating_add(text_bytes(&heard.id)),
        Err(AnswerNo::Twice(name)) => bytes_of(name),
        Err(AnswerNo::NoMemory) => 0,
    }
}

fn tokens_refused_bytes(why: &TokensNo) -> u64
    ensures { result ≡ told_weight (spec.tokens_refused_bytes why.now) }
{
    match why {
        TokensNo::Claims(why) => claims_refused_bytes(why),
        TokensNo::Missing(name) => bytes_of(name),
        _ => 0,
    }
}

fn tokens_bytes(tokens: &Result<Tokens, TokensNo>) -> u64
    ensures { result ≡ told_weight (spec.tokens_bytes tokens.now) }
{
    match tokens {
        Ok(tokens) => bytes_of(&tokens.access).saturating_add(bytes_of(&tokens.id)),
        Err(why) => tokens_refused_bytes(why),
    }
}

fn info_bytes(sub: &Result<Text, InfoNo>) -> u64
    ensures { result ≡ told_weight (spec.info_bytes sub.now) }
{
    match sub {
        Ok(sub) => bytes_of(sub),
        Err(InfoNo::Claims(why)) => claims_refused_bytes(why),
        Err(_) => 0,
    }
}

fn logout_refused_bytes(why: &LogoutNo) -> u64
    ensures { result ≡ told_weight (spec.logout_refused_bytes why.now) }
{
    match why {
        LogoutNo::Claims(why) => claims_refused_bytes(why),
        LogoutNo::Missing(name) => bytes_of(name),
        _ => 0,
    }
}

fn logout_bytes(claims: &Result<LogoutClaims, LogoutNo>) -> u64
    ensures { result ≡ told_weight (spec.logout_bytes claims.now) }
{
    match claims {
        Ok(claims) => bytes_of(&claims.iss)
            .saturating_add(texts_bytes(&claims.aud))
            .saturating_add(bytes_of(&claims.jti))
            .saturating_add(text_bytes(&claims.sub))
            .saturating_add(text_bytes(&claims.sid)),
        Err(why) => logout_refused_bytes(why),
    }
}

fn ask_bytes(ask: &RpAsk) -> Result<u64, NoMemory>
    ensures { IfOk result (λ n. n ≡ told_weight (spec.ask_bytes ask.now)) }
{
    Ok(match ask {
        RpAsk::Callback { heard, id, .. } => heard_bytes(heard).saturating_add(id_read_bytes(id)?),
        RpAsk::Tokens { tokens, id, .. } => tokens_bytes(tokens).saturating_add(id_read_bytes(id)?),
        RpAsk::Info { sub, .. } => info_bytes(sub),
        RpAsk::Logout { claims } => logout_bytes(claims),
        _ => 0,
    })
}

impl Weighed for RpAsk {
    ghost use Rattle.std.proofs.Math.Nat.{le-add_right};
    ghost use Rattle.sso_base.specs.Weights.{empty_weight};

    ghost weighs = { spec.ask_weight };

    // The claims of an ID Token that are not fields weigh as much as their text, which needs memory.
    fn weight(&self) -> Result<u64, NoMemory> {
        Ok(ask_bytes(self)?.saturating_add(EMPTY_WEIGHT))
    }

    ghost least = { λ asked. le-add_right empty_weight (spec.ask_bytes asked) };
}

// What the types of an `RpAsk` say about its values, for the proofs: texts are UTF-8, words have 32 bytes, and numbers their size.

ghost use Rattle.std.specs.Prelude.{◌<◌, ◌^◌};
ghost use Rattle.sso_base.specs.Legal.{IsEntry};
ghost use Rattle.rp_exchange.specs.Values as spec;

use crate::ask::RpAsk;
use auth_answer::{AnswerNo, Heard};
use claim_set::{ClaimNo, know_claims};
use id_token::{IdClaims, IdNo};
use logout_token::{LogoutClaims, LogoutNo};
use sso_base::{
    Entry, Text, know_entry, know_number, know_number_if, know_text_if, know_texts, know_word,
    know_word_if,
};
use token_endpoint::{Tokens, TokensNo};
use userinfo::InfoNo;

// A status has 16 bits.
fn know_status(status: u16)
    ensures { status < 2 ^ 16 }
{}

fn know_claim_no(why: &ClaimNo)
    ensures { spec.IsClaimNoValue why.now }
{
    if let ClaimNo::WrongKind(name) = why {
        let _name = name.as_str();
    }
}

fn know_heard(heard: &Result<Heard, AnswerNo>)
    ensures { spec.IsHeardRead heard.now }
{
    match heard {
        Ok(heard) => {
            know_word_if(&heard.state);
            know_text_if(&heard.code);
            know_text_if(&heard.access);
            know_text_if(&heard.id);
        }
        Err(AnswerNo::Twice(name)) => {
            let _name = name.as_str();
        }
        Err(AnswerNo::NoMemory) => {}
    }
}

fn know_id_claims(claims: &IdClaims)
    ensures { spec.IsIdValue claims.now }
{
    let _iss = claims.iss.as_str();
    let _sub = claims.sub.as_str();
    know_texts(&claims.aud);
    know_text_if(&claims.azp);
    know_number(claims.exp);
    know_number(claims.iat);
    know_number_if(claims.auth_time);
    know_text_if(&claims.nonce);
    know_text_if(&claims.sid);
    know_text_if(&claims.at_hash);
    know_text_if(&claims.c_hash);
    know_claims(&claims.more);
}

fn know_id_no(why: &IdNo)
    ensures { spec.IsIdNoValue why.now }
{
    match why {
        IdNo::Claims(why) => know_claim_no(why),
        IdNo::Missing(name) => {
            let _name = name.as_str();
        }
        IdNo::Expired(moment) | IdNo::TooOld(moment) | IdNo::FromFuture(moment) => {
            know_number(*moment)
        }
        _ => {}
    }
}

fn know_id(id: &Option<Result<IdClaims, IdNo>>)
    ensures { spec.IsIdRead id.now }
{
    match id {
        Some(Ok(claims)) => know_id_claims(claims),
        Some(Err(why)) => know_id_no(why),
        None => {}
    }
}

fn know_tokens_no(why: &TokensNo)
    ensures { spec.IsTokensNoValue why.now }
{
    match why {
        TokensNo::Status(status) => know_status(*status),
        TokensNo::Claims(why) => know_claim_no(why),
        TokensNo::Missing(name) => {
            let _name = name.as_str();
        }
        _ => {}
    }
}

fn know_tokens(tokens: &Result<Tokens, TokensNo>)
    ensures { spec.IsTokensRead tokens.now }
{
    match tokens {
        Ok(tokens) => {
            let _access = tokens.access.as_str();
            let _id = tokens.id.as_str();
        }
        Err(why) => know_tokens_no(why),
    }
}

fn know_subject(sub: &Result<Text, InfoNo>)
    ensures { spec.IsSubRead sub.now }
{
    match sub {
        Ok(sub) => {
            let _sub = sub.as_str();
        }
        Err(InfoNo::Status(status)) => know_status(*status),
        Err(InfoNo::Claims(why)) => know_claim_no(why),
        Err(_) => {}
    }
}

fn know_logout_claims(claims: &LogoutClaims)
    ensures { spec.IsLogoutValue claims.now }
{
    let _iss = claims.iss.as_str();
    know_texts(&claims.aud);
    know_number(claims.iat);
    know_number(claims.exp);
    let _jti = claims.jti.as_str();
    know_text_if(&claims.sub);
    know_text_if(&claims.sid);
}

fn know_logout_no(why: &LogoutNo)
    ensures { spec.IsLogoutNoValue why.now }
{
    match why {
        LogoutNo::Claims(why) => know_claim_no(why),
        LogoutNo::Missing(name) => {
            let _name = name.as_str();
        }
        LogoutNo::Expired(moment) | LogoutNo::TooOld(moment) | LogoutNo::FromFuture(moment) => {
            know_number(*moment)
        }
        _ => {}
    }
}

fn know_logout(claims: &Result<LogoutClaims, LogoutNo>)
    ensures { spec.IsLogoutRead claims.now }
{
    match claims {
        Ok(claims) => know_logout_claims(claims),
        Err(why) => know_logout_no(why),
    }
}

// An `RpAsk` holds values of their types.
fn know_ask(ask: &RpAsk)
    ensures { spec.IsRpAsk ask.now }
{
    match ask {
        RpAsk::Begin { browser } => know_word_if(browser),
        RpAsk::Callback { heard, id, browser } => {
            know_heard(heard);
            know_id(id);
            know_word_if(browser);
        }
        RpAsk::Tokens {
            pending,
            tokens,
            id,
        } => {
            know_word(pending);
            know_tokens(tokens);
            know_id(id);
        }
        RpAsk::Info { pending, sub } => {
            know_word(pending);
            know_subject(sub);
        }
        RpAsk::Visit { session } | RpAsk::Leave { session } => know_word_if(session),
        RpAsk::Logout { claims } => know_logout(claims),
        RpAsk::Fragment | RpAsk::NotHere => {}
    }
}

/// An entry has a moment and four words, and its request has values of their types. This is for the proofs: the call does
/// nothing.
pub fn know_rp_entry(entry: &Entry<RpAsk>)
    ensures { IsEntry spec.IsRpAsk entry.now }
{
    know_entry(entry);
    know_ask(&entry.ask);
}

// Whether a request or a response can produce a value: it contains no `NoMemory`, and an ID Token was read if and only if there
// is one.

ghost use Rattle.std.specs.Prelude.{◌≡◌, Option};
ghost use Rattle.sso_base.specs.Words.{Word};
ghost use Rattle.rp_exchange.specs.declared.ask.RpAsk.TheVariants as ask;
ghost use Rattle.rp_exchange.specs.Asks as spec;

use auth_answer::{AnswerNo, Heard};
use claim_set::ClaimNo;
use id_token::{IdClaims, IdNo};
use jws_compact::JwsNo;
use logout_token::{LogoutClaims, LogoutNo};
use rp_exchange::RpAsk;
use sso_base::Text;
use token_endpoint::{Tokens, TokensNo};
use userinfo::InfoNo;

fn is_id_refusal(why: &IdNo) -> bool
    ensures { result ≡ spec.is_id_refusal why.now }
{
    !matches!(
        why,
        IdNo::NoMemory | IdNo::Jws(JwsNo::NoMemory) | IdNo::Claims(ClaimNo::NoMemory)
    )
}

fn is_tokens_refusal(why: &TokensNo) -> bool
    ensures { result ≡ spec.is_tokens_refusal why.now }
{
    !matches!(
        why,
        TokensNo::NoMemory | TokensNo::Claims(ClaimNo::NoMemory)
    )
}

fn is_info_refusal(why: &InfoNo) -> bool
    ensures { result ≡ spec.is_info_refusal why.now }
{
    !matches!(why, InfoNo::NoMemory | InfoNo::Claims(ClaimNo::NoMemory))
}

fn is_logout_refusal(why: &LogoutNo) -> bool
    ensures { result ≡ spec.is_logout_refusal why.now }
{
    !matches!(
        why,
        LogoutNo::NoMemory | LogoutNo::Jws(JwsNo::NoMemory) | LogoutNo::Claims(ClaimNo::NoMemory)
    )
}

fn is_id_read(id: &Result<IdClaims, IdNo>) -> bool
    ensures { result ≡ spec.is_id_read id.now }
{
    match id {
        Ok(_) => true,
        Err(why) => is_id_refusal(why),
    }
}

// An ID Token was read if and only if its text is present.
fn is_read_of(text: &Option<Text>, id: &Option<Result<IdClaims, IdNo>>) -> bool
    ensures { result ≡ spec.is_read_of text.now id.now }
{
    match (text, id) {
        (None, None) => true,
        (None, Some(_)) | (Some(_), None) => false,
        (Some(_), Some(id)) => is_id_read(id),
    }
}

fn is_callback(heard: &Result<Heard, AnswerNo>, id: &Option<Result<IdClaims, IdNo>>) -> bool
    ensures { (browser : Option Word) → result ≡ spec.is_prepared (ask.Callback heard.now id.now browser) }
{
    match heard {
        Ok(heard) => is_read_of(&heard.id, id),
        Err(AnswerNo::Twice(_)) => id.is_none(),
        Err(AnswerNo::NoMemory) => false,
    }
}

fn is_token_answer(tokens: &Result<Tokens, TokensNo>, id: &Option<Result<IdClaims, IdNo>>) -> bool
    ensures { (pending : Word) → result ≡ spec.is_prepared (ask.Tokens pending tokens.now id.now) }
{
    match tokens {
        Ok(_) => match id {
            Some(id) => is_id_read(id),
            None => false,
        },
        Err(why) => is_tokens_refusal(why) && id.is_none(),
    }
}

fn is_info_read(sub: &Result<Text, InfoNo>) -> bool
    ensures { result ≡ spec.is_info_read sub.now }
{
    match sub {
        Ok(_) => true,
        Err(why) => is_info_refusal(why),
    }
}

fn is_logout_read(claims: &Result<LogoutClaims, LogoutNo>) -> bool
    ensures { result ≡ spec.is_logout_read claims.now }
{
    match claims {
        Ok(claims) => claims.sub.is_some() || claims.sid.is_some(),
        Err(why) => is_logout_refusal(why),
    }
}

/// Whether a request or a response can produce the value.
pub fn is_prepared(ask: &RpAsk) -> bool
    ensures { result ≡ spec.is_prepared ask.now }
{
    match ask {
        RpAsk::Callback { heard, id, .. } => is_callback(heard, id),
        RpAsk::Tokens { tokens, id, .. } => is_token_answer(tokens, id),
        RpAsk::Info { sub, .. } => is_info_read(sub),
        RpAsk::Logout { claims } => is_logout_read(claims),
        _ => true,
    }
}

// The printed names of errors: the error's own name, then that of the wrapped error.

ghost use Rattle.std.specs.Prelude.{◌≡◌, ◌++◌, IfOk};
ghost use Rattle.rp_response.specs.Refusals as spec;

use claim_set::ClaimNo;
use http_reply::concatenated;
use id_token::IdNo;
use logout_token::LogoutNo;
use oidc_words::error_text;
use rp_exchange::RpNo;
use sso_base::{NoMemory, Text};
use std::alloc::Global;
use token_endpoint::TokensNo;
use userinfo::InfoNo;

// The name of an error of claims that is wrapped in another.
fn claim_name(why: &ClaimNo) -> &'static str
    ensures { result.now ≡ spec.claim_name why.now }
{
    match why {
        ClaimNo::NoMemory => "NoMemory",
        ClaimNo::NotJson => "NotJson",
        ClaimNo::NotObject => "NotObject",
        ClaimNo::WrongKind(_) => "WrongKind",
    }
}

// The name of an error of an ID Token, and that of the wrapped error. The same is true below.
fn id_words(why: &IdNo) -> (&'static str, &'static str)
    ensures { result.0.now ++ result.1.now ≡ spec.id_words why.now }
{
    match why {
        IdNo::NoMemory => ("NoMemory", ""),
        IdNo::Jws(why) => ("Jws ", why.name()),
        IdNo::Claims(why) => ("Claims ", claim_name(why)),
        IdNo::Missing(_) => ("Missing", ""),
        IdNo::Issuer => ("Issuer", ""),
        IdNo::Audience => ("Audience", ""),
        IdNo::Azp => ("Azp", ""),
        IdNo::Expired(_) => ("Expired", ""),
        IdNo::TooOld(_) => ("TooOld", ""),
        IdNo::FromFuture(_) => ("FromFuture", ""),
        IdNo::Nonce => ("Nonce", ""),
        IdNo::AuthTime => ("AuthTime", ""),
        IdNo::TokenHash => ("TokenHash", ""),
        IdNo::CodeHash => ("CodeHash", ""),
    }
}

// The names of an error of a token response.
fn tokens_words(why: &TokensNo) -> (&'static str, &'static str)
    ensures { result.0.now ++ result.1.now ≡ spec.tokens_words why.now }
{
    match why {
        TokensNo::Status(_) => ("Status", ""),
        TokensNo::Claims(why) => ("Claims ", claim_name(why)),
        TokensNo::Missing(_) => ("Missing", ""),
        TokensNo::NotBearer => ("NotBearer", ""),
        TokensNo::NoMemory => ("NoMemory", ""),
    }
}

// The names of an error of a UserInfo response.
fn info_words(why: &InfoNo) -> (&'static str, &'static str)
    ensures { result.0.now ++ result.1.now ≡ spec.info_words why.now }
{
    match why {
        InfoNo::NoMemory => ("NoMemory", ""),
        InfoNo::Status(_) => ("Status", ""),
        InfoNo::Claims(why) => ("Claims ", claim_name(why)),
        InfoNo::NoSub => ("NoSub", ""),
    }
}

// The names of an error of a logout token.
fn logout_words(why: &LogoutNo) -> (&'static str, &'static str)
    ensures { result.0.now ++ result.1.now ≡ spec.logout_words why.now }
{
    match why {
        LogoutNo::NoMemory => ("NoMemory", ""),
        LogoutNo::Jws(why) => ("Jws ", why.name()),
        LogoutNo::Claims(why) => ("Claims ", claim_name(why)),
        LogoutNo::WrongTyp => ("WrongTyp", ""),
        LogoutNo::Missing(_) => ("Missing", ""),
        LogoutNo::NoEvent => ("NoEvent", ""),
        LogoutNo::HasNonce => ("HasNonce", ""),
        LogoutNo::NamesNobody => ("NamesNobody", ""),
        LogoutNo::Issuer => ("Issuer", ""),
        LogoutNo::Audience => ("Audience", ""),
        LogoutNo::Expired(_) => ("Expired", ""),
        LogoutNo::TooOld(_) => ("TooOld", ""),
        LogoutNo::FromFuture(_) => ("FromFuture", ""),
    }
}

// The name of an error, and that of the wrapped error.
fn told(alloc: Global, first: &str, own: &str, inside: &str) -> Result<Text, NoMemory>
    ensures { IfOk result (λ t. t ≡ first.now ++ (own.now ++ inside.now)) }
{
    let words = concatenated(alloc, own, inside)?;
    concatenated(alloc, first, words.as_str())
}

// The line of an error.
pub(crate) fn refusal_line(alloc: Global, why: &RpNo) -> Result<Text, NoMemory>
    ensures { IfOk result (λ t. t ≡ spec.refusal_line why.now) }
{
    match why {
        RpNo::Twice(_) => Text::new(alloc, "refused Twice"),
        RpNo::NoState => Text::new(alloc, "refused NoState"),
        RpNo::StaleLogin => Text::new(alloc, "refused StaleLogin"),
        RpNo::WrongBrowser => Text::new(alloc, "refused WrongBrowser"),
        RpNo::Provider(code) => concatenated(alloc, "refused Provider ", error_text(*code)),
        RpNo::Missing(_) => Text::new(alloc, "refused Missing"),
        RpNo::Id(why) => {
            let (own, inside) = id_words(why);
            told(alloc, "refused Id ", own, inside)
        }
        RpNo::StalePending => Text::new(alloc, "refused StalePending"),
        RpNo::Tokens(why) => {
            let (own, inside) = tokens_words(why);
            told(alloc, "refused Tokens ", own, inside)
        }
        RpNo::Info(why) => {
            let (own, inside) = info_words(why);
            told(alloc, "refused Info ", own, inside)
        }
        RpNo::SubjectDiffers => Text::new(alloc, "refused SubjectDiffers"),
        RpNo::Full(_) => Text::new(alloc, "refused Full"),
        RpNo::Logout(why) => {
            let (own, inside) = logout_words(why);
            told(alloc, "refused Logout ", own, inside)
        }
        RpNo::Seen(_) => Text::new(alloc, "refused Seen"),
        RpNo::EndedSid(_) => Text::new(alloc, "refused EndedSid"),
    }
}

// Logout tokens.

use crate::ids::told_sealed;
use case_lines::{
    claim_refusal, given_text, given_texts, moment, told, told_refusal, told_text, told_texts,
};
use jws_compact::{Typ, seal};
use logout_token::{LogoutClaims, LogoutNo, judge_logout, read_logout, seal_logout, written_len};
use sso_base::{Moment, NoMemory, Text, Texts};
use std::alloc::Global;

/// The answer of a call of this module; none if the call is another module's.
pub fn answer(alloc: Global, fields: &[&str]) -> Option<Result<String, NoMemory>> {
    match fields {
        ["check logout token", at, claims] => Some(check(alloc, at, claims)),
        ["read logout token", key, text] => Some(read(alloc, key, text)),
        ["seal logout token", key, issuer, clients, subject, session] => {
            Some(told_sealed(
                alloc,
                &seal_parts(alloc, key, issuer, clients, subject, session),
            ))
        }
        _ => None,
    }
}

// The name of a refusal, and a detail: the name of a claim, or of an inner refusal.
fn refusal(why: &LogoutNo) -> (&str, &str) {
    match why {
        LogoutNo::NoMemory => ("no memory", ""),
        LogoutNo::Jws(why) => ("Jws", why.name()),
        LogoutNo::Claims(why) => claim_refusal(why),
        LogoutNo::WrongTyp => ("WrongTyp", ""),
        LogoutNo::Missing(name) => ("Missing", name.as_str()),
        LogoutNo::NoEvent => ("NoEvent", ""),
        LogoutNo::HasNonce => ("HasNonce", ""),
        LogoutNo::NamesNobody => ("NamesNobody", ""),
        LogoutNo::Issuer => ("Issuer", ""),
        LogoutNo::Audience => ("Audience", ""),
        LogoutNo::Expired(_) => ("Expired", ""),
        LogoutNo::TooOld(_) => ("TooOld", ""),
        LogoutNo::FromFuture(_) => ("FromFuture", ""),
    }
}

// A refusal, with its moment or its detail.
fn refused(alloc: Global, why: &LogoutNo) -> Result<String, NoMemory> {
    let (name, what) = refusal(why);
    match why {
        LogoutNo::Expired(moment) | LogoutNo::TooOld(moment) | LogoutNo::FromFuture(moment) => {
            Ok(format!(in alloc; "{name} {moment}")?)
        }
        _ => told_refusal(alloc, (name, what)),
    }
}

fn judged(alloc: Global, claims: &LogoutClaims, at: Moment) -> Result<String, NoMemory> {
    let (issuer, client) = (Text::new(alloc, "i")?, Text::new(alloc, "c")?);
    match judge_logout(&issuer, &client, claims, at) {
        Ok(()) => told(alloc, "good"),
        Err(why) => refused(alloc, &why),
    }
}

fn read_and_judged(alloc: Global, text: &Text, at: Moment) -> Result<String, NoMemory> {
    let answer = read_logout(alloc, b"key", text.as_str().as_bytes());
    match &answer {
        Ok(claims) => judged(alloc, claims, at),
        Err(why) => refused(alloc, why),
    }
}

// `check logout token|AT|CLAIMS`: the claims are sealed as a logout token, read again, and verified by the client `c` of the
// provider `i` at the moment AT.
fn check(alloc: Global, at: &str, claims: &str) -> Result<String, NoMemory> {
    match moment(at) {
        Some(at) if claims.len() <= 6000 => {
            let text = seal(alloc, b"key", Typ::LogoutJwt, claims.as_bytes())?;
            read_and_judged(alloc, &text, at)
        }
        _ => told(alloc, "not to be sealed"),
    }
}

// All claims.
fn told_claims(alloc: Global, claims: &LogoutClaims) -> Result<String, NoMemory> {
    let aud = told_texts(alloc, &claims.aud)?;
    let sub = told_text(alloc, &claims.sub)?;
    let sid = told_text(alloc, &claims.sid)?;
    let (iss, jti) = (claims.iss.as_str(), claims.jti.as_str());
    let (iat, exp) = (claims.iat, claims.exp);
    Ok(format!(in alloc;
        "iss {iss:?}, aud {aud}, iat {iat}, exp {exp}, jti {jti:?}, sub {sub}, sid {sid}"
    )?)
}

/// The claims, or the refusal.
pub fn told_read(
    alloc: Global,
    answer: &Result<LogoutClaims, LogoutNo>,
) -> Result<String, NoMemory> {
    match answer {
        Ok(claims) => told_claims(alloc, claims),
        Err(why) => refused(alloc, why),
    }
}

// `read logout token|KEY|TEXT`: the claims.
fn read(alloc: Global, key: &str, text: &str) -> Result<String, NoMemory> {
    let answer = read_logout(alloc, key.as_bytes(), text.as_bytes());
    told_read(alloc, &answer)
}

// The claims' length and the logout token. `None` if it names nobody, or the claims are too long.
fn sealed_claims(
    alloc: Global,
    key: &[u8],
    issuer: Text,
    clients: Texts,
    jti: Text,
    (subject, session): (Option<Text>, Option<Text>),
) -> Result<Option<(usize, Text)>, NoMemory> {
    let names = subject.is_some() || session.is_some();
    let claims = LogoutClaims {
        iss: issuer,
        aud: clients,
        iat: 1000,
        exp: 1120,
        jti,
        sub: subject,
        sid: session,
    };
    let length = written_len(alloc, &claims)?;
    if length > 6000 || !names {
        return Ok(None);
    }
    Ok(Some((length, seal_logout(alloc, key, &claims)?)))
}

/// The logout token, issued at 1000 until 1120 as `j`, and the number of bytes of its claims.
pub fn seal_parts(
    alloc: Global,
    key: &str,
    issuer: &str,
    clients: &str,
    subject: &str,
    session: &str,
) -> Result<Option<(usize, Text)>, NoMemory> {
    let issuer = Text::new(alloc, issuer)?;
    let jti = Text::new(alloc, "j")?;
    let clients = given_texts(alloc, clients, ',')?;
    let optional = (given_text(alloc, subject)?, given_text(alloc, session)?);
    sealed_claims(alloc, key.as_bytes(), issuer, clients, jti, optional)
}

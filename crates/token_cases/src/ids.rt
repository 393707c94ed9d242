// ID Tokens.

use crate::claims;
use case_lines::{
    claim_refusal, given_text, moment, told, told_bytes, told_number, told_refusal, told_text,
    told_texts, told_truth, written,
};
use claim_set::ClaimSet;
use id_token::{
    Half, IdClaims, IdNo, IdRules, check_id, half_hash, is_subject, judge_id, read_id, seal_id,
    written_len,
};
use jws_compact::{Typ, seal};
use sso_base::{Moment, NoMemory, Text, Texts};
use std::alloc::Global;

/// The answer of a call of this module; none if the call is another module's.
pub fn answer(alloc: Global, fields: &[&str]) -> Option<Result<String, NoMemory>> {
    match fields {
        ["check", key, at, claims] => Some(check(alloc, key, at, claims)),
        ["subject", text] => Some(subject(alloc, text)),
        ["half", text] => Some(half(alloc, text)),
        ["seal ID Token", key, issuer, subject, session, hash] => {
            Some(told_sealed(
                alloc,
                &seal_parts(alloc, key, issuer, subject, session, hash),
            ))
        }
        ["read ID Token", key, text] => Some(read(alloc, key, text)),
        ["judge ID Token", key, text, at] => Some(judge(alloc, key, text, at)),
        _ => None,
    }
}

/// The rules of the client `c` of the provider `i`, which sent its request at 1000, with the nonce `n`, and nothing else.
pub fn plain_rules(alloc: Global) -> Result<IdRules, NoMemory> {
    Ok(IdRules {
        issuer: Text::new(alloc, "i")?,
        client: Text::new(alloc, "c")?,
        nonce: Text::new(alloc, "n")?,
        begun: Moment::new(1000).unwrap(),
        max_age: None,
        token: Half::Free,
        code: Half::Free,
    })
}

// The same for a client that requested a login within 100 seconds, and has a code and an access token.
fn rules(alloc: Global) -> Result<IdRules, NoMemory> {
    let mut rules = plain_rules(alloc)?;
    rules.max_age = Some(100);
    rules.token = Half::Must(*b"0123456789012345678901");
    rules.code = Half::IfThere(*b"abcdefghijklmnopqrstuv");
    Ok(rules)
}

// The name of a refusal, and a detail: the name of a claim, or of an inner refusal.
fn refusal(why: &IdNo) -> (&str, &str) {
    match why {
        IdNo::NoMemory => ("no memory", ""),
        IdNo::Jws(why) => ("Jws", why.name()),
        IdNo::Claims(why) => claim_refusal(why),
        IdNo::Missing(name) => ("Missing", name.as_str()),
        IdNo::Issuer => ("Issuer", ""),
        IdNo::Audience => ("Audience", ""),
        IdNo::Azp => ("Azp", ""),
        IdNo::Expired(_) => ("Expired", ""),
        IdNo::TooOld(_) => ("TooOld", ""),
        IdNo::FromFuture(_) => ("FromFuture", ""),
        IdNo::Nonce => ("Nonce", ""),
        IdNo::AuthTime => ("AuthTime", ""),
        IdNo::TokenHash => ("TokenHash", ""),
        IdNo::CodeHash => ("CodeHash", ""),
    }
}

/// A refusal, with its moment or its detail.
pub fn refused(alloc: Global, why: &IdNo) -> Result<String, NoMemory> {
    let (name, what) = refusal(why);
    match why {
        IdNo::Expired(moment) | IdNo::TooOld(moment) | IdNo::FromFuture(moment) => {
            Ok(format!(in alloc; "{name} {moment}")?)
        }
        _ => told_refusal(alloc, (name, what)),
    }
}

/// The subject, or the refusal.
pub fn told_subject(alloc: Global, answer: &Result<IdClaims, IdNo>) -> Result<String, NoMemory> {
    match answer {
        Ok(claims) => Ok(format!(in alloc; "subject {:?}", claims.sub.as_str())?),
        Err(why) => refused(alloc, why),
    }
}

fn checked(
    alloc: Global,
    rules: &IdRules,
    key: &str,
    token: &Text,
    at: Moment,
) -> Result<String, NoMemory> {
    let answer = check_id(alloc, rules, key.as_bytes(), token.as_str().as_bytes(), at);
    told_subject(alloc, &answer)
}

// `check|KEY|AT|CLAIMS`: the claims are sealed under `key`, and checked under KEY at the moment AT.
fn check(alloc: Global, key: &str, at: &str, claims: &str) -> Result<String, NoMemory> {
    match moment(at) {
        Some(at) if claims.len() <= 6000 => {
            let token = seal(alloc, b"key", Typ::Jwt, claims.as_bytes())?;
            checked(alloc, &rules(alloc)?, key, &token, at)
        }
        _ => told(alloc, "not to be sealed"),
    }
}

// `subject|TEXT`: whether a text is a valid subject.
fn subject(alloc: Global, field: &str) -> Result<String, NoMemory> {
    let text = Text::from_string(written(alloc, field)?);
    told_truth(alloc, is_subject(&text))
}

// `half|TEXT`: the half hash of a text.
fn half(alloc: Global, text: &str) -> Result<String, NoMemory> {
    told_bytes(alloc, &half_hash(text.as_bytes()))
}

/// The client `c` only.
pub fn audience(alloc: Global) -> Result<Texts, NoMemory> {
    let mut clients = Texts::new(alloc);
    clients.push(Text::new(alloc, "c")?)?;
    Ok(clients)
}

// The claims' length and the ID Token. `None` if the subject is not valid, or the claims are too long.
fn sealed_claims(
    alloc: Global,
    key: &[u8],
    issuer: Text,
    subject: Text,
    clients: Texts,
    nonce: Text,
    (session, hash): (Option<Text>, Option<Text>),
) -> Result<Option<(usize, Text)>, NoMemory> {
    let claims = IdClaims {
        iss: issuer,
        sub: subject,
        aud: clients,
        azp: None,
        exp: 1300,
        iat: 1000,
        auth_time: Some(990),
        nonce: Some(nonce),
        sid: session,
        at_hash: hash,
        c_hash: None,
        more: ClaimSet::new(alloc),
    };
    let length = written_len(&claims)?;
    if length > 6000 || !is_subject(&claims.sub) {
        return Ok(None);
    }
    Ok(Some((length, seal_id(alloc, key, &claims)?)))
}

/// The ID Token of the issuer for the client `c`, and the number of bytes of its claims. It is for a login at 990, issued at
/// 1000 until 1300, with the nonce `n`.
pub fn seal_parts(
    alloc: Global,
    key: &str,
    issuer: &str,
    subject: &str,
    session: &str,
    hash: &str,
) -> Result<Option<(usize, Text)>, NoMemory> {
    let issuer = Text::new(alloc, issuer)?;
    let subject = Text::new(alloc, subject)?;
    let nonce = Text::new(alloc, "n")?;
    let clients = audience(alloc)?;
    let optional = (given_text(alloc, session)?, given_text(alloc, hash)?);
    sealed_claims(
        alloc,
        key.as_bytes(),
        issuer,
        subject,
        clients,
        nonce,
        optional,
    )
}

/// `seal ID Token|KEY|ISSUER|SUBJECT|SESSION|HASH`, and the same for logout tokens: the number of bytes of the claims, and the
/// token.
pub fn told_sealed(
    alloc: Global,
    sealed: &Result<Option<(usize, Text)>, NoMemory>,
) -> Result<String, NoMemory> {
    match sealed {
        Ok(Some((length, text))) => Ok(format!(in alloc; "{length} bytes, {}", text.as_str())?),
        Ok(None) => told(alloc, "not to be sealed"),
        Err(_) => Err(NoMemory),
    }
}

// The other claims of an ID Token.
fn told_hashes(alloc: Global, claims: &IdClaims) -> Result<String, NoMemory> {
    let at_hash = told_text(alloc, &claims.at_hash)?;
    let c_hash = told_text(alloc, &claims.c_hash)?;
    let more = claims::written(alloc, &claims.more)?;
    Ok(format!(in alloc; "at_hash {at_hash}, c_hash {c_hash}, more {more}")?)
}

fn told_session(alloc: Global, claims: &IdClaims) -> Result<String, NoMemory> {
    let azp = told_text(alloc, &claims.azp)?;
    let sid = told_text(alloc, &claims.sid)?;
    let nonce = told_text(alloc, &claims.nonce)?;
    let time = told_number(alloc, claims.auth_time)?;
    Ok(format!(in alloc; "azp {azp}, sid {sid}, nonce {nonce}, auth_time {time}")?)
}

// All claims.
fn told_claims(alloc: Global, claims: &IdClaims) -> Result<String, NoMemory> {
    let aud = told_texts(alloc, &claims.aud)?;
    let session = told_session(alloc, claims)?;
    let hashes = told_hashes(alloc, claims)?;
    let (iss, sub) = (claims.iss.as_str(), claims.sub.as_str());
    let (iat, exp) = (claims.iat, claims.exp);
    Ok(format!(in alloc;
        "iss {iss:?}, sub {sub:?}, aud {aud}, iat {iat}, exp {exp}, {session}, {hashes}"
    )?)
}

// `read ID Token|KEY|TEXT`: the claims.
fn read(alloc: Global, key: &str, text: &str) -> Result<String, NoMemory> {
    let answer = read_id(alloc, key.as_bytes(), text.as_bytes());
    match &answer {
        Ok(claims) => told_claims(alloc, claims),
        Err(why) => refused(alloc, why),
    }
}

fn judged(alloc: Global, claims: &IdClaims, at: Moment) -> Result<String, NoMemory> {
    match judge_id(&rules(alloc)?, claims, at) {
        Ok(()) => told(alloc, "good"),
        Err(why) => refused(alloc, &why),
    }
}

// `judge ID Token|KEY|TEXT|AT`: the result of verifying the claims at the moment AT.
fn judge(alloc: Global, key: &str, text: &str, at: &str) -> Result<String, NoMemory> {
    let Some(at) = moment(at) else {
        return told(alloc, "no moment");
    };
    let answer = read_id(alloc, key.as_bytes(), text.as_bytes());
    match &answer {
        Ok(claims) => judged(alloc, claims, at),
        Err(why) => refused(alloc, why),
    }
}

// The tokens of the table `party`, sealed under the secret of the client of a party, or under its old secret if `old ` stands
// before the name of the token.
//
// An ID Token is written `PARTY,AUDIENCE,SUBJECT,NONCE,ISSUED,ACCESS`. It is for AUDIENCE, issued at ISSUED and valid for 300
// seconds. Its nonce is the text of word number NONCE, its `at_hash` that of the access token ACCESS, and its subject SUBJECT.
// Each is absent if it is written `-`. After it there may be `code=CODE`, for the `c_hash` of that code, `sid=SID` and
// `iss=ISSUER`.
//
// A logout token is written `logout PARTY,ISSUED`. It is for the client of PARTY, issued at ISSUED and valid for 120 seconds,
// has the logout event, and names nobody. After it there may be claims as `NAME=VALUE`, also in place of these. A VALUE that is
// a number or begins with a brace is used unchanged, any other is a text, and `-` omits the claim.
//
// The issuer of either is that of the cases if none is written.

use crate::setup::LOCAL;
use case_lines::{field, told, word};
use id_token::half_hash;
use jws_compact::{Typ, seal};
use sample_configuration::secret_of;
use sso_base::{NoMemory, Text};
use std::alloc::Global;

const EVENTS: &str = r#"{"http://schemas.openid.net/event/backchannel-logout":{}}"#;

// A logout token whose header has another `typ`, and one whose header has `JWT`, with the claims of `logout
// shop,1000,jti=a,sub=alice` and `logout shop,1000,jti=d,sub=alice`. They are sealed with Python's `hmac` and `base64`.
const OTHER_TYP: &str = "eyJhbGciOiJIUzI1NiIsInR5cCI6ImF0K2p3dCJ9\
     .eyJhdWQiOiJzaG9wLWNsaWVudCIsImV2ZW50cyI6eyJodHRwOi8vc2NoZW1hcy5vcGVuaWQubmV0L2V2ZW50L2JhY2tjaGFubmVsLWxvZ291dCI6e319LCJleHAiOjExM\
     jAsImlhdCI6MTAwMCwiaXNzIjoiaHR0cDovLzEyNy4wLjAuMTo4MDgwIiwianRpIjoiYSIsInN1YiI6ImFsaWNlIn0\
     .yMpx1jR6fAjru856A-5Avg8Lk_6pb1nGoalKHUtCfXI";

const PLAIN_TYP: &str = "eyJhbGciOiJIUzI1NiIsInR5cCI6IkpXVCJ9\
     .eyJhdWQiOiJzaG9wLWNsaWVudCIsImV2ZW50cyI6eyJodHRwOi8vc2NoZW1hcy5vcGVuaWQubmV0L2V2ZW50L2JhY2tjaGFubmVsLWxvZ291dCI6e319LCJleHAiOjExM\
     jAsImlhdCI6MTAwMCwiaXNzIjoiaHR0cDovLzEyNy4wLjAuMTo4MDgwIiwianRpIjoiZCIsInN1YiI6ImFsaWNlIn0\
     .mFo6W7KgjV8nTtm2n0ENDcpzOOTov0bYVWZJYXLkCB8";

/// The constant token with this name.
pub fn named(name: &str) -> Option<&'static str> {
    match name {
        "logout token of another type" => Some(OTHER_TYP),
        "logout token of the type JWT" => Some(PLAIN_TYP),
        _ => None,
    }
}

// ---- members

// The value with this name among `NAME=VALUE`.
fn among<'a>(members: &[&'a str], name: &str) -> Option<&'a str> {
    for member in members {
        if let Some((known, value)) = member.split_once('=') {
            if known == name {
                return Some(value);
            }
        }
    }
    None
}

// Whether the value is used unchanged.
fn is_bare(value: &str) -> bool {
    value.starts_with('{') || value.parse::<u64>().is_ok()
}

// Adds the claim with this name, and a comma, or nothing if the value is `-`.
fn push_claim(alloc: Global, out: &mut String, name: &str, value: &str) -> Result<(), NoMemory> {
    if value == "-" {
        return Ok(());
    }
    let mark = if is_bare(value) { "" } else { "\"" };
    let claim = format!(in alloc; r#""{name}":{mark}{value}{mark},"#)?;
    Ok(out.push_str(claim.as_str())?)
}

// Adds the issuer, and ends the claims.
fn push_issuer(alloc: Global, out: &mut String, members: &[&str]) -> Result<(), NoMemory> {
    let issuer = among(members, "iss").unwrap_or(LOCAL);
    let claim = format!(in alloc; r#""iss":"{issuer}"}}"#)?;
    Ok(out.push_str(claim.as_str())?)
}

// The claims with these names, each with its value among the members if there is one, and the issuer.
fn claims_told(
    alloc: Global,
    members: &[&str],
    claims: &[(&str, &str)],
) -> Result<String, NoMemory> {
    let mut out = told(alloc, "{")?;
    for (name, value) in claims {
        push_claim(alloc, &mut out, name, among(members, name).unwrap_or(value))?;
    }
    push_issuer(alloc, &mut out, members)?;
    Ok(out)
}

// The claims, sealed under a secret of the party's client; none if they are too long.
fn sealed(
    alloc: Global,
    party: &str,
    is_old: bool,
    typ: Typ,
    claims: &str,
) -> Result<Option<Text>, NoMemory> {
    if claims.len() > 6000 {
        return Ok(None);
    }
    let secret = secret_of(alloc, party, is_old)?;
    let token = seal(alloc, secret.as_bytes(), typ, claims.as_bytes())?;
    Ok(Some(token))
}

// ---- ID Tokens

// The half hash of a value, as a text, or `-` if there is no value.
fn half_text<'a>(value: &str, half: &'a [u8; 22]) -> &'a str {
    if value == "-" {
        return "-";
    }
    std::str::from_utf8(half).unwrap_or("no text")
}

// The text of the word with this number, or `-` if it is not a number.
fn nonce_text(alloc: Global, number: &str) -> Result<Text, NoMemory> {
    match number.parse::<u32>() {
        Ok(number) => word(number).to_text(alloc),
        Err(_) => Text::new(alloc, "-"),
    }
}

fn id_claims(
    alloc: Global,
    parts: &[&str],
    members: &[&str],
    issued: u64,
) -> Result<String, NoMemory> {
    let (audience, subject) = (told(alloc, field(parts, 1))?, told(alloc, field(parts, 2))?);
    let (access, code) = (field(parts, 5), among(members, "code").unwrap_or("-"));
    let (access_half, code_half) = (half_hash(access.as_bytes()), half_hash(code.as_bytes()));
    let nonce = nonce_text(alloc, field(parts, 3))?;
    let until = issued.saturating_add(300).to_string(alloc)?;
    let issued = issued.to_string(alloc)?;
    let claims = [
        ("at_hash", half_text(access, &access_half)),
        ("aud", audience.as_str()),
        ("c_hash", half_text(code, &code_half)),
        ("exp", until.as_str()),
        ("iat", issued.as_str()),
        ("nonce", nonce.as_str()),
        ("sid", "-"),
        ("sub", subject.as_str()),
    ];
    claims_told(alloc, members, &claims)
}

fn id_token(alloc: Global, is_old: bool, parts: &[&str]) -> Result<Option<Text>, NoMemory> {
    let (Ok(issued), Some(members)) = (field(parts, 4).parse::<u64>(), parts.get(6..)) else {
        return Ok(None);
    };
    let claims = id_claims(alloc, parts, members, issued)?;
    sealed(alloc, field(parts, 0), is_old, Typ::Jwt, claims.as_str())
}

// ---- logout tokens

fn logout_claims(
    alloc: Global,
    party: &str,
    members: &[&str],
    issued: u64,
) -> Result<String, NoMemory> {
    let client = format!(in alloc; "{party}-client")?;
    let until = issued.saturating_add(120).to_string(alloc)?;
    let issued = issued.to_string(alloc)?;
    let claims = [
        ("aud", client.as_str()),
        ("events", EVENTS),
        ("exp", until.as_str()),
        ("iat", issued.as_str()),
        ("jti", "-"),
        ("nonce", "-"),
        ("sid", "-"),
        ("sub", "-"),
    ];
    claims_told(alloc, members, &claims)
}

fn logout_sealed(
    alloc: Global,
    party: &str,
    is_old: bool,
    members: &[&str],
    issued: &str,
) -> Result<Option<Text>, NoMemory> {
    let Ok(issued) = issued.parse::<u64>() else {
        return Ok(None);
    };
    let claims = logout_claims(alloc, party, members, issued)?;
    sealed(alloc, party, is_old, Typ::LogoutJwt, claims.as_str())
}

fn logout_token(alloc: Global, is_old: bool, parts: &[&str]) -> Result<Option<Text>, NoMemory> {
    match parts {
        [party, issued, members @ ..] => logout_sealed(alloc, party, is_old, members, issued),
        _ => Ok(None),
    }
}

// The text after this prefix, and whether it has the prefix.
fn stripped<'a>(text: &'a str, prefix: &str) -> (&'a str, bool) {
    match text.strip_prefix(prefix) {
        Some(rest) => (rest, true),
        None => (text, false),
    }
}

/// The token that is written this way.
pub fn token(alloc: Global, name: &str) -> Result<Option<Text>, NoMemory> {
    let (name, is_old) = stripped(name, "old ");
    let (parts, is_logout) = stripped(name, "logout ");
    let parts: Vec<&str> = parts.split(',').collect(alloc)?;
    if is_logout {
        logout_token(alloc, is_old, parts.as_slice())
    } else {
        id_token(alloc, is_old, parts.as_slice())
    }
}

// The kinds of values at keys, and how a value violates the rule of its key.

ghost use Rattle.std.specs.Prelude.{◌≡◌, ◌≤◌, IfOk, is_some};
ghost use Rattle.std.specs.List.{list_all};
ghost use Rattle.toml.specs.View.{view};
ghost use Rattle.registered_url.specs.Rule.{url_of as url_in};
ghost use Rattle.configuration_rows.specs.Values.{hex_bytes, as_natural};
ghost use Rattle.configuration_rows.specs.Kinds.{allows, is_name, is_within, has_length, text_keeps, passes, unless, are_urls, issuer_breach};
ghost use Rattle.configuration_rows.specs.Kinds.{breach as breach_in};
ghost use Rattle.oidc_words.specs.Types.{is_response_type};

use crate::claims::claims_of;
use crate::values::{hex_of, natural_of, texts_of, url_of};
use oidc_words::{is_one_of, is_prompt, is_scope, number_of_type};
use sso_base::{NoMemory, Text};
use std::alloc::Global;
use toml::Value;

/// The characters of a kind of name.
#[derive(Clone, Copy)]
pub enum Alphabet {
    /// `a-z 0-9 . _ @ -`.
    UserId,
    /// `A-Z a-z 0-9 . _ ~ -`.
    ClientId,
    /// `a-z 0-9`.
    PartyName,
    /// Visible ASCII.
    Visible,
}

/// The rule for a text. Bounds count characters; for hexadecimal digits they count the encoded bytes, and for a title bytes.
#[derive(Clone, Copy)]
pub enum TextRule {
    /// Any text.
    Any,
    /// Only characters of an alphabet.
    Name {
        /// Its characters.
        alphabet: Alphabet,
        /// The fewest.
        least: usize,
        /// The most.
        most: usize,
    },
    /// Hexadecimal digits, two for each byte.
    Hex {
        /// The fewest bytes.
        least: usize,
        /// The most bytes.
        most: usize,
    },
    /// A response type, with its words in any order (OpenID Connect Core 1.0, 3).
    ResponseType,
    /// `public` or `pairwise` (OpenID Connect Core 1.0, 8).
    Subject,
    /// `ask` or `given`.
    Consent,
    /// `new` or `old`.
    Seals,
    /// `stored` or `lasting`.
    History,
    /// `plain` or `full`.
    Pages,
    /// From 1 to 80 bytes.
    Title,
    /// `plain` or `host`.
    Cookies,
    /// Words of `scope`, with `openid` among them.
    Scope,
    /// Words of `prompt` (OpenID Connect Core 1.0, 3.1.2.1).
    Prompt,
}

/// The kind of value that a key accepts.
#[derive(Clone, Copy)]
pub enum Kind {
    /// A text.
    Text(TextRule),
    /// A whole number within these bounds.
    Number {
        /// The smallest.
        least: u64,
        /// The greatest.
        most: u64,
    },
    /// True or false.
    Flag,
    /// A URL of at most 200 bytes without a query (OpenID Connect Discovery 1.0, 3).
    Issuer,
    /// A URL that may be registered.
    Url,
    /// From 1 to 16 URLs.
    Urls,
    /// An array of response types.
    ResponseTypes,
    /// A table of standard claims, each of its kind (OpenID Connect Core 1.0, 5.1).
    Claims,
}

/// How a value violates the rule of its key.
#[derive(Clone, Copy)]
pub enum Breach {
    /// It has another kind, or violates its rule.
    WrongKind,
    /// It violates the rule for URLs.
    BadUrl,
}

fn is_allowed(alphabet: Alphabet, byte: u8) -> bool
    ensures { result ≡ allows alphabet byte }
{
    match alphabet {
        Alphabet::UserId => {
            matches!(byte, b'a'..=b'z' | b'0'..=b'9' | b'.' | b'_' | b'@' | b'-')
        }
        Alphabet::ClientId => {
            matches!(byte, b'A'..=b'Z' | b'a'..=b'z' | b'0'..=b'9' | b'.' | b'_' | b'~' | b'-')
        }
        Alphabet::PartyName => matches!(byte, b'a'..=b'z' | b'0'..=b'9'),
        Alphabet::Visible => 32 < byte && byte < 127,
    }
}

fn is_between(least: usize, most: usize, count: usize) -> bool
    ensures { result ≡ is_within least most count }
{
    least <= count && count <= most
}

fn are_allowed(alphabet: Alphabet, bytes: &[u8]) -> bool
    ensures { result ≡ list_all (allows alphabet) bytes.now }
{
    for &byte in bytes {
        if !is_allowed(alphabet, byte) {
            return false;
        }
    }
    true
}

// Whether the text has only characters of this alphabet, and its length is within these bounds.
fn is_name_of(alphabet: Alphabet, least: usize, most: usize, text: &str) -> bool
    ensures { result ≡ is_name alphabet least most text.now }
{
    let bytes = text.as_bytes();
    is_between(least, most, bytes.len()) && are_allowed(alphabet, bytes)
}

fn is_hex_of(alloc: Global, least: usize, most: usize, text: &str) -> Result<bool, NoMemory>
    ensures { IfOk result (λ b. b ≡ has_length least most (hex_bytes text.now)) }
{
    match hex_of(alloc, text)? {
        Some(bytes) => Ok(is_between(least, most, bytes.len())),
        None => Ok(false),
    }
}

fn keeps(alloc: Global, rule: TextRule, text: &str) -> Result<bool, NoMemory>
    ensures { IfOk result (λ b. b ≡ text_keeps rule text.now) }
{
    match rule {
        TextRule::Any => Ok(true),
        TextRule::Name {
            alphabet,
            least,
            most,
        } => Ok(is_name_of(alphabet, least, most, text)),
        TextRule::Hex { least, most } => is_hex_of(alloc, least, most, text),
        TextRule::ResponseType => Ok(number_of_type(text).is_some()),
        TextRule::Subject => Ok(is_one_of(text, &["public", "pairwise"])),
        TextRule::Consent => Ok(is_one_of(text, &["ask", "given"])),
        TextRule::Seals => Ok(is_one_of(text, &["new", "old"])),
        TextRule::History => Ok(is_one_of(text, &["stored", "lasting"])),
        TextRule::Pages => Ok(is_one_of(text, &["plain", "full"])),
        TextRule::Cookies => Ok(is_one_of(text, &["plain", "host"])),
        TextRule::Title => Ok(is_between(1, 80, text.len())),
        TextRule::Scope => is_scope(alloc, text),
        TextRule::Prompt => is_prompt(alloc, text),
    }
}

fn unless_met(met: bool, why: Breach) -> Option<Breach>
    ensures { result ≡ unless met why }
{
    if met { None } else { Some(why) }
}

// An issuer has at most 200 bytes and no query (OpenID Connect Discovery 1.0, 3).
fn breach_of_issuer(alloc: Global, text: &str) -> Result<Option<Breach>, NoMemory>
    ensures { IfOk result (λ o. o ≡ issuer_breach text.now (url_in text.now)) }
{
    match url_of(alloc, text)? {
        Some(url) => Ok(unless_met(text.len() <= 200 && url.query.is_none(), Breach::WrongKind)),
        None => Ok(Some(Breach::BadUrl)),
    }
}

fn are_all_urls(alloc: Global, texts: &[Text]) -> Result<bool, NoMemory>
    ensures { IfOk result (λ b. b ≡ are_urls texts.now) }
{
    for text in texts {
        if url_of(alloc, text.as_str())?.is_none() {
            return Ok(false);
        }
    }
    Ok(true)
}

fn are_response_types(texts: &[Text]) -> bool
    ensures { result ≡ list_all is_response_type texts.now }
{
    texts
        .iter()
        .all(|text| number_of_type(text.as_str()).is_some())
}

fn breach_of_urls(alloc: Global, value: &Value) -> Result<Option<Breach>, NoMemory>
    ensures { IfOk result (λ o. o ≡ breach_in Kind.Urls (view value.now)) }
{
    match texts_of(alloc, value)? {
        Some(texts) if is_between(1, 16, texts.len()) => {
            Ok(unless_met(are_all_urls(alloc, &texts)?, Breach::BadUrl))
        }
        _ => Ok(Some(Breach::WrongKind)),
    }
}

// The breach of a text; the wrong kind if the value is not a text.
fn breach_of_text(alloc: Global, rule: TextRule, value: &Value) -> Result<Option<Breach>, NoMemory>
    ensures { IfOk result (λ o. o ≡ breach_in (Kind.Text rule) (view value.now)) }
{
    match value.as_str() {
        Some(text) => Ok(unless_met(keeps(alloc, rule, text)?, Breach::WrongKind)),
        None => Ok(Some(Breach::WrongKind)),
    }
}

fn breach_of_types(alloc: Global, value: &Value) -> Result<Option<Breach>, NoMemory>
    ensures { IfOk result (λ o. o ≡ breach_in Kind.ResponseTypes (view value.now)) }
{
    match texts_of(alloc, value)? {
        Some(texts) => Ok(unless_met(are_response_types(&texts), Breach::WrongKind)),
        None => Ok(Some(Breach::WrongKind)),
    }
}

fn is_number(least: u64, most: u64, value: &Value) -> bool
    ensures { result ≡ passes (is_within least most) (as_natural (view value.now)) }
{
    match natural_of(value) {
        Some(number) => least <= number && number <= most,
        None => false,
    }
}

// How the value violates the rule of its key, if it does.
pub(crate) fn breach_of(
    alloc: Global,
    kind: Kind,
    value: &Value,
) -> Result<Option<Breach>, NoMemory>
    ensures { IfOk result (λ o. o ≡ breach_in kind (view value.now)) }
{
    match kind {
        Kind::Text(rule) => breach_of_text(alloc, rule, value),
        Kind::Number { least, most } => Ok(unless_met(
            is_number(least, most, value),
            Breach::WrongKind,
        )),
        Kind::Flag => Ok(unless_met(value.as_bool().is_some(), Breach::WrongKind)),
        Kind::Issuer => match value.as_str() {
            Some(text) => breach_of_issuer(alloc, text),
            None => Ok(Some(Breach::WrongKind)),
        },
        Kind::Url => match value.as_str() {
            Some(text) => Ok(unless_met(url_of(alloc, text)?.is_some(), Breach::BadUrl)),
            None => Ok(Some(Breach::WrongKind)),
        },
        Kind::Urls => breach_of_urls(alloc, value),
        Kind::ResponseTypes => breach_of_types(alloc, value),
        Kind::Claims => {
            let claims = claims_of(alloc, value)?;
            Ok(unless_met(claims.is_some(), Breach::WrongKind))
        }
    }
}

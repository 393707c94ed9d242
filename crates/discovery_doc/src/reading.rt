// Reading a discovery document, or rejecting it for the first reason that applies.

ghost use Rattle.std.specs.Prelude.{true, false, ◌≡◌, ◌⊎◌, Some, None, Ok, Err, IfOk, IfErr, codes};
ghost use Rattle.serde_json.specs.Find.{get_member, as_str};
ghost use Rattle.registered_url.specs.Rule.{url_of};
ghost use Rattle.sso_base.specs.Refusals.{first_refusal};
ghost use Rattle.client_registry.specs.declared.records.Provider.{Provider};
ghost use Rattle.discovery_doc.specs.Document.{IsDocument};
ghost use Rattle.discovery_doc.specs.Reading.{as_texts, member_as, text_in, texts_in, is_bad_url, is_bad_member};
ghost use Rattle.discovery_doc.specs.Reading.{absences, members_read, discovery_read};

use crate::no::DiscNo;
use claim_set::{ClaimNo, ClaimSet, read_claims};
use client_registry::Provider;
use registered_url::{UrlNo, read_url};
use sso_base::{NoMemory, Text, Texts};
use std::alloc::Global;

// The string at a name. The only error is `NoMemory`.
fn text_at(claims: &ClaimSet, name: &str) -> Result<Option<Text>, NoMemory>
    ensures { IfOk result (λ o. o ≡ member_as as_str name.now claims.now) }
{
    match claims.text(name) {
        Ok(text) => Ok(text),
        Err(ClaimNo::NoMemory) => Err(NoMemory),
        Err(_) => Ok(None),
    }
}

// The array of strings at a name. The only error is `NoMemory`.
fn texts_at(claims: &ClaimSet, name: &str) -> Result<Option<Texts>, NoMemory>
    ensures { IfOk result (λ o. o ≡ member_as as_texts name.now claims.now) }
{
    if text_at(claims, name)?.is_some() {
        return Ok(None);
    }
    match claims.texts(name) {
        Ok(texts) => Ok(texts),
        Err(ClaimNo::NoMemory) => Err(NoMemory),
        Err(_) => Ok(None),
    }
}

// Whether the text violates the rule for URLs.
fn breaks_rule(alloc: Global, text: &Text) -> Result<bool, NoMemory>
    ensures { IfOk result (λ b. b ≡ is_bad_url text.now) }
{
    match read_url(alloc, text.as_str()) {
        Ok(_) => Ok(false),
        Err(UrlNo::BadUrl) => Ok(true),
        Err(UrlNo::NoMemory) => Err(NoMemory),
    }
}

// The URL at a name, if the name is present, or the error.
fn url_if_there(alloc: Global, claims: &ClaimSet, name: &str) -> Result<Option<Text>, DiscNo>
    ensures value { IfOk result (λ o. o ≡ member_as as_str name.now claims.now) }
    ensures ok { IfOk result (λ _. is_bad_member (get_member name.now claims.now) ≡ false) }
    ensures err { IfErr result (λ e. (e ≡ DiscNo.NoMemory) ⊎ ((is_bad_member (get_member name.now claims.now) ≡ true) × (e ≡ DiscNo.BadUrl name.now))) }
{
    match text_at(claims, name)? {
        Some(text) => {
            if breaks_rule(alloc, &text)? {
                return Err(DiscNo::BadUrl(Text::new(alloc, name)?));
            }
            Ok(Some(text))
        }
        None => {
            if claims.has(name) {
                return Err(DiscNo::BadUrl(Text::new(alloc, name)?));
            }
            Ok(None)
        }
    }
}

// The required members.
#[derive(Drop)]
struct Required {
    issuer: Text,
    authorize: Text,
    token: Text,
    algorithms: Texts,
}

// The required members, or the error for the first that is absent.
fn required_members(alloc: Global, claims: &ClaimSet) -> Result<Required, DiscNo>
    ensures ok { IfOk result (λ u. first_refusal (absences claims.now) ≡ Ok tt) }
    ensures issuer { IfOk result (λ r. r.issuer ≡ text_in (codes "issuer") claims.now) }
    ensures authorize { IfOk result (λ r. r.authorize ≡ text_in (codes "authorization_endpoint") claims.now) }
    ensures token { IfOk result (λ r. r.token ≡ text_in (codes "token_endpoint") claims.now) }
    ensures algorithms { IfOk result (λ r. r.algorithms ≡ texts_in (codes "id_token_signing_alg_values_supported") claims.now) }
    ensures err { IfErr result (λ e. (e ≡ DiscNo.NoMemory) ⊎ (first_refusal (absences claims.now) ≡ Err e)) }
{
    let Some(issuer) = text_at(claims, "issuer")? else {
        return Err(DiscNo::Missing(Text::new(alloc, "issuer")?));
    };
    let Some(authorize) = text_at(claims, "authorization_endpoint")? else {
        return Err(DiscNo::Missing(Text::new(alloc, "authorization_endpoint")?));
    };
    let Some(token) = text_at(claims, "token_endpoint")? else {
        return Err(DiscNo::Missing(Text::new(alloc, "token_endpoint")?));
    };
    if text_at(claims, "jwks_uri")?.is_none() {
        return Err(DiscNo::Missing(Text::new(alloc, "jwks_uri")?));
    }
    if texts_at(claims, "response_types_supported")?.is_none() {
        return Err(DiscNo::Missing(Text::new(alloc, "response_types_supported")?));
    }
    if texts_at(claims, "subject_types_supported")?.is_none() {
        return Err(DiscNo::Missing(Text::new(alloc, "subject_types_supported")?));
    }
    let Some(algorithms) = texts_at(claims, "id_token_signing_alg_values_supported")? else {
        return Err(DiscNo::Missing(Text::new(alloc, "id_token_signing_alg_values_supported")?));
    };
    Ok(Required {
        issuer,
        authorize,
        token,
        algorithms,
    })
}

// The endpoints in a document, or the first error that applies.
fn provider(alloc: Global, issuer: &Text, claims: &ClaimSet) -> Result<Provider, DiscNo>
    ensures ok { IfOk result (λ p. members_read issuer.now claims.now ≡ Ok p) }
    ensures err { IfErr result (λ e. (e ≡ DiscNo.NoMemory) ⊎ (members_read issuer.now claims.now ≡ Err e)) }
{
    let required = required_members(alloc, claims)?;
    if required.issuer.as_str() != issuer.as_str() {
        return Err(DiscNo::IssuerDiffers);
    }
    if !required.algorithms.has("HS256") {
        return Err(DiscNo::NoHs256);
    }
    if breaks_rule(alloc, &required.authorize)? {
        return Err(DiscNo::BadUrl(Text::new(alloc, "authorization_endpoint")?));
    }
    if breaks_rule(alloc, &required.token)? {
        return Err(DiscNo::BadUrl(Text::new(alloc, "token_endpoint")?));
    }
    let userinfo = url_if_there(alloc, claims, "userinfo_endpoint")?;
    let Required {
        issuer,
        authorize,
        token,
        ..
    } = required;
    Ok(Provider {
        issuer,
        authorize,
        token,
        userinfo,
    })
}

// The endpoints in the document that the bytes are, or the first error that applies.
#[tactic(auto, unfolding(crate::specs::Reading::discovery_read))]
fn judged(alloc: Global, issuer: &Text, bytes: &[u8]) -> Result<Provider, DiscNo>
    ensures ok { IfOk result (λ p. discovery_read issuer.now bytes.now ≡ Ok p) }
    ensures err { IfErr result (λ e. (e ≡ DiscNo.NoMemory) ⊎ (discovery_read issuer.now bytes.now ≡ Err e)) }
{
    match read_claims(alloc, bytes) {
        Ok(claims) => provider(alloc, issuer, &claims),
        Err(ClaimNo::NoMemory) => Err(DiscNo::NoMemory),
        Err(_) => Err(DiscNo::NotObject),
    }
}

/// The endpoints of the provider with this issuer, from its discovery document (OpenID Connect Discovery 1.0, 4.3).
///
/// Accepts exactly the documents of this issuer's provider. For any other bytes it returns the first error that applies, in the
/// order of [`DiscNo`]. If `userinfo_endpoint` is absent, the provider has none. Other members are ignored.
pub fn read_discovery(alloc: Global, issuer: &Text, bytes: &[u8]) -> Result<Provider, DiscNo>
    ensures answers { IfOk result (λ p. discovery_read issuer.now bytes.now ≡ Ok p) }
    ensures document { IfOk result (λ p. IsDocument issuer.now bytes.now p) }
    ensures accepts { (p : Provider) → IsDocument issuer.now bytes.now p → IfErr result (λ e. e ≡ DiscNo.NoMemory) }
    ensures value { (p : Provider) → IsDocument issuer.now bytes.now p → IfOk result (λ q. q ≡ p) }
    ensures refuses { IfErr result (λ e. (e ≡ DiscNo.NoMemory) ⊎ (discovery_read issuer.now bytes.now ≡ Err e)) }
{
    judged(alloc, issuer, bytes)
}

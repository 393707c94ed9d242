// Writes and reads discovery documents (OpenID Connect Discovery 1.0, 4).

use crate::registries::sample::DOCUMENT;
use case_lines::{told, told_refusal};
use claim_set::{ClaimNo, ClaimSet, read_claims, write_claims};
use client_registry::{Provider, Registry};
use discovery_doc::{DiscNo, print_discovery, read_discovery};
use sso_base::{Blob, NoMemory, Text};
use std::alloc::Global;

/// `document`: the document of the sample's provider.
pub fn document(alloc: Global, registry: &Registry) -> Result<String, NoMemory> {
    let text = print_discovery(alloc, registry)?;
    told(alloc, text.as_str())
}

// The name of a refusal, and the member that it names.
fn refusal(why: &DiscNo) -> (&str, &str) {
    match why {
        DiscNo::NoMemory => ("NoMemory", ""),
        DiscNo::NotObject => ("NotObject", ""),
        DiscNo::Missing(name) => ("Missing", name.as_str()),
        DiscNo::IssuerDiffers => ("IssuerDiffers", ""),
        DiscNo::NoHs256 => ("NoHs256", ""),
        DiscNo::BadUrl(name) => ("BadUrl", name.as_str()),
    }
}

fn endpoints(alloc: Global, provider: &Provider) -> Result<String, NoMemory> {
    let (issuer, authorize) = (provider.issuer.as_str(), provider.authorize.as_str());
    let token = provider.token.as_str();
    let userinfo = provider.userinfo.as_ref().map_or("-", Text::as_str);
    Ok(format!(in alloc; "{issuer} with {authorize}, {token}, {userinfo}")?)
}

fn told_provider(alloc: Global, answer: &Result<Provider, DiscNo>) -> Result<String, NoMemory> {
    match answer {
        Ok(provider) => endpoints(alloc, provider),
        Err(why) => told_refusal(alloc, refusal(why)),
    }
}

fn read(alloc: Global, issuer: &str, document: &[u8]) -> Result<String, NoMemory> {
    let issuer = Text::new(alloc, issuer)?;
    let answer = read_discovery(alloc, &issuer, document);
    told_provider(alloc, &answer)
}

/// `discovery|ISSUER|TEXT`: the issuer and the authorization, token and UserInfo endpoints in a text that was fetched for
/// this issuer, or why it is refused.
pub fn discovery(alloc: Global, issuer: &str, text: &str) -> Result<String, NoMemory> {
    read(alloc, issuer, text.as_bytes())
}

// The document, with more members at its end.
fn document_with(alloc: Global, members: &str) -> Result<String, NoMemory> {
    let open = DOCUMENT.strip_suffix("}").unwrap_or(DOCUMENT);
    Ok(format!(in alloc; "{open},{members}}}")?)
}

// The claims of the document. Of several members with the same name, the last counts.
fn document_claims(alloc: Global, members: &str) -> Result<ClaimSet, ClaimNo> {
    match case_lines::given(members) {
        Some(members) => read_claims(alloc, document_with(alloc, members)?.as_bytes()),
        None => read_claims(alloc, DOCUMENT.as_bytes()),
    }
}

fn written_less(claims: &mut ClaimSet, name: &str) -> Result<Blob, NoMemory> {
    claims.remove(name);
    write_claims(claims)
}

fn read_less(alloc: Global, claims: &mut ClaimSet, name: &str) -> Result<String, NoMemory> {
    let text = written_less(claims, name)?;
    read(alloc, "http://127.0.0.1:8080", text.as_bytes())
}

/// `less|NAME|MEMBERS`: the sample's document, read for its issuer, with these members in place of its own and without the one
/// with this name.
pub fn less(alloc: Global, name: &str, members: &str) -> Result<String, NoMemory> {
    match document_claims(alloc, members) {
        Ok(mut claims) => read_less(alloc, &mut claims, name),
        Err(_) => told(alloc, "no claims"),
    }
}

// Scope values, and the claims that they request.

use case_lines::{given_texts, scopes, told_scopes, told_truth, written};
use oidc_words::{Scopes, is_standard_claim};
use sso_base::NoMemory;
use std::alloc::Global;

// The single scope values that request a claim.
fn askers(name: &str) -> Scopes {
    Scopes {
        openid: Scopes::among(&["openid"]).ask_for(name),
        profile: Scopes::among(&["profile"]).ask_for(name),
        email: Scopes::among(&["email"]).ask_for(name),
        address: Scopes::among(&["address"]).ask_for(name),
        phone: Scopes::among(&["phone"]).ask_for(name),
    }
}

/// `claim|NAME`: the scope values that hold the claim, those that each request it, and whether it is a standard claim.
pub fn claim(alloc: Global, name: &str) -> Result<String, NoMemory> {
    let name = written(alloc, name)?;
    let holders = told_scopes(alloc, Scopes::with_claim(name.as_str()))?;
    let askers = told_scopes(alloc, askers(name.as_str()))?;
    let is_standard = is_standard_claim(name.as_str());
    Ok(format!(in alloc; "held by {holders}, asked for by {askers}, standard {is_standard}")?)
}

/// `claims|NAMES`: the scope values that hold one of these claims.
pub fn claims(alloc: Global, names: &str) -> Result<String, NoMemory> {
    let names = given_texts(alloc, names, ' ')?;
    told_scopes(alloc, Scopes::with_claims(&names))
}

/// `asks|SCOPES|NAME`: whether these scope values request the claim.
pub fn asks(alloc: Global, words: &str, name: &str) -> Result<String, NoMemory> {
    told_truth(alloc, scopes(alloc, words)?.ask_for(name))
}

/// `joined|SCOPES|SCOPES`: the scope values of either.
pub fn joined(alloc: Global, one: &str, other: &str) -> Result<String, NoMemory> {
    told_scopes(alloc, scopes(alloc, one)?.joined(scopes(alloc, other)?))
}

/// `covers|SCOPES|SCOPES`: whether each of the second is one of the first.
pub fn covers(alloc: Global, one: &str, other: &str) -> Result<String, NoMemory> {
    told_truth(alloc, scopes(alloc, one)?.covers(scopes(alloc, other)?))
}

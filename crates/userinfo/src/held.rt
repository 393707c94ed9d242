// The claims that are returned about a user.

ghost use Rattle.std.specs.Prelude.{◌≡◌, ◌<◌, length, Ok, IfOk};
ghost use Rattle.claim_set.specs.Claims.{member_names};
ghost use Rattle.claim_set.specs.Fitting.{InOrder};
ghost use Rattle.client_registry.specs.Registered.{HoldsClaims};
ghost use Rattle.userinfo.specs.Held.{is_wanted as is_wanted_claim, members_with, text_claims as claims_of_text, held_members, info_members};

use claim_set::{ClaimNo, ClaimSet, read_claims};
use client_registry::Registry;
use oidc_words::{Scopes, is_standard_claim};
use sso_base::{Blob, NoMemory, Texts};
use std::alloc::Global;

// Whether the claim is wanted.
fn is_wanted(scopes: Scopes, asked: &Texts, name: &str) -> bool
    ensures { result ≡ is_wanted_claim scopes asked.now name.now }
{
    scopes.ask_for(name) || (is_standard_claim(name) && asked.has(name))
}

// The only error is `NoMemory`.
fn as_memory(error: ClaimNo) -> NoMemory
    requires { error ≡ ClaimNo.NoMemory }
{
    let _ = error;
    NoMemory
}

// The claims of a user's text.
#[tactic(auto, using(crate::proofs::UserTexts::same_claims))]
fn text_claims(alloc: Global, text: &Blob) -> Result<ClaimSet, NoMemory>
    requires { HoldsClaims text.now }
    ensures { IfOk result (λ c. c ≡ claims_of_text text.now) }
{
    match read_claims(alloc, text.as_bytes()) {
        Ok(claims) => Ok(claims),
        Err(error) => Err(as_memory(error)),
    }
}

// Removes the unwanted claims, given the names of all claims.
#[tactic(auto, using(sso_base::proofs::ListSteps::drop_at, crate::proofs::Sifting::sifted_all))]
fn take_unwanted(claims: &mut ClaimSet, names: &Texts, scopes: Scopes, asked: &Texts)
    requires same { names.now ≡ member_names claims.old }
    requires in_order { InOrder claims.old }
    ensures { claims.new ≡ members_with (is_wanted_claim scopes asked.now) claims.old }
{
    for place in 0..names.count() {
        let name = names.at(place);
        if !is_wanted(scopes, asked, name) {
            claims.remove(name);
        }
    }
}

// The wanted claims in a user's text.
#[tactic(auto, using(crate::proofs::UserTexts::in_order))]
fn wanted_claims(
    alloc: Global,
    text: &Blob,
    scopes: Scopes,
    asked: &Texts,
) -> Result<ClaimSet, NoMemory>
    requires { HoldsClaims text.now }
    ensures { IfOk result (λ c. c ≡ members_with (is_wanted_claim scopes asked.now) (claims_of_text text.now)) }
{
    let mut claims = text_claims(alloc, text)?;
    let names = claims.names()?;
    take_unwanted(&mut claims, &names, scopes, asked);
    Ok(claims)
}

/// The user's wanted claims: those that a scope value requests (OpenID Connect Core 1.0, 5.4), and those that are requested by
/// name (5.5). A claim that the user does not have is left out. Only standard claims are included. So the set has none of a
/// token's own claims, such as `sub`.
#[tactic(auto, unfolding(crate::specs::Held::held_members, crate::specs::Held::user_claims))]
pub fn held_claims(
    alloc: Global,
    registry: &Registry,
    user: u32,
    scopes: &Scopes,
    asked: &Texts,
) -> Result<ClaimSet, NoMemory>
    requires { user < length registry.now.users }
    ensures { IfOk result (λ c. c ≡ held_members registry.now user scopes.now asked.now) }
{
    // The contract of `users` states the invariant of every registry: its users' texts are claims.
    let _users = registry.users();
    wanted_claims(alloc, &registry.user(user).claims, *scopes, asked)
}

/// The UserInfo claims of a user for a client (OpenID Connect Core 1.0, 5.3.2): `sub`, the user's subject at the client, and
/// the user's wanted claims, as in [`held_claims`].
#[tactic(auto, unfolding(crate::specs::Held::info_members))]
pub fn info_claims(
    alloc: Global,
    registry: &Registry,
    client: u32,
    user: u32,
    scopes: &Scopes,
    asked: &Texts,
) -> Result<ClaimSet, NoMemory>
    requires client { client < length registry.now.clients }
    requires user { user < length registry.now.users }
    ensures { IfOk result (λ c. c ≡ info_members registry.now client user scopes.now asked.now) }
{
    let mut claims = held_claims(alloc, registry, user, scopes, asked)?;
    claims.put_text("sub", registry.subject(client, user).as_str())?;
    Ok(claims)
}

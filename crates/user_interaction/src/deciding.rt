// The need of a request.

ghost use Rattle.std.specs.Prelude.{◌≡◌, ◌<◌, length, option_map};
ghost use Rattle.user_interaction.specs.Need as spec;

use crate::need::Need;
use crate::standing::Standing;
use auth_request::Wish;
use client_registry::Registry;
use oidc_words::{AuthError, Scopes};
use sso_base::{Moment, Text, Texts};

/// The scope values that a consent to the wish covers: those that it names, and those of the claims that it requests (OpenID
/// Connect Core 1.0, 5.4 and 5.5).
#[tactic(auto, unfolding(crate::specs::Need::needed_scopes))]
pub fn needed_scopes(wish: &Wish) -> Scopes
    ensures { result ≡ spec.needed_scopes wish.now }
{
    let asked = Scopes::with_claims(&wish.id_asked).joined(Scopes::with_claims(&wish.info_asked));
    wish.scopes.joined(asked)
}

// Whether the age is above the allowed maximum.
fn is_older(most: Option<u64>, age: u64) -> bool
    ensures { result ≡ spec.is_older most age }
{
    match most {
        Some(most) => age > most,
        None => false,
    }
}

fn is_in_turn(standing: Option<&Standing>) -> bool
    ensures { result ≡ spec.is_in_turn (option_map (λ s. s.now) standing.entry) }
{
    match standing {
        Some(standing) => standing.in_turn,
        None => false,
    }
}

// Whether the login is older than the wish allows.
fn is_late(wish: &Wish, standing: Option<&Standing>, at: Moment) -> bool
    ensures { result ≡ spec.is_late wish.now (option_map (λ s. s.now) standing.entry) at }
{
    match standing {
        Some(standing) => {
            let age = at.seconds().saturating_sub(standing.auth_time);
            !standing.in_turn && is_older(wish.max_age, age)
        }
        None => false,
    }
}

fn is_none_of(sub: &Text, subs: &Option<Texts>) -> bool
    ensures { result ≡ spec.is_none_of sub.now subs.now }
{
    match subs {
        Some(subs) => !subs.has(sub.as_str()),
        None => false,
    }
}

// Whether the wish requests particular users, and this is none of them.
fn is_foreign(registry: &Registry, wish: &Wish, standing: Option<&Standing>) -> bool
    requires client { wish.now.client < length registry.now.clients }
    requires user { spec.IsUserOf registry.now (option_map (λ s. s.now) standing) }
    ensures { result ≡ spec.is_foreign registry.now wish.now (option_map (λ s. s.now) standing.entry) }
{
    match standing {
        Some(standing) => is_none_of(registry.subject(wish.client, standing.user), &wish.subs),
        None => false,
    }
}

// Whether a consent is required that was not given.
fn is_unagreed(registry: &Registry, wish: &Wish, standing: Option<&Standing>) -> bool
    requires client { wish.now.client < length registry.now.clients }
    ensures { result ≡ spec.is_unagreed registry.now wish.now (option_map (λ s. s.now) standing.entry) }
{
    match standing {
        Some(standing) => {
            let granted = standing.granted;
            let missing = wish.consent || !granted.covers(needed_scopes(wish)) || !granted.openid;
            registry.client(wish.client).asks_consent && !standing.agreed && missing
        }
        None => false,
    }
}

/// What a request still needs from the user at a moment: the first case that applies (OpenID Connect Core 1.0, 3.1.2.1 to
/// 3.1.2.4). It allocates nothing and never fails.
#[tactic(auto, unfolding(crate::specs::Need::needed))]
pub fn decide(registry: &Registry, wish: &Wish, standing: Option<&Standing>, at: Moment) -> Need
    requires client { wish.now.client < length registry.now.clients }
    requires user { spec.IsUserOf registry.now (option_map (λ s. s.now) standing) }
    ensures { result ≡ spec.needed registry.now wish.now (option_map (λ s. s.now) standing.entry) at }
{
    let late = is_late(wish, standing, at);
    let foreign = is_foreign(registry, wish, standing);
    let unagreed = is_unagreed(registry, wish, standing);
    if wish.none && (standing.is_none() || late || foreign) {
        Need::Error(AuthError::LoginRequired)
    } else if wish.none && unagreed {
        Need::Error(AuthError::ConsentRequired)
    } else if standing.is_none() {
        Need::Login
    } else if !is_in_turn(standing) && (wish.login || late || foreign) {
        Need::Login
    } else if foreign {
        Need::Error(AuthError::AccessDenied)
    } else if unagreed {
        Need::Consent
    } else {
        Need::Answer
    }
}

// The needs of requests before they are answered.

use crate::requests::judgement::judged;
use auth_request::{Verdict, Wish};
use case_lines::{moment, scopes, told, told_scopes};
use client_registry::Registry;
use oidc_words::error_text;
use sso_base::{Moment, NoMemory};
use std::alloc::Global;
use user_interaction::{Need, Standing, decide, needed_scopes};

// The session in a field: `session`, then `in_turn`, `agreed` and the granted scope values.
fn standing(alloc: Global, session: &str) -> Result<Option<Standing>, NoMemory> {
    let Some(words) = session.strip_prefix("session") else {
        return Ok(None);
    };
    Ok(Some(Standing {
        user: 0,
        auth_time: 1000,
        in_turn: words.contains("in_turn"),
        agreed: words.contains("agreed"),
        granted: scopes(alloc, words)?,
    }))
}

// The need of an accepted request at a registry that has its client and its user.
fn decided(
    registry: &Registry,
    wish: &Wish,
    standing: Option<Standing>,
    at: Moment,
) -> Option<Need> {
    if wish.client >= registry.clients() {
        return None;
    }
    match standing {
        Some(standing) if standing.user < registry.users() => {
            Some(decide(registry, wish, Some(&standing), at))
        }
        Some(_) => None,
        None => Some(decide(registry, wish, None, at)),
    }
}

fn told_need(alloc: Global, need: Option<Need>) -> Result<String, NoMemory> {
    match need {
        Some(Need::Login) => told(alloc, "Login"),
        Some(Need::Consent) => told(alloc, "Consent"),
        Some(Need::Answer) => told(alloc, "Answer"),
        Some(Need::Error(code)) => told(alloc, error_text(code)),
        None => told(alloc, "no client or user"),
    }
}

// The verification of the good request for `openid profile`, with changes.
fn judged_profile(alloc: Global, registry: &Registry, changes: &str) -> Result<Verdict, NoMemory> {
    let changes = format!(in alloc; "scope=openid profile&{changes}")?;
    judged(alloc, registry, changes.as_str())
}

fn need_of(
    alloc: Global,
    registry: &Registry,
    verdict: &Verdict,
    (session, at): (&str, Moment),
) -> Result<String, NoMemory> {
    match verdict {
        Verdict::Grant(wish) => {
            let need = decided(registry, wish, standing(alloc, session)?, at);
            told_need(alloc, need)
        }
        _ => told(alloc, "not granted"),
    }
}

/// `need|CHANGES|SESSION|AT`: the need of the good request for `openid profile` with these changes, at this moment.
pub fn need(
    alloc: Global,
    registry: &Registry,
    changes: &str,
    session: &str,
    at: &str,
) -> Result<String, NoMemory> {
    let Some(at) = moment(at) else {
        return told(alloc, "no moment");
    };
    let verdict = judged_profile(alloc, registry, changes)?;
    need_of(alloc, registry, &verdict, (session, at))
}

fn scopes_of(alloc: Global, verdict: &Verdict) -> Result<String, NoMemory> {
    match verdict {
        Verdict::Grant(wish) => told_scopes(alloc, needed_scopes(wish)),
        _ => told(alloc, "not granted"),
    }
}

/// `needed_scopes|CHANGES`: the scope values of a consent to the good request for `openid profile` with these changes.
pub fn scopes_needed(
    alloc: Global,
    registry: &Registry,
    changes: &str,
) -> Result<String, NoMemory> {
    let verdict = judged_profile(alloc, registry, changes)?;
    scopes_of(alloc, &verdict)
}

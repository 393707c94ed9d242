// Refresh requests.

ghost use Rattle.std.specs.Prelude.{◌≡◌, ◌⊎◌, Ok, Err, IfOk, IfErr};
ghost use Rattle.std.specs.Option.{option_copied};
ghost use Rattle.refresh_request.specs.Reading as spec;

use client_registry::Registry;
use refresh_answer::RefreshGrant;
use request_params::{Pair, read_pairs, value_of};
use sso_base::{NoMemory, Text};
use std::alloc::Global;
use token_endpoint::{GrantNo, is_other, read_client};

// The refresh request of the client with this number, from its parameters.
#[tactic(auto, unfolding(crate::specs::Reading::token_read))]
fn read_token(alloc: Global, parameters: &[Pair], client: u32) -> Result<RefreshGrant, GrantNo>
    ensures ok { IfOk result (λ g. spec.token_read parameters.now client ≡ Ok g) }
    ensures err { IfErr result (λ e. (e ≡ GrantNo.NoMemory) ⊎ (spec.token_read parameters.now client ≡ Err e)) }
{
    let kind = value_of(parameters, "grant_type");
    if is_other("refresh_token", kind) {
        return Err(GrantNo::OtherGrant);
    }
    if kind.is_none() {
        return Err(GrantNo::Missing(Text::new(alloc, "grant_type")?));
    }
    let Some(token) = value_of(parameters, "refresh_token") else {
        return Err(GrantNo::Missing(Text::new(alloc, "refresh_token")?));
    };
    Ok(RefreshGrant {
        client,
        token: token.copy(alloc)?,
    })
}

// The form of a body; empty if there is none.
fn form_in(body: Option<&[u8]>) -> &[u8]
    ensures { result.now ≡ spec.form_in (option_copied body.entry) }
{
    match body {
        Some(form) => form,
        None => &[],
    }
}

// The refresh request of the client with this number.
fn read_form(alloc: Global, form: &[u8], client: u32) -> Result<RefreshGrant, GrantNo>
    ensures ok { IfOk result (λ g. spec.form_read form.now client ≡ Ok g) }
    ensures err { IfErr result (λ e. (e ≡ GrantNo.NoMemory) ⊎ (spec.form_read form.now client ≡ Err e)) }
{
    let parameters = read_pairs(alloc, form)?;
    read_token(alloc, &parameters, client)
}

// The contents of a refresh request.
#[tactic(auto, unfolding(crate::specs::Reading::refresh_read))]
fn refreshed(
    alloc: Global,
    registry: &Registry,
    auth: Option<&[u8]>,
    body: Option<&[u8]>,
) -> Result<RefreshGrant, GrantNo>
    ensures ok { IfOk result (λ g. spec.refresh_read registry.now (option_copied auth.entry) (option_copied body.entry) ≡ Ok g) }
    ensures err { IfErr result (λ e. (e ≡ GrantNo.NoMemory) ⊎ (spec.refresh_read registry.now (option_copied auth.entry) (option_copied body.entry) ≡ Err e)) }
{
    let client = read_client(alloc, registry, auth, body)?;
    read_form(alloc, form_in(body), client)
}

/// Reads a refresh request (RFC 6749, 6) from its `Authorization` header and its body, a form. The client shows a secret as in
/// [`read_client`].
///
/// The errors of the client come first. Then `grant_type` is present and is not `refresh_token` ([`GrantNo::OtherGrant`]), or a parameter
/// is absent ([`GrantNo::Missing`]): the first of `grant_type` and `refresh_token`. The parameter `scope` is ignored: the response says
/// which scope values the new access token has.
pub fn read_refresh(
    alloc: Global,
    registry: &Registry,
    auth: Option<&[u8]>,
    body: Option<&[u8]>,
) -> Result<RefreshGrant, GrantNo>
    ensures answers { IfOk result (λ g. spec.refresh_read registry.now (option_copied auth.entry) (option_copied body.entry) ≡ Ok g) }
    ensures grant { IfOk result (λ g. spec.IsRefresh registry.now (option_copied auth.entry) (option_copied body.entry) g) }
    ensures refuses { IfErr result (λ e. (e ≡ GrantNo.NoMemory)
        ⊎ (spec.refresh_read registry.now (option_copied auth.entry) (option_copied body.entry) ≡ Err e)) }
{
    refreshed(alloc, registry, auth, body)
}

// How many pairs have the name.
fn count(pairs: &[Pair], name: &str) -> usize
    ensures { result ≡ spec.count name.now pairs.now }
{
    let mut count = 0;
    for pair in pairs {
        if pair.0.as_str() == name {
            count += 1;
        }
    }
    count
}

// Whether the only grant type among the parameters is `refresh_token`.
fn is_refresh_in(pairs: &[Pair]) -> bool
    ensures { result ≡ spec.is_refresh_in pairs.now }
{
    count(pairs, "grant_type") == 1 && !is_other("refresh_token", value_of(pairs, "grant_type"))
}

/// Whether a form of a token request is one of a refresh request: `grant_type` occurs once, and is `refresh_token`.
#[tactic(auto, unfolding(crate::specs::Reading::is_refresh))]
pub fn is_refresh(alloc: Global, form: &[u8]) -> Result<bool, NoMemory>
    ensures { IfOk result (λ b. b ≡ spec.is_refresh form.now) }
{
    let pairs = read_pairs(alloc, form)?;
    Ok(is_refresh_in(&pairs))
}

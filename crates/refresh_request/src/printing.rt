// The bodies of responses with a refresh token.

ghost use Rattle.std.specs.Prelude.{◌≡◌, IfOk};
ghost use Rattle.sso_base.specs.Words.{word_text};
ghost use Rattle.refresh_request.specs.Printing as spec;

use claim_set::{ClaimSet, write_claims};
use oidc_words::{ACCESS_LIFE, BEARER, Scopes};
use sso_base::{Blob, NoMemory, Text, Word};
use std::alloc::Global;

/// The body of a token response for a code with a refresh token (RFC 6749, 5.1; OpenID Connect Core 1.0, 3.1.3.3): a JSON object on one
/// line. It has the members of a token response, and `refresh_token`, the text of the word.
#[tactic(auto, unfolding(crate::specs::Printing::first_text))]
pub fn print_first(
    alloc: Global,
    access: &Word,
    id: &Text,
    refresh: &Word,
) -> Result<Blob, NoMemory>
    ensures { IfOk result (λ b. b ≡ spec.first_text (word_text access.now) id.now (word_text refresh.now)) }
{
    let access = access.to_text(alloc)?;
    let refresh = refresh.to_text(alloc)?;
    let mut set = ClaimSet::new(alloc);
    set.put_text("access_token", access.as_str())?;
    set.put_number("expires_in", ACCESS_LIFE as u64)?;
    set.put_text("id_token", id.as_str())?;
    set.put_text("refresh_token", refresh.as_str())?;
    set.put_text("token_type", BEARER)?;
    write_claims(&set)
}

/// The body of a response to a refresh request (RFC 6749, 5.1 and 6): a JSON object on one line. It has `access_token` and
/// `refresh_token`, the texts of the words, `expires_in`, the life of the access token in seconds, `scope`, and `token_type`, which is
/// `Bearer`.
#[tactic(auto, unfolding(crate::specs::Printing::refreshed_text))]
pub fn print_refreshed(
    alloc: Global,
    access: &Word,
    refresh: &Word,
    scopes: Scopes,
) -> Result<Blob, NoMemory>
    ensures { IfOk result (λ b. b ≡ spec.refreshed_text (word_text access.now) (word_text refresh.now) scopes) }
{
    let access = access.to_text(alloc)?;
    let refresh = refresh.to_text(alloc)?;
    let scope = scopes.to_text(alloc)?;
    let mut set = ClaimSet::new(alloc);
    set.put_text("access_token", access.as_str())?;
    set.put_number("expires_in", ACCESS_LIFE as u64)?;
    set.put_text("refresh_token", refresh.as_str())?;
    set.put_text("scope", scope.as_str())?;
    set.put_text("token_type", BEARER)?;
    write_claims(&set)
}

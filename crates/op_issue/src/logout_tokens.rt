// Logout tokens (OpenID Connect Back-Channel Logout 1.0, 2.4).

ghost use Rattle.std.specs.Prelude.{◌≡◌, ◌<◌, ◌++◌, length, codes, IfOk};
ghost use Rattle.sso_base.specs.Words.{word_text};
ghost use Rattle.op_issue.specs.Issued.{if_wished};
ghost use Rattle.op_issue.specs.Ending.{MayEnd};
ghost use Rattle.op_issue.specs.LogoutTokens as spec;

use crate::id_tokens::audience_of;
use crate::sign_out::SignOut;
use client_registry::Registry;
use logout_token::{LogoutClaims, seal_logout};
use oidc_words::LOGOUT_TOKEN_LIFE;
use sso_base::{NoMemory, Text, Word, know_word};
use std::alloc::Global;

// Two texts with a dot between them.
fn dotted(alloc: Global, first: &str, second: &str) -> Result<Text, NoMemory>
    ensures { IfOk result (λ t. t ≡ first.now ++ codes "." ++ second.now) }
{
    let mut text = String::from_str(alloc, first)?;
    text.push_str(".")?;
    text.push_str(second)?;
    Ok(Text::from_string(text))
}

// The token's own identifier.
fn logout_id(alloc: Global, drawn: &Word, client: u32) -> Result<Text, NoMemory>
    ensures { IfOk result (λ t. t ≡ spec.logout_id drawn.now client) }
{
    let word = drawn.to_text(alloc)?;
    let number = Text::from_string(client.to_string(alloc)?);
    dotted(alloc, word.as_str(), number.as_str())
}

// The name of the session, if it is wanted.
fn sid_if(alloc: Global, wanted: bool, sid: &Word) -> Result<Option<Text>, NoMemory>
    ensures { IfOk result (λ o. o ≡ if_wished wanted (word_text sid.now)) }
{
    if wanted {
        Ok(Some(sid.to_text(alloc)?))
    } else {
        Ok(None)
    }
}

// The claims of the logout token.
#[tactic(auto, unfolding(crate::specs::LogoutTokens::logout_claims))]
fn claims_for(
    alloc: Global,
    registry: &Registry,
    client: u32,
    out: &SignOut,
) -> Result<LogoutClaims, NoMemory>
    requires client { client < length registry.now.clients }
    requires user { out.now.who.user < length registry.now.users }
    ensures { IfOk result (λ x. x ≡ spec.logout_claims registry.now client out.now) }
{
    Ok(LogoutClaims {
        iss: registry.provider().issuer.copy(alloc)?,
        aud: audience_of(alloc, registry, client)?,
        iat: out.at.seconds(),
        exp: out.at.seconds() + LOGOUT_TOKEN_LIFE,
        jti: logout_id(alloc, &out.word, client)?,
        sub: Some(registry.subject(client, out.who.user).copy(alloc)?),
        sid: sid_if(alloc, registry.client(client).logout_session, &out.who.sid)?,
    })
}

// A lemma for the proof of `logout_token_for`. It uses the invariant of the registry and the bounds of moments and words.
fn bounds_of(registry: &Registry, client: u32, out: &SignOut)
    requires client { client < length registry.now.clients }
    requires user { out.now.who.user < length registry.now.users }
    ensures { MayEnd registry.now client out.now }
{
    let _clients = registry.clients();
    know_word(&out.who.sid);
    know_word(&out.word);
    let _at = out.at.seconds();
}

/// The logout token for a client, sealed under the client's sealing secret (OpenID Connect Back-Channel Logout 1.0, 2.4). It is
/// valid for 120 seconds from the moment of the sign-out. It names the user by the subject at the client, and the session if
/// the client requires it. Its own identifier is the text of the word of the sign-out, a dot and the number of the client.
///
/// The client and the user are in the registry. So the claims are never too long.
#[tactic(auto, unfolding(crate::specs::LogoutTokens::issued_logout))]
pub fn logout_token_for(
    alloc: Global,
    registry: &Registry,
    client: u32,
    out: &SignOut,
) -> Result<Text, NoMemory>
    requires client { client < length registry.now.clients }
    requires user { out.now.who.user < length registry.now.users }
    ensures { IfOk result (λ t. t ≡ spec.issued_logout registry.now client out.now) }
{
    bounds_of(registry, client, out);
    let claims = claims_for(alloc, registry, client, out)?;
    let secret = registry.client(client).sealing().as_str();
    seal_logout(alloc, secret.as_bytes(), &claims)
}

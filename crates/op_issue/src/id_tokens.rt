// ID Tokens (OpenID Connect Core 1.0, 2 and 3.1.3.6).

ghost use Rattle.std.specs.Prelude.{◌≡◌, ◌<◌, true, [], ◌∷◌, length, IfOk};
ghost use Rattle.auth_request.specs.Values.{is_short_nonce};
ghost use Rattle.client_registry.specs.Numbers.{client_id};
ghost use Rattle.op_issue.specs.IdTokens.{hash_of, id_scopes, id_claims, issued_id};
ghost use Rattle.op_issue.specs.Issuing.{MayIssue};

use crate::issuing::Authentication;
use auth_request::Wish;
use client_registry::Registry;
use id_token::{IdClaims, half_hash, seal_id};
use oidc_words::{ID_TOKEN_LIFE, Scopes};
use sso_base::{Moment, NoMemory, Text, Texts, Word, copied_text, know_word};
use std::alloc::Global;
use userinfo::held_claims;

// The half digest of the text of the word, if there is one.
fn hash_text(alloc: Global, word: &Option<Word>) -> Result<Option<Text>, NoMemory>
    ensures { IfOk result (λ o. o ≡ hash_of word.now) }
{
    match word {
        None => Ok(None),
        Some(word) => {
            let half = half_hash(&word.text());
            let text = std::str::from_utf8(&half).unwrap();
            Ok(Some(Text::new(alloc, text)?))
        }
    }
}

// The scope values whose claims the ID Token has: those of the wish if no access token is issued with it or for its code.
fn scopes_told(wish: &Wish) -> Scopes
    ensures { result ≡ id_scopes wish.now }
{
    if wish.types.id_token && !wish.types.code && !wish.types.token {
        wish.scopes
    } else {
        Scopes::none()
    }
}

// The client as the only audience (RFC 7519, 4.1.3).
pub(crate) fn audience_of(
    alloc: Global,
    registry: &Registry,
    client: u32,
) -> Result<Texts, NoMemory>
    requires { client < length registry.now.clients }
    ensures { IfOk result (λ t. t ≡ client_id registry.now client ∷ []) }
{
    let mut audience = Texts::new(alloc);
    audience.push(registry.client(client).id.copy(alloc)?)?;
    Ok(audience)
}

// The claims of the ID Token.
#[tactic(auto, unfolding(crate::specs::IdTokens::id_claims))]
fn claims_for(
    alloc: Global,
    registry: &Registry,
    wish: &Wish,
    who: &Authentication,
    at: Moment,
    access: &Option<Word>,
    code: &Option<Word>,
) -> Result<IdClaims, NoMemory>
    requires client { wish.now.client < length registry.now.clients }
    requires user { who.now.user < length registry.now.users }
    ensures { IfOk result (λ x. x ≡ id_claims registry.now wish.now who.now at access.now code.now) }
{
    Ok(IdClaims {
        iss: registry.provider().issuer.copy(alloc)?,
        sub: registry.subject(wish.client, who.user).copy(alloc)?,
        aud: audience_of(alloc, registry, wish.client)?,
        azp: None,
        exp: at.seconds() + ID_TOKEN_LIFE,
        iat: at.seconds(),
        auth_time: Some(who.auth_time.seconds()),
        nonce: copied_text(alloc, &wish.nonce)?,
        sid: Some(who.sid.to_text(alloc)?),
        at_hash: hash_text(alloc, access)?,
        c_hash: hash_text(alloc, code)?,
        more: held_claims(
            alloc,
            registry,
            who.user,
            &scopes_told(wish),
            &wish.id_asked,
        )?,
    })
}

// A lemma for the proof of `id_token_for` about the size of the claims. It uses the invariant of the registry and the bounds of
// moments and words.
fn bounds_of(registry: &Registry, wish: &Wish, who: &Authentication, at: Moment)
    requires client { wish.now.client < length registry.now.clients }
    requires user { who.now.user < length registry.now.users }
    requires nonce { is_short_nonce wish.now.nonce ≡ true }
    ensures { MayIssue registry.now wish.now who.now at }
{
    let _clients = registry.clients();
    know_word(&who.sid);
    let _auth_time = who.auth_time.seconds();
    let _at = at.seconds();
}

/// The ID Token for a wish and the user who logged in, sealed under the client's sealing secret (OpenID Connect Core 1.0, 2 and
/// 3.1.3.6). It is valid for 300 seconds from the moment. It has the half digests of the access token and of the code issued
/// with it, if there are any, and the user's claims that are requested by name. If it is issued alone, it also has those of the
/// scope values (5.4).
///
/// The client and the user are in the registry, and the nonce has at most 255 bytes. So the claims are never too long.
#[tactic(auto, unfolding(crate::specs::IdTokens::issued_id))]
pub fn id_token_for(
    alloc: Global,
    registry: &Registry,
    wish: &Wish,
    who: &Authentication,
    at: Moment,
    access: &Option<Word>,
    code: &Option<Word>,
) -> Result<Text, NoMemory>
    requires client { wish.now.client < length registry.now.clients }
    requires user { who.now.user < length registry.now.users }
    requires nonce { is_short_nonce wish.now.nonce ≡ true }
    ensures { IfOk result (λ t. t ≡ issued_id registry.now wish.now who.now at access.now code.now) }
{
    bounds_of(registry, wish, who, at);
    let claims = claims_for(alloc, registry, wish, who, at, access, code)?;
    let secret = registry.client(wish.client).sealing().as_str();
    seal_id(alloc, secret.as_bytes(), &claims)
}

// Reading a token response, or rejecting it for the first reason that applies.

ghost use Rattle.std.specs.Prelude.{◌≡◌, ◌⊎◌, Ok, Err, IfOk, IfErr, IsFalse};
ghost use Rattle.request_params.specs.Scheme.{is_bearer as is_bearer_type};
ghost use Rattle.token_endpoint.specs.Answer.{raw_in, whole, tokens_in, tokens_read, hides_memory, HasTokens};

use crate::no::TokensNo;
use claim_set::{ClaimNo, ClaimSet, read_claims};
use sso_base::{Answered, Text};
use std::alloc::Global;

/// The tokens of a successful token response (OpenID Connect Core 1.0, 3.1.3.3).
#[derive(Drop)]
pub struct Tokens {
    /// The access token, of the type `Bearer`.
    pub access: Text,
    /// The ID Token, which is not yet verified.
    pub id: Text,
}

// The members; each may be absent.
#[derive(Drop)]
struct RawTokens {
    access: Option<Text>,
    id: Option<Text>,
    kind: Option<Text>,
}

// Reads the members, each of which may be absent, in the order of their names. So the first one of another kind decides.
#[tactic(auto, unfolding(crate::specs::Answer::raw_in))]
fn raw_tokens(claims: &ClaimSet) -> Result<RawTokens, ClaimNo>
    ensures ok { IfOk result (λ r. raw_in claims.now ≡ Ok r) }
    ensures err { IfErr result (λ e. (e ≡ ClaimNo.NoMemory) ⊎ (raw_in claims.now ≡ Err e)) }
{
    let access = claims.text("access_token")?;
    let id = claims.text("id_token")?;
    let kind = claims.text("token_type")?;
    Ok(RawTokens { access, id, kind })
}

// Whether the type of an access token is `Bearer`, in any case.
fn is_bearer(kind: &Text) -> bool
    ensures { result ≡ is_bearer_type kind.now }
{
    kind.as_str().eq_ignore_ascii_case("bearer")
}

// The tokens, if the required members are present.
#[tactic(auto, unfolding(crate::specs::Answer::whole))]
fn whole_tokens(alloc: Global, raw: RawTokens) -> Result<Tokens, TokensNo>
    ensures ok { IfOk result (λ t. whole raw ≡ Ok t) }
    ensures err { IfErr result (λ e. (e ≡ TokensNo.NoMemory) ⊎ (whole raw ≡ Err e)) }
    ensures memory_is_outermost { IfErr result (λ e. IsFalse (hides_memory e)) }
{
    let RawTokens { access, id, kind } = raw;
    let Some(access) = access else {
        return Err(TokensNo::Missing(Text::new(alloc, "access_token")?));
    };
    let Some(kind) = kind else {
        return Err(TokensNo::Missing(Text::new(alloc, "token_type")?));
    };
    let Some(id) = id else {
        return Err(TokensNo::Missing(Text::new(alloc, "id_token")?));
    };
    if !is_bearer(&kind) {
        return Err(TokensNo::NotBearer);
    }
    Ok(Tokens { access, id })
}

// The tokens in a claim set.
#[tactic(auto, unfolding(crate::specs::Answer::tokens_in))]
fn claimed_tokens(alloc: Global, claims: &ClaimSet) -> Result<Tokens, TokensNo>
    ensures ok { IfOk result (λ t. tokens_in claims.now ≡ Ok t) }
    ensures err { IfErr result (λ e. (e ≡ TokensNo.NoMemory) ⊎ (tokens_in claims.now ≡ Err e)) }
    ensures memory_is_outermost { IfErr result (λ e. IsFalse (hides_memory e)) }
{
    let raw = raw_tokens(claims)?;
    whole_tokens(alloc, raw)
}

// The tokens in a response.
#[tactic(auto, unfolding(crate::specs::Answer::tokens_read))]
fn answered_tokens(alloc: Global, answer: &Answered) -> Result<Tokens, TokensNo>
    ensures ok { IfOk result (λ t. tokens_read answer.now ≡ Ok t) }
    ensures err { IfErr result (λ e. (e ≡ TokensNo.NoMemory) ⊎ (tokens_read answer.now ≡ Err e)) }
    ensures memory_is_outermost { IfErr result (λ e. IsFalse (hides_memory e)) }
{
    if answer.status != 200 {
        return Err(TokensNo::Status(answer.status));
    }
    let claims = read_claims(alloc, answer.body.as_bytes())?;
    claimed_tokens(alloc, &claims)
}

/// The tokens in a token response (RFC 6749, 5.1; OpenID Connect Core 1.0, 3.1.3.3).
///
/// A response is accepted if and only if its status is 200 and its body is a JSON object whose numbers are integers, with the
/// strings `access_token`, `id_token` and `token_type`. The last must be `Bearer`, in any case. Other members are ignored. For
/// any other response the first error that applies is returned, in the order of [`TokensNo`].
pub fn read_tokens(alloc: Global, answer: &Answered) -> Result<Tokens, TokensNo>
    ensures answers { IfOk result (λ t. tokens_read answer.now ≡ Ok t) }
    ensures tokens { IfOk result (λ t. HasTokens answer.now t) }
    ensures accepts { (t : Tokens) → HasTokens answer.now t → IfErr result (λ e. e ≡ TokensNo.NoMemory) }
    ensures value { (t : Tokens) → HasTokens answer.now t → IfOk result (λ r. r ≡ t) }
    ensures refuses { IfErr result (λ e. (e ≡ TokensNo.NoMemory) ⊎ (tokens_read answer.now ≡ Err e)) }
    ensures memory_is_outermost { IfErr result (λ e. IsFalse (hides_memory e)) }
{
    answered_tokens(alloc, answer)
}

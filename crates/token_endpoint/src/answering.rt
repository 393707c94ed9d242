// Writing the bodies of a token endpoint's responses.

ghost use Rattle.std.specs.Prelude.{◌≡◌, IfOk};
ghost use Rattle.sso_base.specs.Words.{word_text};
ghost use Rattle.token_endpoint.specs.Answer.{tokens_text};
ghost use Rattle.token_endpoint.specs.Errors.{error_text};

use crate::error::TokenError;
use claim_set::{ClaimSet, write_claims};
use oidc_words::{ACCESS_LIFE, BEARER};
use sso_base::{Blob, NoMemory, Text, Word};
use std::alloc::Global;

/// The body of a successful token response (RFC 6749, 5.1; OpenID Connect Core 1.0, 3.1.3.3): a JSON object on one line. It has
/// `access_token`, the text of the word, `expires_in`, its life in seconds, `id_token`, and `token_type`, which is `Bearer`.
#[tactic(auto, unfolding(crate::specs::Answer::tokens_text))]
pub fn print_tokens(alloc: Global, access: &Word, id: &Text) -> Result<Blob, NoMemory>
    ensures { IfOk result (λ b. b ≡ tokens_text (word_text access.now) id.now) }
{
    let access = access.to_text(alloc)?;
    let mut set = ClaimSet::new(alloc);
    set.put_text("access_token", access.as_str())?;
    set.put_number("expires_in", ACCESS_LIFE as u64)?;
    set.put_text("id_token", id.as_str())?;
    set.put_text("token_type", BEARER)?;
    write_claims(&set)
}

/// The body of a token error response (RFC 6749, 5.2): a JSON object on one line, with `error`, the code.
#[tactic(auto, unfolding(crate::specs::Errors::error_text))]
pub fn print_token_error(alloc: Global, error: TokenError) -> Result<Blob, NoMemory>
    ensures { IfOk result (λ b. b ≡ error_text error) }
{
    let mut set = ClaimSet::new(alloc);
    set.put_text("error", error.as_str())?;
    write_claims(&set)
}

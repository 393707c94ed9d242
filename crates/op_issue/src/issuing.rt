// Issuing for a user who logged in: the successful authorization response (OpenID Connect Core 1.0, 3.1.2.5, 3.2.2.5 and
// 3.3.2.5).

ghost use Rattle.std.specs.Prelude.{◌≡◌, ◌<◌, true, length, IfOk};
ghost use Rattle.auth_request.specs.Values.{is_short_nonce};
ghost use Rattle.op_issue.specs.IdTokens.{issued_id};
ghost use Rattle.op_issue.specs.Issued as spec;

use crate::id_tokens::id_token_for;
use auth_answer::Answer;
use auth_request::Wish;
use client_registry::Registry;
use sso_base::{Moment, NoMemory, Text, Word, copied_text};
use std::alloc::Global;

/// The data of a user's login in tokens.
#[derive(Clone, Copy, PartialEq, Eq)]
pub struct Authentication {
    /// The number of the user, counted from 0.
    pub user: u32,
    /// The session's name for clients (OpenID Connect Front-Channel Logout 1.0, 3).
    pub sid: Word,
    /// When the user last logged in.
    pub auth_time: Moment,
}

// The word, if the wish requests it.
fn word_if(wished: bool, word: Word) -> Option<Word>
    ensures { result ≡ spec.if_wished wished word }
{
    if wished { Some(word) } else { None }
}

// The ID Token, if the wish requests it.
fn id_if_wished(
    alloc: Global,
    registry: &Registry,
    wish: &Wish,
    who: &Authentication,
    at: Moment,
    access: &Option<Word>,
    code: &Option<Word>,
) -> Result<Option<Text>, NoMemory>
    requires client { wish.now.client < length registry.now.clients }
    requires user { who.now.user < length registry.now.users }
    requires nonce { is_short_nonce wish.now.nonce ≡ true }
    ensures { IfOk result (λ o. o ≡ spec.if_wished wish.now.types.id_token (issued_id registry.now wish.now who.now at access.now code.now)) }
{
    if wish.types.id_token {
        Ok(Some(id_token_for(alloc, registry, wish, who, at, access, code)?))
    } else {
        Ok(None)
    }
}

/// The successful authorization response to a wish, for the user who logged in (OpenID Connect Core 1.0, 3.1.2.5, 3.2.2.5 and
/// 3.3.2.5). The response type decides which of these it has: a code, the third of the four fresh words; an access token, the
/// fourth; and an ID Token about both. It is in the fragment if [`oidc_words::Types::is_in_fragment`] is true.
///
/// The client and the user are in the registry, and the nonce has at most 255 bytes.
pub fn issue(
    alloc: Global,
    registry: &Registry,
    wish: &Wish,
    who: &Authentication,
    at: Moment,
    fresh: &[Word; 4],
) -> Result<Answer, NoMemory>
    requires client { wish.now.client < length registry.now.clients }
    requires user { who.now.user < length registry.now.users }
    requires nonce { is_short_nonce wish.now.nonce ≡ true }
    ensures { IfOk result (λ a. a ≡ spec.issued registry.now wish.now who.now at fresh.now) }
{
    let code = word_if(wish.types.code, fresh[2]);
    let access = word_if(wish.types.token, fresh[3]);
    let id = id_if_wished(alloc, registry, wish, who, at, &access, &code)?;
    Ok(Answer {
        redirect: wish.redirect.copy(alloc)?,
        fragment: wish.types.is_in_fragment(),
        code,
        access,
        id,
        state: copied_text(alloc, &wish.state)?,
    })
}

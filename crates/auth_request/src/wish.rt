// The contents of an authorization request, and the result of its validation.

ghost use Rattle.std.specs.Prelude.{◌≡◌, IfOk};

use oidc_words::{Refusal, Scopes, Types};
use sso_base::{NoMemory, Text, Texts, copied_text};
use std::alloc::Global;

/// The contents of a valid authorization request (OpenID Connect Core 1.0, 3.1.2.1 and 5.5).
#[derive(Drop)]
pub struct Wish {
    /// The number of its client, counted from 0.
    pub client: u32,
    /// The redirect URI: one of the client's.
    pub redirect: Text,
    /// The response type (OpenID Connect Core 1.0, 3).
    pub types: Types,
    /// The known scope values (OpenID Connect Core 1.0, 5.4).
    pub scopes: Scopes,
    /// The `state` that the response repeats (RFC 6749, 4.1.1).
    pub state: Option<Text>,
    /// The `nonce` that the ID Token repeats (OpenID Connect Core 1.0, 3.1.2.1).
    pub nonce: Option<Text>,
    /// Whether `prompt` has the word `none`.
    pub none: bool,
    /// Whether `prompt` has the word `login` or `select_account`.
    pub login: bool,
    /// Whether `prompt` has the word `consent`.
    pub consent: bool,
    /// The greatest age of the login, in seconds.
    pub max_age: Option<u64>,
    /// If present, the user's subject must be one of these (OpenID Connect Core 1.0, 5.5.1).
    pub subs: Option<Texts>,
    /// The names of the claims that are requested in the ID Token.
    pub id_asked: Texts,
    /// The names of the claims that are requested from the UserInfo endpoint.
    pub info_asked: Texts,
}

/// Why the provider shows an error page instead of sending the browser back.
#[derive(Clone, Copy, PartialEq, Eq)]
pub enum PageNo {
    /// The client is absent or unknown.
    Client,
    /// The redirect URI is absent or none of the client's.
    Redirect,
    /// A parameter name occurs twice.
    Twice,
    /// The login or consent form belongs to no live turn.
    Turn,
    /// The form was served to another browser.
    Browser,
}

/// The result of validating an authorization request.
#[derive(Drop)]
pub enum Verdict {
    /// The user is shown an error page (RFC 6749, 4.1.2.1).
    Page(PageNo),
    /// The client gets the error response (OpenID Connect Core 1.0, 3.1.2.6).
    Refuse(Refusal),
    /// The request may be answered (OpenID Connect Core 1.0, 3.1.2.5).
    Grant(Wish),
}

// A copy of the list of texts, if there is one.
fn copied_texts(alloc: Global, texts: &Option<Texts>) -> Result<Option<Texts>, NoMemory>
    ensures { IfOk result (λ o. o ≡ texts.now) }
{
    match texts {
        Some(texts) => Ok(Some(texts.copy(alloc)?)),
        None => Ok(None),
    }
}

impl Wish {
    /// A copy of the wish.
    pub fn copy(&self, alloc: Global) -> Result<Wish, NoMemory>
        ensures { IfOk result (λ w. w ≡ self.now) }
    {
        Ok(Wish {
            client: self.client,
            redirect: self.redirect.copy(alloc)?,
            types: self.types,
            scopes: self.scopes,
            state: copied_text(alloc, &self.state)?,
            nonce: copied_text(alloc, &self.nonce)?,
            none: self.none,
            login: self.login,
            consent: self.consent,
            max_age: self.max_age,
            subs: copied_texts(alloc, &self.subs)?,
            id_asked: self.id_asked.copy(alloc)?,
            info_asked: self.info_asked.copy(alloc)?,
        })
    }
}

// Replies of the provider.

ghost use Rattle.std.specs.Prelude.{◌≡◌, IfOk};
ghost use Rattle.op_exchange.specs.Replied as spec;

use auth_answer::Answer;
use auth_request::PageNo;
use oidc_words::{Refusal, Scopes};
use sso_base::{Blob, Messages, NoMemory, Text, Word};
use std::alloc::Global;
use token_endpoint::TokenError;

/// The provider's reply to a request.
#[derive(Drop)]
pub enum OpReply {
    /// The login form of a turn, for the browser whose cookie is set. `again` is true after a wrong password.
    LoginPage {
        turn: Word,
        browser: Word,
        again: bool,
    },
    /// The consent form of a turn: the client's id, and the scope values of the consent. It sets the session cookie after a
    /// login.
    ConsentPage {
        turn: Word,
        browser: Word,
        session: Option<Word>,
        client: Text,
        scopes: Scopes,
    },
    /// A successful authorization response. It sets the session cookie after a login.
    Answered {
        answer: Answer,
        session: Option<Word>,
    },
    /// An authorization error response. It sets the session cookie after a login.
    Refused {
        refusal: Refusal,
        session: Option<Word>,
    },
    /// An error page.
    ErrorPage {
        why: PageNo,
    },
    /// An access token and a sealed ID Token.
    Tokens {
        access: Word,
        id: Text,
    },
    /// A token error response.
    TokenRefused {
        code: TokenError,
    },
    /// A UserInfo response.
    Info {
        claims: Blob,
    },
    /// A UserInfo error response, to a request with a token or without one.
    InfoRefused {
        given: bool,
    },
    /// A sign-out, with the messages that notify clients.
    SignedOut {
        messages: Messages,
    },
    /// The provider's metadata.
    Metadata {
        text: Text,
    },
    /// The provider's keys, of which there are none.
    Keys,
    /// Not found.
    NotHere,
    /// A table has no room for a row.
    Full,
}

fn consent_page_copied(
    alloc: Global,
    turn: Word,
    browser: Word,
    session: Option<Word>,
    client: &Text,
    scopes: Scopes,
) -> Result<OpReply, NoMemory>
    ensures { IfOk result (λ reply. reply ≡ OpReply.ConsentPage turn browser session client.now scopes) }
{
    Ok(OpReply::ConsentPage {
        turn,
        browser,
        session,
        client: client.copy(alloc)?,
        scopes,
    })
}

fn answer_copied(alloc: Global, answer: &Answer, session: Option<Word>) -> Result<OpReply, NoMemory>
    ensures { IfOk result (λ reply. reply ≡ OpReply.Answered answer.now session) }
{
    let answer = answer.copy(alloc)?;
    Ok(OpReply::Answered { answer, session })
}

fn refusal_copied(
    alloc: Global,
    refusal: &Refusal,
    session: Option<Word>,
) -> Result<OpReply, NoMemory>
    ensures { IfOk result (λ reply. reply ≡ OpReply.Refused refusal.now session) }
{
    let refusal = refusal.copy(alloc)?;
    Ok(OpReply::Refused { refusal, session })
}

fn tokens_copied(alloc: Global, access: Word, id: &Text) -> Result<OpReply, NoMemory>
    ensures { IfOk result (λ reply. reply ≡ OpReply.Tokens access id.now) }
{
    let id = id.copy(alloc)?;
    Ok(OpReply::Tokens { access, id })
}

impl OpReply {
    /// Whether the reply ends the turn that it replies to.
    pub fn ends_turn(&self) -> bool
        ensures { result ≡ spec.ends_turn self.now }
    {
        matches!(self, OpReply::Answered { .. } | OpReply::Refused { .. })
    }

    /// The session word that the reply sets as a cookie.
    pub fn session_given(&self) -> Option<Word>
        ensures { result ≡ spec.session_given self.now }
    {
        match self {
            OpReply::ConsentPage { session, .. }
            | OpReply::Answered { session, .. }
            | OpReply::Refused { session, .. } => *session,
            _ => None,
        }
    }

    /// The code in the reply, if it is an authorization response that has one.
    pub fn code(&self) -> Option<Word>
        ensures { result ≡ spec.code_in self.now }
    {
        match self {
            OpReply::Answered { answer, .. } => answer.code,
            _ => None,
        }
    }

    /// The access token in the reply, if it is an authorization response or a token response that has one.
    pub fn access(&self) -> Option<Word>
        ensures { result ≡ spec.access_in self.now }
    {
        match self {
            OpReply::Answered { answer, .. } => answer.access,
            OpReply::Tokens { access, .. } => Some(*access),
            _ => None,
        }
    }

    /// A copy of the reply.
    pub fn copy(&self, alloc: Global) -> Result<OpReply, NoMemory>
        ensures { IfOk result (λ reply. reply ≡ self.now) }
    {
        Ok(match self {
            OpReply::LoginPage {
                turn,
                browser,
                again,
            } => OpReply::LoginPage {
                turn: *turn,
                browser: *browser,
                again: *again,
            },
            OpReply::ConsentPage {
                turn,
                browser,
                session,
                client,
                scopes,
            } => consent_page_copied(alloc, *turn, *browser, *session, client, *scopes)?,
            OpReply::Answered { answer, session } => answer_copied(alloc, answer, *session)?,
            OpReply::Refused { refusal, session } => refusal_copied(alloc, refusal, *session)?,
            OpReply::ErrorPage { why } => OpReply::ErrorPage { why: *why },
            OpReply::Tokens { access, id } => tokens_copied(alloc, *access, id)?,
            OpReply::TokenRefused { code } => OpReply::TokenRefused { code: *code },
            OpReply::Info { claims } => OpReply::Info {
                claims: claims.copy(alloc)?,
            },
            OpReply::InfoRefused { given } => OpReply::InfoRefused { given: *given },
            OpReply::SignedOut { messages } => OpReply::SignedOut {
                messages: messages.copy(alloc)?,
            },
            OpReply::Metadata { text } => OpReply::Metadata {
                text: text.copy(alloc)?,
            },
            OpReply::Keys => OpReply::Keys,
            OpReply::NotHere => OpReply::NotHere,
            OpReply::Full => OpReply::Full,
        })
    }
}

// Requests to the provider.

use auth_request::Verdict;
use sso_base::Word;
use token_endpoint::{Grant, GrantNo};
use userinfo::Bearer;

/// A request to the provider, as far as its reply depends on it. `browser` and `session` are the cookies that it presents.
#[derive(Drop)]
pub enum OpAsk {
    /// An authorization request, and the result of its validation (OpenID Connect Core 1.0, 3.1.2.1 and 3.1.2.2).
    Authorize {
        verdict: Verdict,
        browser: Option<Word>,
        session: Option<Word>,
    },
    /// A login form: its turn, and the number of the user whose password it contains.
    Login {
        turn: Option<Word>,
        signed: Option<u32>,
        browser: Option<Word>,
        session: Option<Word>,
    },
    /// A consent form: its turn, and whether the user consents.
    Consent {
        turn: Option<Word>,
        agree: bool,
        browser: Option<Word>,
        session: Option<Word>,
    },
    /// A token request (OpenID Connect Core 1.0, 3.1.3.1).
    Token {
        grant: Result<Grant, GrantNo>,
    },
    /// A UserInfo request (OpenID Connect Core 1.0, 5.3.1).
    Info {
        bearer: Bearer,
    },
    /// A sign-out.
    SignOut {
        session: Option<Word>,
    },
    /// A request for the provider's metadata (OpenID Connect Discovery 1.0, 4).
    Metadata,
    /// A request for the provider's keys (OpenID Connect Core 1.0, 10.1).
    Keys,
    /// A request in which a parameter name occurs twice.
    Twice,
    /// Any other request.
    NotHere,
}

// Requests and responses to a relying party.

use auth_answer::{AnswerNo, Heard};
use id_token::{IdClaims, IdNo};
use logout_token::{LogoutClaims, LogoutNo};
use sso_base::{Text, Word};
use token_endpoint::{Tokens, TokensNo};
use userinfo::InfoNo;

/// A request to a relying party, or the response to one of its own, as far as its reply depends on it. `browser` and `session`
/// are the cookies that the request presents.
#[derive(Drop)]
pub enum RpAsk {
    /// A request to begin a login (OpenID Connect Core 1.0, 3.1.2.1).
    Begin {
        browser: Option<Word>,
    },
    /// A request to the redirect URI with a response in the fragment, which only the browser sees (Core 3.2.2.5).
    Fragment,
    /// An authorization response, and its ID Token as it was read, if it has one (Core 3.1.2.5, 3.2.2.5 and 3.3.2.5).
    Callback {
        heard: Result<Heard, AnswerNo>,
        id: Option<Result<IdClaims, IdNo>>,
        browser: Option<Word>,
    },
    /// The token response in a pending exchange, and its ID Token as it was read, if it has one (Core 3.1.3.3).
    Tokens {
        pending: Word,
        tokens: Result<Tokens, TokensNo>,
        id: Option<Result<IdClaims, IdNo>>,
    },
    /// The UserInfo response in a pending exchange: its subject (Core 5.3.2).
    Info {
        pending: Word,
        sub: Result<Text, InfoNo>,
    },
    /// A request for the page that shows who is logged in.
    Visit {
        session: Option<Word>,
    },
    /// A request to leave.
    Leave {
        session: Option<Word>,
    },
    /// A logout request (OpenID Connect Back-Channel Logout 1.0, 2.5).
    Logout {
        claims: Result<LogoutClaims, LogoutNo>,
    },
    /// Any other request.
    NotHere,
}

// Why a relying party rejects a request or a response.

use id_token::IdNo;
use logout_token::LogoutNo;
use oidc_words::AuthError;
use rp_login::RpTable;
use sso_base::Text;
use token_endpoint::TokensNo;
use userinfo::InfoNo;

/// A part of an authorization response (OpenID Connect Core 1.0, 3.3.2.5).
#[derive(Clone, Copy, PartialEq, Eq)]
pub enum Part {
    /// `code`
    Code,
    /// `access_token`
    Access,
    /// `id_token`
    Id,
}

/// Why a relying party rejects a request or a response. The first error that applies is returned:
///
/// - for an authorization response: `Twice`, `NoState`, `StaleLogin`, `WrongBrowser`, `Provider`, `Missing`, `Id`, `EndedSid`,
///   `Full`;
/// - for a token response: `StalePending`, `Tokens`, `Id`, `SubjectDiffers`, `EndedSid`, `Full`;
/// - for a UserInfo response: `StalePending`, `Info`, `SubjectDiffers`, `EndedSid`, `Full`;
/// - for a logout request: `Logout`, `Seen`, `Full`.
#[derive(Drop)]
pub enum RpNo {
    /// The parameter of this name occurs twice in the authorization response (RFC 6749, 3.1).
    Twice(Text),
    /// It has no `state` that is the text of a word (RFC 6749, 10.12).
    NoState,
    /// No live login has its `state`.
    StaleLogin,
    /// Another browser began the login of its `state`. The login stays.
    WrongBrowser,
    /// The provider returned an error response with this code (OpenID Connect Core 1.0, 3.1.2.6).
    Provider(AuthError),
    /// The response lacks this part of its type: the first of `code`, `access_token` and `id_token`.
    Missing(Part),
    /// The ID Token is rejected (Core 3.1.3.7, 3.2.2.11 and 3.3.2.12).
    Id(IdNo),
    /// No live pending exchange has this word and is waiting for this response.
    StalePending,
    /// The token response is rejected (Core 3.1.3.5).
    Tokens(TokensNo),
    /// The UserInfo response is rejected (Core 5.3.4).
    Info(InfoNo),
    /// The subject is not that of the earlier ID Token (Core 3.3.3.6 and 5.3.2).
    SubjectDiffers,
    /// This table has no room for a row. Nothing changes.
    Full(RpTable),
    /// The logout token is rejected (OpenID Connect Back-Channel Logout 1.0, 2.6).
    Logout(LogoutNo),
    /// The logout token was accepted before, by the pair with this number in the party's history, counted from 1 (2.6, step 8).
    Seen(u64),
    /// A logout token that is still remembered has the `sid` of the last ID Token, so the session ended before it began. The
    /// logout token was accepted by the pair with this number in the party's history, counted from 1 (2.7).
    EndedSid(u64),
}

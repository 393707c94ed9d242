// The error codes of the token endpoint (RFC 6749, 5.2).

ghost use Rattle.std.specs.Prelude.{◌≡◌, ◌≢◌};
ghost use Rattle.token_endpoint.specs.Errors as spec;

use crate::no::GrantNo;
use oidc_words::{AuthError, error_text};

/// An error code of the token endpoint (RFC 6749, 5.2).
#[derive(Clone, Copy, PartialEq, Eq)]
pub enum TokenError {
    /// `invalid_request`: the request is malformed.
    InvalidRequest,
    /// `invalid_client`: the client is not authenticated.
    InvalidClient,
    /// `invalid_grant`: the code is not valid for the client and its redirect URI, or the refresh token is not valid for the client.
    InvalidGrant,
    /// `unsupported_grant_type`: the grant type is not one that is supported.
    UnsupportedGrantType,
}

impl TokenError {
    /// The text of the code.
    pub fn as_str(self) -> &'static str
        ensures { result.now ≡ spec.error_code self }
    {
        match self {
            TokenError::InvalidRequest => error_text(AuthError::InvalidRequest),
            TokenError::InvalidClient => "invalid_client",
            TokenError::InvalidGrant => "invalid_grant",
            TokenError::UnsupportedGrantType => "unsupported_grant_type",
        }
    }
}

/// The error code for a rejected token request (RFC 6749, 5.2). There is none for `NoMemory`.
pub fn token_error(why: &GrantNo) -> TokenError
    requires { why.now ≢ GrantNo.NoMemory }
    ensures { result ≡ spec.token_error why.now }
{
    match why {
        GrantNo::NoAuth | GrantNo::WrongClient => TokenError::InvalidClient,
        GrantNo::OtherGrant => TokenError::UnsupportedGrantType,
        GrantNo::BadForm | GrantNo::Twice(_) | GrantNo::TwoAuths | GrantNo::Missing(_) => {
            TokenError::InvalidRequest
        }
        GrantNo::NoMemory => unreachable!(),
    }
}

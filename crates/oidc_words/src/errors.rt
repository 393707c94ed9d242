// Error codes of authorization responses and their texts, error responses, and the error code of a bearer token.

ghost use Rattle.std.specs.Prelude.{◌≡◌, find, IfOk};
ghost use Rattle.std.specs.Str.{bytes_eq};
ghost use Rattle.oidc_words.specs.Errors as spec;

use sso_base::{NoMemory, Text, copied_text};
use std::alloc::Global;

/// The error codes of authorization responses (RFC 6749, 4.1.2.1; OpenID Connect Core 1.0, 3.1.2.6).
#[derive(Clone, Copy, PartialEq, Eq)]
pub enum AuthError {
    InvalidRequest,
    UnauthorizedClient,
    AccessDenied,
    UnsupportedResponseType,
    InvalidScope,
    ServerError,
    TemporarilyUnavailable,
    InteractionRequired,
    LoginRequired,
    AccountSelectionRequired,
    ConsentRequired,
    InvalidRequestUri,
    InvalidRequestObject,
    RequestNotSupported,
    RequestUriNotSupported,
    RegistrationNotSupported,
    /// A code that neither standard defines.
    Other,
}

/// The sixteen error codes that the standards define (RFC 6749, 4.1.2.1; OpenID Connect Core 1.0, 3.1.2.6).
pub const ERROR_CODES: [AuthError; 16] = [
    AuthError::InvalidRequest,
    AuthError::UnauthorizedClient,
    AuthError::AccessDenied,
    AuthError::UnsupportedResponseType,
    AuthError::InvalidScope,
    AuthError::ServerError,
    AuthError::TemporarilyUnavailable,
    AuthError::InteractionRequired,
    AuthError::LoginRequired,
    AuthError::AccountSelectionRequired,
    AuthError::ConsentRequired,
    AuthError::InvalidRequestUri,
    AuthError::InvalidRequestObject,
    AuthError::RequestNotSupported,
    AuthError::RequestUriNotSupported,
    AuthError::RegistrationNotSupported,
];

/// The error code for a request whose access token is not valid (RFC 6750, 3.1).
pub const INVALID_TOKEN: &str = "invalid_token";

/// The text of a code in the parameter `error` (RFC 6749, 4.1.2.1; OpenID Connect Core 1.0, 3.1.2.6). The text of
/// [`AuthError::Other`] is `other`.
#[tactic(auto, unfolding(crate::specs::Errors::error_text))]
pub fn error_text(code: AuthError) -> &'static str
    ensures { result.now ≡ spec.error_text code }
{
    match code {
        AuthError::InvalidRequest => "invalid_request",
        AuthError::UnauthorizedClient => "unauthorized_client",
        AuthError::AccessDenied => "access_denied",
        AuthError::UnsupportedResponseType => "unsupported_response_type",
        AuthError::InvalidScope => "invalid_scope",
        AuthError::ServerError => "server_error",
        AuthError::TemporarilyUnavailable => "temporarily_unavailable",
        AuthError::InteractionRequired => "interaction_required",
        AuthError::LoginRequired => "login_required",
        AuthError::AccountSelectionRequired => "account_selection_required",
        AuthError::ConsentRequired => "consent_required",
        AuthError::InvalidRequestUri => "invalid_request_uri",
        AuthError::InvalidRequestObject => "invalid_request_object",
        AuthError::RequestNotSupported => "request_not_supported",
        AuthError::RequestUriNotSupported => "request_uri_not_supported",
        AuthError::RegistrationNotSupported => "registration_not_supported",
        AuthError::Other => "other",
    }
}

// The first of these codes with this text.
fn find_error(codes: &[AuthError], text: &str) -> Option<AuthError>
    ensures { result ≡ find (λ code. bytes_eq (spec.error_text code) text.now) codes.now }
{
    for code in codes {
        if error_text(*code) == text {
            return Some(*code);
        }
    }
    None
}

/// The code with this text; [`AuthError::Other`] if and only if the text belongs to none of [`ERROR_CODES`]. Case matters.
#[tactic(auto, unfolding(crate::specs::Errors::error_of))]
pub fn read_error(text: &str) -> AuthError
    ensures { result ≡ spec.error_of text.now }
{
    find_error(&ERROR_CODES, text).unwrap_or(AuthError::Other)
}

/// An authorization error response (OpenID Connect Core 1.0, 3.1.2.6 and 3.2.2.6).
#[derive(Drop)]
pub struct Refusal {
    /// The client's redirect URI that the response is sent to.
    pub redirect: Text,
    /// Whether the response is in the fragment; otherwise it is in the query.
    pub fragment: bool,
    pub state: Option<Text>,
    pub code: AuthError,
}

impl Refusal {
    /// A copy of the response.
    pub fn copy(&self, alloc: Global) -> Result<Refusal, NoMemory>
        ensures { IfOk result (λ r. r ≡ self.now) }
    {
        Ok(Refusal {
            redirect: self.redirect.copy(alloc)?,
            fragment: self.fragment,
            state: copied_text(alloc, &self.state)?,
            code: self.code,
        })
    }
}

// The error codes of authorization responses.

use case_lines::told;
use oidc_words::{AuthError, ERROR_CODES, error_text, read_error};
use sso_base::NoMemory;
use std::alloc::Global;

/// The name of a code in this repository.
pub fn name_of(code: AuthError) -> &'static str {
    match code {
        AuthError::InvalidRequest => "InvalidRequest",
        AuthError::UnauthorizedClient => "UnauthorizedClient",
        AuthError::AccessDenied => "AccessDenied",
        AuthError::UnsupportedResponseType => "UnsupportedResponseType",
        AuthError::InvalidScope => "InvalidScope",
        AuthError::ServerError => "ServerError",
        AuthError::TemporarilyUnavailable => "TemporarilyUnavailable",
        AuthError::InteractionRequired => "InteractionRequired",
        AuthError::LoginRequired => "LoginRequired",
        AuthError::AccountSelectionRequired => "AccountSelectionRequired",
        AuthError::ConsentRequired => "ConsentRequired",
        AuthError::InvalidRequestUri => "InvalidRequestUri",
        AuthError::InvalidRequestObject => "InvalidRequestObject",
        AuthError::RequestNotSupported => "RequestNotSupported",
        AuthError::RequestUriNotSupported => "RequestUriNotSupported",
        AuthError::RegistrationNotSupported => "RegistrationNotSupported",
        AuthError::Other => "Other",
    }
}

/// The code with this name, or `Other` if no code has it.
pub fn named(name: &str) -> AuthError {
    for code in &ERROR_CODES {
        if name_of(*code) == name {
            return *code;
        }
    }
    AuthError::Other
}

/// `error_codes`: the names of the codes, in their order.
pub fn all(alloc: Global) -> Result<String, NoMemory> {
    let mut list = String::new(alloc);
    for code in &ERROR_CODES {
        list.push_str(name_of(*code))?;
        list.push_str(" ")?;
    }
    told(alloc, list.as_str().trim_end())
}

/// `error_text|NAME`: the text of a code.
pub fn text(alloc: Global, name: &str) -> Result<String, NoMemory> {
    told(alloc, error_text(named(name)))
}

/// `read_error|TEXT`: the code with this text.
pub fn read(alloc: Global, text: &str) -> Result<String, NoMemory> {
    told(alloc, name_of(read_error(text)))
}

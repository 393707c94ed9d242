// The names of the parameters.

ghost use Rattle.std.specs.Prelude.{◌≡◌};
ghost use Rattle.std.specs.List.{find};
ghost use Rattle.std.specs.Str.{bytes_eq};
ghost use Rattle.request_params.specs.Names.{name_text, name_of};

/// The name of a parameter of an authorization request (OpenID Connect Core 1.0, 3.1.2.1, 5.5, 6 and 7.2.1; OAuth 2.0
/// Multiple Response Type Encoding Practices, 2.1).
#[derive(Clone, Copy, PartialEq, Eq)]
pub enum ParamName {
    /// `response_type` (OpenID Connect Core 1.0, 3).
    ResponseType,
    /// `client_id` (RFC 6749, 2.2).
    ClientId,
    /// `redirect_uri` (RFC 6749, 3.1.2).
    RedirectUri,
    /// `scope` (OpenID Connect Core 1.0, 5.4).
    Scope,
    /// `state` (RFC 6749, 4.1.1).
    State,
    /// `nonce` (OpenID Connect Core 1.0, 3.1.2.1).
    Nonce,
    /// `response_mode` (OpenID Connect Core 1.0, 3.1.2.1).
    ResponseMode,
    /// `prompt` (OpenID Connect Core 1.0, 3.1.2.1).
    Prompt,
    /// `max_age` (OpenID Connect Core 1.0, 3.1.2.1).
    MaxAge,
    /// `claims` (OpenID Connect Core 1.0, 5.5).
    Claims,
    /// `request` (OpenID Connect Core 1.0, 6.1).
    Request,
    /// `request_uri` (OpenID Connect Core 1.0, 6.2).
    RequestUri,
    /// `registration` (OpenID Connect Core 1.0, 7.2.1).
    Registration,
}

/// All names, in the order of the fields of [`Params`](crate::Params).
pub const ALL_NAMES: [ParamName; 13] = [
    ParamName::ResponseType,
    ParamName::ClientId,
    ParamName::RedirectUri,
    ParamName::Scope,
    ParamName::State,
    ParamName::Nonce,
    ParamName::ResponseMode,
    ParamName::Prompt,
    ParamName::MaxAge,
    ParamName::Claims,
    ParamName::Request,
    ParamName::RequestUri,
    ParamName::Registration,
];

impl ParamName {
    /// The text of the name: in lower case, with `_` between words.
    pub fn as_str(self) -> &'static str
        ensures { result.now ≡ name_text self }
    {
        match self {
            ParamName::ResponseType => "response_type",
            ParamName::ClientId => "client_id",
            ParamName::RedirectUri => "redirect_uri",
            ParamName::Scope => "scope",
            ParamName::State => "state",
            ParamName::Nonce => "nonce",
            ParamName::ResponseMode => "response_mode",
            ParamName::Prompt => "prompt",
            ParamName::MaxAge => "max_age",
            ParamName::Claims => "claims",
            ParamName::Request => "request",
            ParamName::RequestUri => "request_uri",
            ParamName::Registration => "registration",
        }
    }

    /// The name with this text, if there is one. Case matters.
    pub fn read(text: &str) -> Option<ParamName>
        ensures { result ≡ name_of text.now }
    {
        find_name(&ALL_NAMES, text)
    }
}

// The first of these names with this text.
fn find_name(names: &[ParamName], text: &str) -> Option<ParamName>
    ensures { result ≡ find (λ name. bytes_eq (name_text name) text.now) names.now }
{
    for name in names {
        if name.as_str() == text {
            return Some(*name);
        }
    }
    None
}

// The parameters of an authorization request.

ghost use Rattle.std.specs.Prelude.{◌≡◌, Some, option_map};
ghost use Rattle.request_params.specs.Names.{param_of, no_params, with_param};

use crate::name::ParamName;
use sso_base::Text;

/// The parameters of an authorization request, each of which may be absent (OpenID Connect Core 1.0, 3.1.2.1, 5.5, 6 and 7.2.1;
/// OAuth 2.0 Multiple Response Type Encoding Practices, 2.1).
#[derive(Drop)]
pub struct Params {
    /// What is requested: a code, an ID Token, an access token, or several of them (OpenID Connect Core 1.0, 3).
    pub response_type: Option<Text>,
    /// The client (RFC 6749, 2.2).
    pub client_id: Option<Text>,
    /// Where the response is sent (RFC 6749, 3.1.2).
    pub redirect_uri: Option<Text>,
    /// The scope values, with `openid` among them (OpenID Connect Core 1.0, 5.4).
    pub scope: Option<Text>,
    /// A value that the response repeats (RFC 6749, 4.1.1).
    pub state: Option<Text>,
    /// A value that the ID Token repeats (OpenID Connect Core 1.0, 3.1.2.1).
    pub nonce: Option<Text>,
    /// How the response is sent (OpenID Connect Core 1.0, 3.1.2.1).
    pub response_mode: Option<Text>,
    /// Whether the user is prompted to log in or to consent (OpenID Connect Core 1.0, 3.1.2.1).
    pub prompt: Option<Text>,
    /// How long ago the user may have logged in, in seconds (OpenID Connect Core 1.0, 3.1.2.1).
    pub max_age: Option<Text>,
    /// The claims that are requested by name (OpenID Connect Core 1.0, 5.5).
    pub claims: Option<Text>,
    /// A request object (OpenID Connect Core 1.0, 6.1).
    pub request: Option<Text>,
    /// The URL of a request object (OpenID Connect Core 1.0, 6.2).
    pub request_uri: Option<Text>,
    /// Metadata of the client for a self-issued provider (OpenID Connect Core 1.0, 7.2.1).
    pub registration: Option<Text>,
}

impl Params {
    /// No parameter.
    pub fn new() -> Params
        ensures { result ≡ no_params }
    {
        Params {
            response_type: None,
            client_id: None,
            redirect_uri: None,
            scope: None,
            state: None,
            nonce: None,
            response_mode: None,
            prompt: None,
            max_age: None,
            claims: None,
            request: None,
            request_uri: None,
            registration: None,
        }
    }

    /// The parameter of this name, if it is present.
    pub fn get(&self, name: ParamName) -> &Option<Text>
        ensures { result.now ≡ param_of name self.now }
    {
        match name {
            ParamName::ResponseType => &self.response_type,
            ParamName::ClientId => &self.client_id,
            ParamName::RedirectUri => &self.redirect_uri,
            ParamName::Scope => &self.scope,
            ParamName::State => &self.state,
            ParamName::Nonce => &self.nonce,
            ParamName::ResponseMode => &self.response_mode,
            ParamName::Prompt => &self.prompt,
            ParamName::MaxAge => &self.max_age,
            ParamName::Claims => &self.claims,
            ParamName::Request => &self.request,
            ParamName::RequestUri => &self.request_uri,
            ParamName::Registration => &self.registration,
        }
    }

    /// Sets the parameter of this name and drops its old value.
    pub fn set(&mut self, name: ParamName, value: Option<Text>)
        ensures { self.new ≡ with_param name value self.old }
    {
        match name {
            ParamName::ResponseType => self.response_type = value,
            ParamName::ClientId => self.client_id = value,
            ParamName::RedirectUri => self.redirect_uri = value,
            ParamName::Scope => self.scope = value,
            ParamName::State => self.state = value,
            ParamName::Nonce => self.nonce = value,
            ParamName::ResponseMode => self.response_mode = value,
            ParamName::Prompt => self.prompt = value,
            ParamName::MaxAge => self.max_age = value,
            ParamName::Claims => self.claims = value,
            ParamName::Request => self.request = value,
            ParamName::RequestUri => self.request_uri = value,
            ParamName::Registration => self.registration = value,
        }
    }
}

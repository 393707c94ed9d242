// The paths that the provider and a relying party serve. The provider's paths are below the path of its issuer.

/// The path of the metadata (OpenID Connect Discovery 1.0, 4).
pub const METADATA_PATH: &str = "/.well-known/openid-configuration";

/// The path of the keys (OpenID Connect Core 1.0, 10.1).
pub const KEYS_PATH: &str = "/jwks";

/// The path of the authorization endpoint (OpenID Connect Core 1.0, 3.1.2).
pub const AUTHORIZE_PATH: &str = "/authorize";

/// The path of the token endpoint (RFC 6749, 3.2).
pub const TOKEN_PATH: &str = "/token";

/// The path of the UserInfo endpoint (OpenID Connect Core 1.0, 5.3).
pub const USERINFO_PATH: &str = "/userinfo";

/// The path to which the login form is posted.
pub const LOGIN_PATH: &str = "/login";

/// The path to which the consent form is posted.
pub const CONSENT_PATH: &str = "/consent";

/// The path at which a user signs out.
pub const SIGNOUT_PATH: &str = "/signout";

/// The path of a relying party's first page.
pub const HOME_PATH: &str = "/";

/// The path at which a browser begins a login at a relying party.
pub const BEGIN_PATH: &str = "/login";

/// The path at which a user leaves a relying party.
pub const LEAVE_PATH: &str = "/leave";

// The types of access tokens.

/// The type of an access token that is a bearer token (RFC 6749, 7.1; RFC 6750, 4).
pub const BEARER: &str = "Bearer";

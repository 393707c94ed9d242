// The configuration that the cases use and change, and named texts.

use sample_configuration::{
    ALICE, ALICES_CLAIMS, ANY_CLIENT, BOB, ESCAPED_CLIENT, MAIL_CLIENT, MAIL_PARTY, NEWS_CLIENT,
    NEWS_PARTY, PROVIDER, SHOP_CLIENT, SHOP_PARTY,
};
use sso_base::NoMemory;
use std::alloc::Global;

// The third client is pairwise, the fourth has every response type, and forms write the fifth's id and secret with escapes.
const SHOP_LINES: &str = "logout_uri = \"http://127.0.0.1:8081/logout\"
logout_session = true
";

const NEWS_LINES: &str = "response_types = [\"id_token token\"]
consent = \"given\"
logout_uri = \"http://127.0.0.1:8082/logout\"
";

const MAIL_LINES: &str = "response_types = [\"code id_token\"]
consent = \"given\"
subject = \"pairwise\"
";

const MAIL_PARTY_LINES: &str = "response_type = \"code id_token\"
scope = \"openid email\"
userinfo = true
signed = true
";

/// Two users, five clients and three parties.
pub fn sample(alloc: Global) -> Result<String, NoMemory> {
    let users = [
        PROVIDER,
        ALICE,
        ALICES_CLAIMS,
        "email_verified = true\n",
        BOB,
    ]
    .concat(alloc)?;
    let clients = [
        SHOP_CLIENT,
        SHOP_LINES,
        NEWS_CLIENT,
        NEWS_LINES,
        MAIL_CLIENT,
        MAIL_LINES,
        ANY_CLIENT,
        ESCAPED_CLIENT,
    ]
    .concat(alloc)?;
    let parties = [
        SHOP_PARTY,
        "scope = \"openid profile\"\n",
        NEWS_PARTY,
        "response_type = \"id_token token\"\n",
        MAIL_PARTY,
        MAIL_PARTY_LINES,
    ]
    .concat(alloc)?;
    Ok([users.as_str(), clients.as_str(), parties.as_str()].concat(alloc)?)
}

/// A configuration with a provider only.
pub const ALONE: &str = r#"version = 1
provider = {issuer = "https://a.b", listen = "a.b:443", salt = "00112233445566778899aabbccddeeff"}
"#;

/// The sample with the first occurrence of one text replaced by another.
pub fn changed(alloc: Global, old: &str, new: &str) -> Result<String, NoMemory> {
    Ok(sample(alloc)?.as_str().replacen(alloc, old, new, 1)?)
}

/// The discovery document of the sample's provider.
pub const DOCUMENT: &str =
    "{\"authorization_endpoint\":\"http://127.0.0.1:8080/authorize\",\"backchannel_logout_session_supported\":true,\
     \"backchannel_logout_supported\":true,\"claims_parameter_supported\":true,\
     \"id_token_signing_alg_values_supported\":[\"HS256\"],\"issuer\":\"http://127.0.0.1:8080\",\
     \"jwks_uri\":\"http://127.0.0.1:8080/jwks\",\"request_object_signing_alg_values_supported\":[\"HS256\"],\
     \"request_parameter_supported\":true,\"request_uri_parameter_supported\":false,\
     \"response_modes_supported\":[\"query\",\"fragment\"],\
     \"response_types_supported\":[\"code\",\"id_token\",\"id_token token\",\"code id_token\",\"code token\",\"code id_token token\"],\
     \"scopes_supported\":[\"openid\",\"profile\",\"email\",\"address\",\"phone\"],\
     \"subject_types_supported\":[\"public\",\"pairwise\"],\"token_endpoint\":\"http://127.0.0.1:8080/token\",\
     \"token_endpoint_auth_methods_supported\":[\"client_secret_basic\",\"client_secret_post\"],\
     \"userinfo_endpoint\":\"http://127.0.0.1:8080/userinfo\"}";

/// The text with this name.
pub fn text(name: &str) -> Option<&'static str> {
    match name {
        "provider" => Some(ALONE),
        "document" => Some(DOCUMENT),
        _ => None,
    }
}

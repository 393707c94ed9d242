// Texts that are used in many cases, or are long.

/// The text with this name.
pub fn text(name: &str) -> Option<&'static str> {
    match name {
        "131 bytes" => Some(LONG_KEY),
        "key of RFC 7515" => Some(RFC_KEY),
        "who" => Some(r#""iss":"i","aud":"c","sub":"s""#),
        "when" => Some(r#""exp":1300,"iat":1000"#),
        "login" => Some(r#""nonce":"n","auth_time":840"#),
        "hashes" => Some(r#""at_hash":"0123456789012345678901","c_hash":"abcdefghijklmnopqrstuv""#),
        "logout" => Some(r#""aud":"c","exp":9000,"iat":5000,"iss":"i","jti":"j""#),
        "event" => Some(r#""events":{"http://schemas.openid.net/event/backchannel-logout":{}}"#),
        _ => None,
    }
}

// 131 bytes 0xaa (RFC 4231, 4.7).
const LONG_KEY: &str = "\
    hex:\
    aaaaaaaaaaaaaaaaaaaaaaaaaaaaaaaaaaaaaaaaaaaaaaaaaaaaaaaaaaaaaaaaaaaaaaaaaaaaaaaaaaaaaaaaaaaaaaaa\
    aaaaaaaaaaaaaaaaaaaaaaaaaaaaaaaaaaaaaaaaaaaaaaaaaaaaaaaaaaaaaaaaaaaaaaaaaaaaaaaaaaaaaaaaaaaaaaaa\
    aaaaaaaaaaaaaaaaaaaaaaaaaaaaaaaaaaaaaaaaaaaaaaaaaaaaaaaaaaaaaaaaaaaaaa";

// The key of RFC 7515, A.1.1, which has it in base64url.
const RFC_KEY: &str = "\
    hex:\
    0323354b2b0fa5bc837e0665777ba68f5ab328e6f054c928a90f84b2d2502ebf\
    d3fb5a92d20647ef968ab4c377623d223d2e2172052e4f08c0cd9af567d080a3";

// The named texts.

// Authorization requests of the shop: with the scope `openid` alone, for offline access, for it without consent, and for consent alone; one
// of the news, which is for no code. Token requests of the shop and of the news, which the code ends, and refresh requests of both, which
// the token ends. The line that registers a URI, and the parameter that asks for it. The verifier and the challenge of RFC 7636,
// appendix B.
const TEXTS: [(&str, &str); 13] = [
    (
        "shop",
        "client_id=shop-client&redirect_uri=http%3A%2F%2F127.0.0.1%3A8081%2Fcb&response_type=code&scope=openid",
    ),
    (
        "offline",
        "client_id=shop-client&redirect_uri=http%3A%2F%2F127.0.0.1%3A8081%2Fcb&response_type=code&scope=openid%20offline_access\
         &prompt=consent",
    ),
    (
        "no consent",
        "client_id=shop-client&redirect_uri=http%3A%2F%2F127.0.0.1%3A8081%2Fcb&response_type=code&scope=openid%20offline_access",
    ),
    (
        "online",
        "client_id=shop-client&redirect_uri=http%3A%2F%2F127.0.0.1%3A8081%2Fcb&response_type=code&scope=openid&prompt=consent",
    ),
    (
        "news",
        "client_id=news-client&redirect_uri=http%3A%2F%2F127.0.0.1%3A8082%2Fcb&response_type=id_token%20token&scope=openid&nonce=n",
    ),
    (
        "shop's code",
        "grant_type=authorization_code&client_id=shop-client&client_secret=shop-secret-shop-secret-shop-secret\
         &redirect_uri=http%3A%2F%2F127.0.0.1%3A8081%2Fcb&code=",
    ),
    (
        "news's code",
        "grant_type=authorization_code&client_id=news-client&client_secret=news-secret-news-secret-news-secret\
         &redirect_uri=http%3A%2F%2F127.0.0.1%3A8082%2Fcb&code=",
    ),
    (
        "refresh",
        "grant_type=refresh_token&client_id=shop-client&client_secret=shop-secret-shop-secret-shop-secret&refresh_token=",
    ),
    (
        "news's refresh",
        "grant_type=refresh_token&client_id=news-client&client_secret=news-secret-news-secret-news-secret&refresh_token=",
    ),
    (
        "bye",
        "post_logout_redirect_uris = [\"http://127.0.0.1:8081/bye\"]",
    ),
    (
        "to bye",
        "post_logout_redirect_uri=http%3A%2F%2F127.0.0.1%3A8081%2Fbye",
    ),
    ("verifier", "dBjftJeZ4CVP-mB92K27uhbUJU1p1r_wW1gFWFOEjXk"),
    ("challenge", "E9Melhoa2OwvFrEMTJguCHaoeK1t8URWbuGJSstw-cM"),
];

/// The text with this name.
pub fn named(name: &str) -> Option<&'static str> {
    for (known, text) in TEXTS {
        if known == name {
            return Some(text);
        }
    }
    None
}

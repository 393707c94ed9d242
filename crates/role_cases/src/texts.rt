// The named texts of the table `provider`.

// Besides the words: authorization requests and token requests of the clients, and request objects. The objects are sealed with
// Python's `hmac` and `base64`: one with the nonce `inside`, the same under another secret, and one with the response type
// `id_token`.
const TEXTS: [(&str, &str); 19] = [
    (
        "shop",
        "client_id=shop-client&redirect_uri=http%3A%2F%2F127.0.0.1%3A8081%2Fcb&response_type=code&scope=openid",
    ),
    (
        "news",
        "client_id=news-client&redirect_uri=http%3A%2F%2F127.0.0.1%3A8082%2Fcb&response_type=id_token%20token&scope=openid",
    ),
    (
        "shop's code",
        "grant_type=authorization_code&client_id=shop-client&client_secret=shop-secret-shop-secret-shop-secret\
         &redirect_uri=http%3A%2F%2F127.0.0.1%3A8081%2Fcb&code=",
    ),
    (
        "mail's code",
        "grant_type=authorization_code&client_id=mail-client&client_secret=mail-secret-mail-secret-mail-secret\
         &redirect_uri=http%3A%2F%2F127.0.0.1%3A8081%2Fcb&code=",
    ),
    (
        "basic",
        "Basic c2hvcC1jbGllbnQ6c2hvcC1zZWNyZXQtc2hvcC1zZWNyZXQtc2hvcC1zZWNyZXQ=",
    ),
    (
        "beside",
        "response_type=code&redirect_uri=http%3A%2F%2F127.0.0.1%3A8081%2Fcb&nonce=beside",
    ),
    (
        "object",
        "request=eyJhbGciOiJIUzI1NiIsInR5cCI6IkpXVCJ9\
         .eyJhdWQiOiJodHRwOi8vMTI3LjAuMC4xOjgwODAvb3AiLCJpc3MiOiJzaG9wLWNsaWVudCIsIm5vbmNlIjoiaW5zaWRlIn0\
         .uSHFbwwGAMVjZi9cTHfWjM2fTTOW3yiEBQvntdz8iko",
    ),
    (
        "forged",
        "request=eyJhbGciOiJIUzI1NiIsInR5cCI6IkpXVCJ9\
         .eyJhdWQiOiJodHRwOi8vMTI3LjAuMC4xOjgwODAvb3AiLCJpc3MiOiJzaG9wLWNsaWVudCIsIm5vbmNlIjoiaW5zaWRlIn0\
         .cYjO3eRrcJjnD66JSCLkulohX0imv72teYD2qXxXgF0",
    ),
    (
        "different",
        "request=eyJhbGciOiJIUzI1NiIsInR5cCI6IkpXVCJ9\
         .eyJhdWQiOiJodHRwOi8vMTI3LjAuMC4xOjgwODAvb3AiLCJpc3MiOiJzaG9wLWNsaWVudCIsInJlc3BvbnNlX3R5cGUiOiJpZF90b2tlbiJ9\
         .T8Sd8789h_p8iEYDLTBnhfS6jZMg7ycuEw5sND3VD6E",
    ),
    (
        "wiki",
        "client_id=wiki-client&redirect_uri=http%3A%2F%2F127.0.0.1%3A8085%2Fcb%3Fx&scope=openid",
    ),
    (
        "news's code request",
        "client_id=news-client&redirect_uri=http%3A%2F%2F127.0.0.1%3A8082%2Fcb&response_type=code&scope=openid",
    ),
    (
        "news's code",
        "grant_type=authorization_code&client_id=news-client&client_secret=news-secret-news-secret-news-secret\
         &redirect_uri=http%3A%2F%2F127.0.0.1%3A8082%2Fcb&code=",
    ),
    (
        "news's code elsewhere",
        "grant_type=authorization_code&client_id=news-client&client_secret=news-secret-news-secret-news-secret\
         &redirect_uri=http%3A%2F%2F127.0.0.1%3A8082%2Fcc&code=",
    ),
    (
        "email",
        "claims=%7B%22id_token%22%3A%7B%22email%22%3Anull%7D%7D",
    ),
    (
        "mail",
        "client_id=mail-client&redirect_uri=http%3A%2F%2F127.0.0.1%3A8083%2Fcb&nonce=n&state=s&scope=openid",
    ),
    (
        "mail's own code",
        "grant_type=authorization_code&client_id=mail-client&client_secret=mail-secret-mail-secret-mail-secret\
         &redirect_uri=http%3A%2F%2F127.0.0.1%3A8083%2Fcb&code=",
    ),
    (
        "phone at UserInfo",
        "claims=%7B%22userinfo%22%3A%7B%22phone_number%22%3Anull%7D%7D",
    ),
    (
        "email at both",
        "claims=%7B%22id_token%22%3A%7B%22email%22%3Anull%7D%2C%22userinfo%22%3A%7B%22email%22%3Anull%7D%7D",
    ),
    (
        "bob",
        "claims=%7B%22id_token%22%3A%7B%22sub%22%3A%7B%22value%22%3A%22bob%22%7D%7D%7D",
    ),
];

/// The text with this name.
pub fn named(name: &str) -> Option<&'static str> {
    for (known, text) in TEXTS {
        if known == name {
            return Some(text);
        }
    }
    None
}

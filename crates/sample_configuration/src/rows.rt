// Parts of configurations.

/// The head of a configuration: a provider on this machine.
pub const PROVIDER: &str = "version = 1
[provider]
issuer = \"http://127.0.0.1:8080\"
listen = \"127.0.0.1:8080\"
salt = \"00112233445566778899aabbccddeeff\"
";

/// The user `alice` with the password `password`. Her proof has one round, and is computed with Python's hashlib.
pub const ALICE: &str = "[[user]]
id = \"alice\"
salt = \"73616c74\"
rounds = 1
proof = \"120fb6cffcf8b32c43e7225256c4f837a86548c92ccc35480805987cb70be17b\"
";

/// Claims of the user above them: a name and an email address. More claims may follow.
pub const ALICES_CLAIMS: &str = "[user.claims]
name = \"Alice Adams\"
email = \"alice@example.org\"
";

/// The user `bob` with the password `password`. His proof has two rounds, and is computed with Python's hashlib.
pub const BOB: &str = "[[user]]
id = \"bob\"
salt = \"73616c74\"
rounds = 2
proof = \"ae4d0c95af6b46d32d0adff928f06dd02a303f8ef3c251dfd6e2d85a95474c43\"
";

/// The client `shop-client` of the party `shop`.
pub const SHOP_CLIENT: &str = "[[client]]
id = \"shop-client\"
secret = \"shop-secret-shop-secret-shop-secret\"
redirect_uris = [\"http://127.0.0.1:8081/cb\"]
";

/// The client `news-client` of the party `news`.
pub const NEWS_CLIENT: &str = "[[client]]
id = \"news-client\"
secret = \"news-secret-news-secret-news-secret\"
redirect_uris = [\"http://127.0.0.1:8082/cb\"]
";

/// The client `mail-client` of the party `mail`.
pub const MAIL_CLIENT: &str = "[[client]]
id = \"mail-client\"
secret = \"mail-secret-mail-secret-mail-secret\"
redirect_uris = [\"http://127.0.0.1:8083/cb\"]
";

/// The client `a~b`. Forms write its id and its secret with escapes.
pub const ESCAPED_CLIENT: &str = "[[client]]
id = \"a~b\"
secret = \"x:y%z+&=/?#[]@!$()*,;<>~secretsecret\"
redirect_uris = [\"http://127.0.0.1:8084/cb\"]
";

/// The client `any-client`, which has two redirect URIs and every response type.
pub const ANY_CLIENT: &str = "[[client]]
id = \"any-client\"
secret = \"any-secret-any-secret-any-secret-any\"
redirect_uris = [\"https://a.b/1\", \"https://a.b/2\"]
response_types = [\"code\", \"id_token\", \"id_token token\", \"code id_token\", \"code token\", \"code id_token token\"]
";

/// The relying party `shop`.
pub const SHOP_PARTY: &str = "[[party]]
name = \"shop\"
client = \"shop-client\"
redirect_uri = \"http://127.0.0.1:8081/cb\"
listen = \"127.0.0.1:8081\"
";

/// The relying party `news`.
pub const NEWS_PARTY: &str = "[[party]]
name = \"news\"
client = \"news-client\"
redirect_uri = \"http://127.0.0.1:8082/cb\"
listen = \"127.0.0.1:8082\"
";

/// The relying party `mail`.
pub const MAIL_PARTY: &str = "[[party]]
name = \"mail\"
client = \"mail-client\"
redirect_uri = \"http://127.0.0.1:8083/cb\"
listen = \"127.0.0.1:8083\"
";

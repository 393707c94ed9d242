// Lifetimes, in seconds, of what the provider and a relying party keep and issue.

/// How many seconds a turn lives: an authorization request that is waiting for the user.
pub const TURN_LIFE: u32 = 600;

/// How many seconds a question lives: a request to sign out that is waiting for the user (OpenID Connect RP-Initiated Logout 1.0, 2).
pub const QUESTION_LIFE: u32 = 600;

/// How many seconds a session of the provider lives from its last login.
pub const SESSION_LIFE: u32 = 43_200;

/// How many seconds a code may be used (RFC 6749, 4.1.2: ten minutes at most).
pub const CODE_USABLE: u32 = 120;

/// How many seconds a code is kept: as long as what it gave may live.
pub const CODE_LIFE: u32 = 3720;

/// How many seconds an access token lives (RFC 6749, 4.2.2 and 5.1).
pub const ACCESS_LIFE: u32 = 3600;

/// `expires_in` of an access token: its life in decimal (RFC 6749, 4.2.2).
pub const EXPIRES_IN: &str = "3600";

/// How many seconds a family of refresh tokens lives: 30 days (OpenID Connect Core 1.0, 11).
pub const FAMILY_LIFE: u32 = 2_592_000;

/// How many seconds an ID Token is valid, from its `iat` on (OpenID Connect Core 1.0, 2).
pub const ID_TOKEN_LIFE: u64 = 300;

/// How many seconds a logout token is valid, from its `iat` on (OpenID Connect Back-Channel Logout 1.0, 2.4).
pub const LOGOUT_TOKEN_LIFE: u64 = 120;

/// How many seconds a login lives at a relying party, until its callback.
pub const LOGIN_LIFE: u32 = 600;

/// How many seconds a pending exchange of a relying party lives, from the token request on.
pub const PENDING_LIFE: u32 = 120;

/// How many seconds a session of a relying party lives.
pub const VISIT_LIFE: u32 = 28_800;

/// How many seconds a logout token is remembered (OpenID Connect Back-Channel Logout 1.0, 2.6).
pub const SEEN_LIFE: u32 = 661;

/// How many seconds clocks may differ (OpenID Connect Core 1.0, 2 and 3.1.3.7).
pub const LEEWAY: u64 = 60;

/// How many seconds old a token may be, from its `iat` (OpenID Connect Core 1.0, 3.1.3.7, step 10).
pub const OLDEST: u64 = 600;

// The rows of a relying party's tables.

ghost use Rattle.std.specs.Prelude.{Some, None, refl};
ghost use Rattle.held_rows.specs.Held.{AnyRow, one_of};

use held_rows::{By, Row};
use oidc_words::{LOGIN_LIFE, PENDING_LIFE, SEEN_LIFE, VISIT_LIFE};
use sso_base::{Moment, Text, Word, bytes_if};

/// A login that a browser began, until its callback (OpenID Connect Core 1.0, 3.1.2.1). It lives for 600 seconds.
#[derive(Clone, Copy, PartialEq, Eq)]
pub struct LoginRow {
    /// The `state` of the authorization request, which names the login.
    pub state: Word,
    /// The cookie of the browser that began it.
    pub browser: Word,
    /// The `nonce` of the authorization request, which the ID Token must repeat.
    pub nonce: Word,
    /// When it began.
    pub begun: Moment,
    /// The index, counted from 0, of the pair in the party's history that began it.
    pub by: u64,
}

/// What a pending exchange is waiting for: a response of the token endpoint (OpenID Connect Core 1.0, 3.1.3) or of the UserInfo
/// endpoint (5.3).
#[derive(Clone, Copy, PartialEq, Eq)]
pub enum Stage {
    /// A token response.
    Tokens,
    /// A UserInfo response.
    Info,
}

/// A pending exchange: a request to the provider that is waiting for its response. It lives for 120 seconds from `since`.
#[derive(Drop)]
pub struct PendingRow {
    /// The word that names the exchange.
    pub word: Word,
    /// The nonce of its login.
    pub nonce: Word,
    /// When its login began.
    pub begun: Moment,
    /// When the request was sent.
    pub since: Moment,
    /// The subject of the last ID Token so far.
    pub sub: Option<Text>,
    /// The `sid` of that token (OpenID Connect Front-Channel Logout 1.0, 3).
    pub sid: Option<Text>,
    /// The code of its callback.
    pub code: Option<Text>,
    /// What it is waiting for.
    pub stage: Stage,
    /// The index, counted from 0, of the pair in the party's history that began its login.
    pub by: u64,
}

/// A session: a login that the relying party accepted. It lives for 28,800 seconds.
#[derive(Drop)]
pub struct SessionRow {
    /// The cookie of the browser.
    pub word: Word,
    /// The nonce of its login.
    pub nonce: Word,
    /// The subject of its last ID Token.
    pub sub: Text,
    /// The `sid` of that token (OpenID Connect Front-Channel Logout 1.0, 3).
    pub sid: Option<Text>,
    /// When it began.
    pub entered: Moment,
}

/// A logout token that was accepted (OpenID Connect Back-Channel Logout 1.0, 2.6). It is remembered for 661 seconds.
#[derive(Drop)]
pub struct SeenRow {
    /// The token's `jti`, which names it (RFC 7519, 4.1.7).
    pub jti: Text,
    /// The number, counted from 1, of the pair in the party's history that accepted it.
    pub place: u64,
    /// When it was accepted.
    pub accepted: Moment,
}

/// A session identifier that an accepted logout token named. It is remembered for 661 seconds, as long as that token is. No
/// session with it begins meanwhile (our choice; OpenID Connect Back-Channel Logout 1.0, 2.7).
#[derive(Drop)]
pub struct DeadRow {
    /// The token's `sid` (OpenID Connect Back-Channel Logout 1.0, 2.4).
    pub sid: Text,
    /// The number, counted from 1, of the pair in the party's history that accepted the token.
    pub place: u64,
    /// When it was accepted.
    pub accepted: Moment,
}

impl Row for LoginRow {
    ghost use Rattle.oidc_words.specs.Lives.{login_life};
    ghost use Rattle.rp_login.specs.Rows.{login_name, login_begun};

    ghost name = { login_name };

    ghost key = { λ by row. one_of (Some row.state) (Some row.browser) None by };

    ghost begun = { login_begun };

    ghost IsSound = { AnyRow };

    ghost LIFE = { login_life };

    const LIFE: u32 = LOGIN_LIFE;

    fn key(&self, by: By) -> Option<&[u8]> {
        match by {
            By::Name => Some(self.state.as_bytes()),
            By::Group => Some(self.browser.as_bytes()),
            By::OtherGroup => None,
        }
    }

    fn begun(&self) -> Moment {
        self.begun
    }

    ghost named = { λ row. refl };
}

impl Row for PendingRow {
    ghost use Rattle.oidc_words.specs.Lives.{pending_life};
    ghost use Rattle.rp_login.specs.Rows.{pending_name, pending_begun};

    ghost name = { pending_name };

    ghost key = { λ by row. one_of (Some row.word) None None by };

    ghost begun = { pending_begun };

    ghost IsSound = { AnyRow };

    ghost LIFE = { pending_life };

    const LIFE: u32 = PENDING_LIFE;

    fn key(&self, by: By) -> Option<&[u8]> {
        match by {
            By::Name => Some(self.word.as_bytes()),
            By::Group | By::OtherGroup => None,
        }
    }

    fn begun(&self) -> Moment {
        self.since
    }

    ghost named = { λ row. refl };
}

impl Row for SessionRow {
    ghost use Rattle.oidc_words.specs.Lives.{visit_life};
    ghost use Rattle.rp_login.specs.Rows.{visit_name, visit_begun};

    ghost name = { visit_name };

    ghost key = { λ by row. one_of (Some row.word) (Some row.sub) row.sid by };

    ghost begun = { visit_begun };

    ghost IsSound = { AnyRow };

    ghost LIFE = { visit_life };

    const LIFE: u32 = VISIT_LIFE;

    fn key(&self, by: By) -> Option<&[u8]> {
        match by {
            By::Name => Some(self.word.as_bytes()),
            By::Group => Some(self.sub.as_str().as_bytes()),
            By::OtherGroup => bytes_if(&self.sid),
        }
    }

    fn begun(&self) -> Moment {
        self.entered
    }

    ghost named = { λ row. refl };
}

impl Row for SeenRow {
    ghost use Rattle.oidc_words.specs.Lives.{seen_life};
    ghost use Rattle.rp_login.specs.Rows.{seen_name, seen_begun};

    ghost name = { seen_name };

    ghost key = { λ by row. one_of (Some row.jti) None None by };

    ghost begun = { seen_begun };

    ghost IsSound = { AnyRow };

    ghost LIFE = { seen_life };

    const LIFE: u32 = SEEN_LIFE;

    fn key(&self, by: By) -> Option<&[u8]> {
        match by {
            By::Name => Some(self.jti.as_str().as_bytes()),
            By::Group | By::OtherGroup => None,
        }
    }

    fn begun(&self) -> Moment {
        self.accepted
    }

    ghost named = { λ row. refl };
}

impl Row for DeadRow {
    ghost use Rattle.oidc_words.specs.Lives.{seen_life};
    ghost use Rattle.rp_login.specs.Rows.{dead_name, dead_begun};

    ghost name = { dead_name };

    ghost key = { λ by row. one_of (Some row.sid) None None by };

    ghost begun = { dead_begun };

    ghost IsSound = { AnyRow };

    ghost LIFE = { seen_life };

    const LIFE: u32 = SEEN_LIFE;

    fn key(&self, by: By) -> Option<&[u8]> {
        match by {
            By::Name => Some(self.sid.as_str().as_bytes()),
            By::Group | By::OtherGroup => None,
        }
    }

    fn begun(&self) -> Moment {
        self.accepted
    }

    ghost named = { λ row. refl };
}

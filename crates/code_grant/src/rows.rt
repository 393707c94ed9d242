// The rows of the provider's tables.

ghost use Rattle.std.specs.Prelude.{◌≡◌, ◌<◌, Some, None, option_map, refl};
ghost use Rattle.held_rows.specs.Held.{one_of};

use auth_request::Wish;
use client_registry::ClientSet;
use held_rows::{By, Row};
use oidc_words::{ACCESS_LIFE, CODE_LIFE, SESSION_LIFE, Scopes, TURN_LIFE};
use sso_base::{Moment, Texts, Word};

/// A turn: an authorization request that is waiting for the user, until it is answered or refused. It lives for 600 seconds.
#[derive(Drop)]
pub struct TurnRow {
    pub word: Word,
    /// The cookie of the browser that the page was sent to.
    pub browser: Word,
    pub wish: Wish,
    /// The session of the turn, if there is one.
    pub session: Option<Word>,
    /// Whether the user logged in during this turn.
    pub in_turn: bool,
    pub begun: Moment,
}

/// A session: a user who logged in with one browser. It lives for 43,200 seconds from `auth_time`.
#[derive(Clone, Copy, PartialEq, Eq)]
pub struct SessionRow {
    /// The cookie of the browser.
    pub word: Word,
    /// The session's name for clients (OpenID Connect Front-Channel Logout 1.0, 3).
    pub sid: Word,
    /// The number of the user, counted from 0.
    pub user: u32,
    /// When the user last logged in.
    pub auth_time: Moment,
    /// The clients that the session has logged in to.
    pub clients: ClientSet,
}

/// A code (RFC 6749, 4.1.2). It may be used for 120 seconds and is kept for 3,720.
#[derive(Drop)]
pub struct CodeRow {
    pub word: Word,
    pub wish: Wish,
    /// The number of the user, counted from 0.
    pub user: u32,
    pub sid: Word,
    pub auth_time: Moment,
    pub issued: Moment,
    /// Whether it was redeemed.
    pub spent: bool,
    /// The index, counted from 0, of the pair in the provider's history that issued it.
    pub by: u64,
}

/// An access token (RFC 6749, 1.4). It lives for 3,600 seconds.
#[derive(Drop)]
pub struct TokenRow {
    pub word: Word,
    /// The number of the client, counted from 0.
    pub client: u32,
    /// The number of the user, counted from 0.
    pub user: u32,
    pub scopes: Scopes,
    /// The names of the claims that are requested from the UserInfo endpoint.
    pub asked: Texts,
    /// The code for which the token endpoint issued it, if there is one.
    pub code: Option<Word>,
    pub issued: Moment,
    /// The index, counted from 0, of the pair in the provider's history that issued it.
    pub by: u64,
}

impl Row for TurnRow {
    ghost use Rattle.oidc_words.specs.Lives.{turn_life};
    ghost use Rattle.code_grant.specs.Rows.{turn_name, turn_begun};

    ghost name = { turn_name };

    ghost key = { λ by row. one_of (Some row.word) (Some row.browser) None by };

    ghost begun = { turn_begun };

    ghost IsSound = { λ row. row.wish.client < 128 };

    ghost LIFE = { turn_life };

    const LIFE: u32 = TURN_LIFE;

    fn key(&self, by: By) -> Option<&[u8]> {
        match by {
            By::Name => Some(self.word.as_bytes()),
            By::Group => Some(self.browser.as_bytes()),
            By::OtherGroup => None,
        }
    }

    fn begun(&self) -> Moment {
        self.begun
    }

    ghost named = { λ row. refl };
}

impl Row for SessionRow {
    ghost use Rattle.oidc_words.specs.Lives.{session_life};
    ghost use Rattle.code_grant.specs.Rows.{session_name, session_begun};

    ghost name = { session_name };

    ghost key = { λ by row. one_of (Some row.word) None None by };

    ghost begun = { session_begun };

    ghost IsSound = { λ row. row.user < 512 };

    ghost LIFE = { session_life };

    const LIFE: u32 = SESSION_LIFE;

    fn key(&self, by: By) -> Option<&[u8]> {
        match by {
            By::Name => Some(self.word.as_bytes()),
            By::Group | By::OtherGroup => None,
        }
    }

    fn begun(&self) -> Moment {
        self.auth_time
    }

    ghost named = { λ row. refl };
}

impl Row for CodeRow {
    ghost use Rattle.oidc_words.specs.Lives.{code_life};
    ghost use Rattle.code_grant.specs.Rows.{code_name, code_begun};

    ghost name = { code_name };

    ghost key = { λ by row. one_of (Some row.word) None None by };

    ghost begun = { code_begun };

    ghost IsSound = { λ row. (row.user < 512) × (row.wish.client < 128) };

    ghost LIFE = { code_life };

    const LIFE: u32 = CODE_LIFE;

    fn key(&self, by: By) -> Option<&[u8]> {
        match by {
            By::Name => Some(self.word.as_bytes()),
            By::Group | By::OtherGroup => None,
        }
    }

    fn begun(&self) -> Moment {
        self.issued
    }

    ghost named = { λ row. refl };
}

impl Row for TokenRow {
    ghost use Rattle.oidc_words.specs.Lives.{access_life};
    ghost use Rattle.code_grant.specs.Rows.{access_name, access_begun};

    ghost name = { access_name };

    ghost key = { λ by row. one_of (Some row.word) row.code None by };

    ghost begun = { access_begun };

    ghost IsSound = { λ row. (row.user < 512) × (row.client < 128) };

    ghost LIFE = { access_life };

    const LIFE: u32 = ACCESS_LIFE;

    fn key(&self, by: By) -> Option<&[u8]> {
        match by {
            By::Name => Some(self.word.as_bytes()),
            By::Group => word_bytes_if(&self.code),
            By::OtherGroup => None,
        }
    }

    fn begun(&self) -> Moment {
        self.issued
    }

    ghost named = { λ row. refl };
}

// The bytes of the word, if there is one.
fn word_bytes_if(word: &Option<Word>) -> Option<&[u8]>
    ensures { option_map (λ b. b.now) result ≡ word.now }
{
    match word {
        Some(word) => Some(word.as_bytes()),
        None => None,
    }
}

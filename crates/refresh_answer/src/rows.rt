// The rows of families of refresh tokens, and of their access tokens.

ghost use Rattle.std.specs.Prelude.{◌<◌, ◌^◌, Some, None, refl};
ghost use Rattle.held_rows.specs.Held.{AnyRow, one_of};

use crate::place::Place;
use held_rows::{By, Row};
use oidc_words::{ACCESS_LIFE, FAMILY_LIFE, Scopes};
use sso_base::{Moment, Texts, Word};

/// A family of refresh tokens. It lives for 2,592,000 seconds, unless it is ended.
#[derive(Drop)]
pub struct FamilyRow {
    /// The place of the pair in the history that began it.
    pub by: Place,
    /// The code for which it began.
    pub code: Word,
    /// The number of the client, counted from 0.
    pub client: u32,
    /// The number of the user, counted from 0.
    pub user: u32,
    /// The scope values of its access tokens.
    pub scopes: Scopes,
    /// The names of the claims that are requested from the UserInfo endpoint.
    pub asked: Texts,
    /// When it began.
    pub begun: Moment,
}

/// A refresh token of a family: the current one, or an old one.
#[derive(Clone, Copy)]
pub struct RefreshRow {
    pub word: Word,
    /// The place of the pair that began the family.
    pub family: u64,
    pub current: bool,
}

/// An access token of a family. It lives for 3,600 seconds, and while its family lives.
#[derive(Drop)]
pub struct AccessRow {
    pub word: Word,
    /// The place of the pair that began the family.
    pub family: Place,
    pub issued: Moment,
}

impl Row for FamilyRow {
    ghost use Rattle.oidc_words.specs.Lives.{family_life};
    ghost use Rattle.refresh_answer.specs.Places.{place_bytes};
    ghost use Rattle.refresh_answer.specs.Rows.{family_name, family_begun};

    ghost name = { family_name };

    ghost key = { λ by row. one_of (Some (place_bytes row.by)) (Some row.code) None by };

    ghost begun = { family_begun };

    ghost IsSound = { λ row. row.by < 2 ^ 64 };

    ghost LIFE = { family_life };

    const LIFE: u32 = FAMILY_LIFE;

    fn key(&self, by: By) -> Option<&[u8]> {
        match by {
            By::Name => Some(self.by.as_bytes()),
            By::Group => Some(self.code.as_bytes()),
            By::OtherGroup => None,
        }
    }

    fn begun(&self) -> Moment {
        self.begun
    }

    ghost named = { λ row. refl };
}

impl Row for AccessRow {
    ghost use Rattle.oidc_words.specs.Lives.{access_life};
    ghost use Rattle.refresh_answer.specs.Places.{place_bytes};
    ghost use Rattle.refresh_answer.specs.Rows.{access_name, access_begun};

    ghost name = { access_name };

    ghost key = { λ by row. one_of (Some row.word) (Some (place_bytes row.family)) None by };

    ghost begun = { access_begun };

    ghost IsSound = { AnyRow };

    ghost LIFE = { access_life };

    const LIFE: u32 = ACCESS_LIFE;

    fn key(&self, by: By) -> Option<&[u8]> {
        match by {
            By::Name => Some(self.word.as_bytes()),
            By::Group => Some(self.family.as_bytes()),
            By::OtherGroup => None,
        }
    }

    fn begun(&self) -> Moment {
        self.issued
    }

    ghost named = { λ row. refl };
}

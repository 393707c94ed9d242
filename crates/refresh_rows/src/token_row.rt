ghost use Rattle.std.specs.Prelude.{Some, None, refl};
ghost use Rattle.held_rows.specs.Held.{AnyRow, one_of};

use held_rows::{By, Row};
use oidc_words::FAMILY_LIFE;
use refresh_answer::Place;
use sso_base::{Moment, Word};

/// A refresh token in a table. It leaves the table with its family.
#[derive(Drop)]
pub(crate) struct TokenRow {
    pub(crate) word: Word,
    /// The place of the pair that began the family.
    pub(crate) family: Place,
    pub(crate) current: bool,
    /// Since when it is the current token, or an old one.
    pub(crate) since: Moment,
}

impl Row for TokenRow {
    ghost use Rattle.refresh_answer.specs.Places.{place_bytes};
    ghost use Rattle.oidc_words.specs.Lives.{family_life};
    ghost use Rattle.refresh_rows.specs.TokenRows.{held_name, held_since};

    ghost name = { held_name };

    ghost key = { λ by row. one_of (Some row.word) (Some (place_bytes row.family)) None by };

    ghost begun = { held_since };

    ghost IsSound = { AnyRow };

    ghost LIFE = { family_life };

    const LIFE: u32 = FAMILY_LIFE;

    fn key(&self, by: By) -> Option<&[u8]> {
        match by {
            By::Name => Some(self.word.as_bytes()),
            By::Group => Some(self.family.as_bytes()),
            By::OtherGroup => None,
        }
    }

    fn begun(&self) -> Moment {
        self.since
    }

    ghost named = { λ row. refl };
}

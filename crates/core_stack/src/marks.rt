// The rows of turns and codes of the provider, as a core that stands around it keeps them.

ghost use Rattle.std.specs.Prelude.{Some, None, refl};
ghost use Rattle.held_rows.specs.Held.{AnyRow, one_of};

use held_rows::{By, Row};
use oidc_words::{CODE_LIFE, TURN_LIFE};
use sso_base::{Moment, Word};

/// A turn of the provider, with a mark of the authorization request that began it. It lives for 600 seconds, as the turn.
#[derive(Drop)]
pub struct TurnMark<M: Drop> {
    /// The word of the turn.
    pub turn: Word,
    /// The mark of its authorization request.
    pub mark: M,
    /// When it began.
    pub begun: Moment,
}

/// A code of the provider, with a mark of the authorization request that it answers. It lives for 3,720 seconds, as long as the
/// provider keeps the code.
#[derive(Drop)]
pub struct CodeMark<M: Drop> {
    /// The code.
    pub code: Word,
    /// The mark of its authorization request.
    pub mark: M,
    /// When it was issued.
    pub issued: Moment,
}

impl<M: Drop> Row for TurnMark<M> {
    ghost use Rattle.oidc_words.specs.Lives.{turn_life};
    ghost use Rattle.core_stack.specs.Rows.{turn_mark_name, turn_mark_begun};

    ghost name = { turn_mark_name };

    ghost key = { λ by row. one_of (Some row.turn) None None by };

    ghost begun = { turn_mark_begun };

    ghost IsSound = { AnyRow };

    ghost LIFE = { turn_life };

    const LIFE: u32 = TURN_LIFE;

    fn key(&self, by: By) -> Option<&[u8]> {
        match by {
            By::Name => Some(self.turn.as_bytes()),
            By::Group | By::OtherGroup => None,
        }
    }

    fn begun(&self) -> Moment {
        self.begun
    }

    ghost named = { λ row. refl };
}

impl<M: Drop> Row for CodeMark<M> {
    ghost use Rattle.oidc_words.specs.Lives.{code_life};
    ghost use Rattle.core_stack.specs.Rows.{code_mark_name, code_mark_begun};

    ghost name = { code_mark_name };

    ghost key = { λ by row. one_of (Some row.code) None None by };

    ghost begun = { code_mark_begun };

    ghost IsSound = { AnyRow };

    ghost LIFE = { code_life };

    const LIFE: u32 = CODE_LIFE;

    fn key(&self, by: By) -> Option<&[u8]> {
        match by {
            By::Name => Some(self.code.as_bytes()),
            By::Group | By::OtherGroup => None,
        }
    }

    fn begun(&self) -> Moment {
        self.issued
    }

    ghost named = { λ row. refl };
}

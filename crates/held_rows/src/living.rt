// The rows that pass a test and live at a moment.

ghost use Rattle.std.specs.Prelude.{◌&&◌};
ghost use Rattle.std.proofs.lemmas.Bool.{and_parts};
ghost use Rattle.sso_base.specs.Rows.{lives};

use crate::row::{By, Row, Test};
use sso_base::{Moment, is_live};

// A test that a row passes if it passes another test and lives at the moment.
#[derive(Clone, Copy)]
pub(crate) struct Living<'a, T> {
    pub(crate) test: &'a T,
    pub(crate) at: Moment,
}

impl<R: Row, T: Test<R>> Test<R> for Living<'_, T> {
    ghost passes = { λ t row. lives R.LIFE (R.begun row) t.at && T.passes t.test.now row };

    ghost by = { λ t. T.by t.test.now };

    ghost key = { λ t. T.key t.test.now };

    fn passes(&self, row: &R) -> bool {
        is_live(R::LIFE, row.begun(), self.at) && self.test.passes(row)
    }

    fn by(&self) -> By {
        self.test.by()
    }

    fn key(&self) -> &[u8] {
        self.test.key()
    }

    ghost are_found = { λ t row e. T.are_found t.test.now row (and_parts (lives R.LIFE (R.begun row) t.at) (T.passes t.test.now row) e).1 };
}

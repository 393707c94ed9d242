// The rows that have a word as one of their keys.

ghost use Rattle.std.specs.Prelude.{◌≡◌, true, Some, refl};
ghost use Rattle.sso_base.specs.Words.{is_word};
ghost use Rattle.sso_base.proofs.RowLaws.{bytes_same};
ghost use Rattle.held_rows.specs.FoundBy.{found_by};

use crate::row::{By, Row, Test};
use sso_base::Word;

/// A test that a row passes if this key of it is this word.
#[derive(Clone, Copy)]
pub struct Keyed {
    /// The kind of the key.
    pub by: By,
    /// The word that it is.
    pub word: Word,
}

// Whether the row has this key.
fn has_key<R: Row>(row: &R, by: By, key: &[u8]) -> bool
    ensures yes { result ≡ true → R.key by row.now ≡ Some key.now }
    ensures no { R.key by row.now ≡ Some key.now → result ≡ true }
{
    match row.key(by) {
        Some(found) => found == key,
        None => false,
    }
}

// The same as an equation.
fn is_keyed<R: Row>(row: &R, by: By, key: &[u8]) -> bool
    ensures { result ≡ is_word (R.key by row.now) key.now }
{
    has_key(row, by, key)
}

impl<R: Row> Test<R> for Keyed {
    ghost passes = { λ t row. is_word (R.key t.by row) t.word };

    ghost by = { λ t. t.by };

    ghost key = { λ t. t.word };

    fn passes(&self, row: &R) -> bool {
        is_keyed(row, self.by, self.word.as_bytes())
    }

    fn by(&self) -> By {
        self.by
    }

    fn key(&self) -> &[u8] {
        self.word.as_bytes()
    }

    ghost are_found = { λ t row passes. found_by t.word (λ held. is_word held t.word) refl (λ held same. bytes_same held t.word same) (R.key t.by row) passes };
}

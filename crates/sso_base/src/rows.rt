//! Tables of named rows. A table is a plain list, in the order of issue.

ghost use Rattle.std.specs.Prelude.{◌≡◌, ℕ, ◌+◌, ◌<◌, ◌≤◌, List, Some, vec_len};
ghost use Rattle.std.specs.Option.{option_copied};
ghost use Rattle.std.specs.Vec.{vec_capacity};
ghost use Rattle.sso_base.specs.Rows.{without, put, row_of, lives};

use crate::moment::Moment;
use crate::word::Word;

/// A row that a word names.
pub trait Named {
    /// The word that names it.
    ghost name: { Self → List ℕ };

    /// The word that names it.
    fn name(&self) -> Word
        ensures { result ≡ name self.now };
}

/// The row of a name; `None` if and only if no row has it.
pub fn find_row<R: Named>(rows: &[R], word: Word) -> Option<&R>
    ensures { option_copied result ≡ row_of R.name word rows.now }
{
    for row in rows {
        if row.name() == word {
            return Some(row);
        }
    }
    None
}

/// Removes the rows of this name.
pub fn remove_row<R: Named + Drop>(rows: &mut Vec<R>, word: Word)
    ensures rows { rows.new.items ≡ without R.name word rows.old.items }
    ensures bound { vec_len rows.new ≤ vec_len rows.old }
    ensures capacity { vec_capacity rows.new ≡ vec_capacity rows.old }
{
    rows.retain(|row| row.name() != word);
}

/// Puts a row at the end, and removes the rows of its name. Room was reserved for it.
pub fn put_row<R: Named + Drop>(rows: &mut Vec<R>, row: R)
    requires reserved { vec_len rows.old < vec_capacity rows.old }
    ensures rows { rows.new.items ≡ put R.name (Some row) rows.old.items }
    ensures bound { vec_len rows.new ≤ vec_len rows.old + 1 }
    ensures capacity { vec_capacity rows.new ≡ vec_capacity rows.old }
{
    remove_row(rows, row.name());
    rows.push_reserved(row);
}

/// Whether something that begins at one moment and lives for `life` seconds is live at another. At its end it is no longer
/// live.
pub fn is_live(life: u32, begun: Moment, at: Moment) -> bool
    ensures { result ≡ lives life begun at }
{
    at.seconds() < begun.seconds() + life as u64
}

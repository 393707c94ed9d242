// Laws about every table, for the crates above.

ghost use Rattle.std.specs.Prelude.{◌≡◌, List, length, None};
ghost use Rattle.sso_base.specs.Words.{Word};
ghost use Rattle.sso_base.specs.Rows.{row_of};
ghost use Rattle.held_rows.specs.Held.{changed};
ghost use Rattle.held_rows.specs.Laws.{PurgesLeaveWhatLives, ChangesAreOfTheirRow, ChangesLeaveOtherRows};

use crate::row::Row;

/// For each name, a purge leaves the row that lives.
pub fn purges_leave_what_lives<R: Row>()
    ensures { PurgesLeaveWhatLives R.name }
{}

/// A change of the row of a name leaves the rows of other names and the order of all rows unchanged.
pub fn changes_are_of_one_row<R: Row>()
    ensures row { ChangesAreOfTheirRow R.name }
    ensures others { ChangesLeaveOtherRows R.name }
    ensures places { (w : Word) (change : R → R) (rows : List R) → length (changed R.name w change rows) ≡ length rows }
    ensures none { (w : Word) (change : R → R) (rows : List R) → row_of R.name w rows ≡ None → changed R.name w change rows ≡ rows }
{}

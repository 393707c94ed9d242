// Adding refresh tokens and access tokens.

ghost use Rattle.std.specs.Prelude.{◌≡◌, ◌<◌, ◌≤◌, true, false, length, None, Some, IsSome};
ghost use Rattle.sso_base.specs.Rows.{put, row_of};
ghost use Rattle.held_rows.specs.Held.{most_rows, none_after};
ghost use Rattle.refresh_answer.specs.Rows.{access_name, access_begun};
ghost use Rattle.refresh_rows.specs.TokenRows as spec;

use crate::token_row::TokenRow;
use held_rows::Held;
use refresh_answer::{AccessRow, Place};
use sso_base::{Moment, Word};

/// Makes a token old. It moves to the end, so no memory is allocated.
pub(crate) fn retire(tokens: &mut Held<TokenRow>, word: Word, family: u64, since: Moment)
    requires there { IsSome (row_of spec.held_name word tokens.old.rows) }
    requires latest { none_after spec.held_since since tokens.old.rows ≡ true }
    ensures rows { tokens.new.rows ≡ put spec.held_name (Some (spec.held_token word family false since)) tokens.old.rows }
    ensures room { tokens.new.capacity ≡ tokens.old.capacity }
    ensures bound { length tokens.new.rows ≤ length tokens.old.rows }
{
    let row = TokenRow {
        word,
        family: Place::new(family),
        current: false,
        since,
    };
    tokens.put(word.as_bytes(), row);
}

/// Adds a current token with a new word.
pub(crate) fn issue(tokens: &mut Held<TokenRow>, word: Word, family: u64, since: Moment)
    requires room { length tokens.old.rows < tokens.old.capacity }
    requires few { length tokens.old.rows < most_rows }
    requires unnamed { row_of spec.held_name word tokens.old.rows ≡ None }
    requires latest { none_after spec.held_since since tokens.old.rows ≡ true }
    ensures rows { tokens.new.rows ≡ put spec.held_name (Some (spec.held_token word family true since)) tokens.old.rows }
    ensures room { tokens.new.capacity ≡ tokens.old.capacity }
{
    let row = TokenRow {
        word,
        family: Place::new(family),
        current: true,
        since,
    };
    tokens.add(row);
}

/// Puts an access token, in place of one with the same word.
pub(crate) fn put_access(accesses: &mut Held<AccessRow>, row: AccessRow)
    requires room { length accesses.old.rows < accesses.old.capacity }
    requires few { length accesses.old.rows < most_rows }
    requires latest { none_after access_begun row.issued accesses.old.rows ≡ true }
    ensures rows { accesses.new.rows ≡ put access_name (Some row) accesses.old.rows }
    ensures room { accesses.new.capacity ≡ accesses.old.capacity }
{
    accesses.remove(row.word.as_bytes());
    accesses.add(row);
}

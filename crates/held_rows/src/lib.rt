//! The table of named rows, used by the tables of both roles. Its laws relate a table to a history: if the live rows of both
//! are the same, they are still the same after one more pair.
//!
//! | Module | What it has |
//! |---|---|
//! | `row` | [`Row`], a row of a table; [`By`], the keys of a row; [`Change`], a change of a row; [`Test`], a test of rows |
//! | `keyed` | [`Keyed`], the test of rows that have a word as one of their keys |
//! | `held` | [`Held`], the rows of one table, in the order of the moments from which they live |
//! | `stored` | the rows in slots, and the order of issue |
//! | `index` | the slots of the rows that have a key, in the order of its bytes |
//! | `slot_vec` | values in numbered slots, and which slots are free |
//! | `living` | the rows that pass a test and live at a moment |
//! | `law` | what a purge and a change leave |
//!
//! A row stays in its slot. Only slot numbers are kept in order: in a queue by issue, and in one sorted index for each key. So
//! a purge reads one row more than it removes, and a row is found by its key with a binary search.
#![tactic(auto)]

mod held;
mod index;
mod keyed;
mod law;
mod living;
mod row;
mod slot_vec;
mod stored;

pub use held::Held;
pub use keyed::Keyed;
pub use law::{changes_are_of_one_row, purges_leave_what_lives};
pub use row::{By, Change, Row, Test};

//! The book of a core with refresh tokens: the families that live, their refresh tokens and their access tokens.
//!
//! | Module | What it has |
//! |---|---|
//! | `token_row` | a refresh token in a table |
//! | `matching` | the families of a place or a code, and the tokens of a family |
//! | `dropping` | removes families, with all their tokens |
//! | `adding` | adds refresh tokens and access tokens |
//! | `book` | [`Book`], the three tables |
//!
//! Tokens are found by their words and by their families, and families by their places and their codes. A family is removed at the first
//! entry after its life, with its tokens, so each row is removed once.
#![tactic(auto)]

mod adding;
mod book;
mod dropping;
mod matching;
mod token_row;

pub use book::Book;

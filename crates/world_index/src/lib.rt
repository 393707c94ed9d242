//! An index of the places of a world: the numbers for which a cookie was set, the tokens that were written for a client, and
//! the first word with a half hash. Each change takes its memory first, so a failed one changes nothing.
//!
//! | Module | What it has |
//! |---|---|
//! | `setters` | [`Setters`]: for each word, the numbers whose replies set it |
//! | `written`, `text_set` | [`Written`]: for each client, the tokens that were written for it |
//! | `halves` | [`Halves`]: for each half hash, the first word that was issued with it |
#![tactic(auto)]

mod halves;
mod setters;
mod text_set;
mod written;

pub use halves::Halves;
pub use setters::Setters;
pub use written::Written;

//! The provider's part of an honest login: its rows stay while other requests present none of their words, and each place of
//! the login gets a reply that leads on. It has no running code.
//!
//! | Module | What it has | Its definitions, in `specs/` |
//! |---|---|---|
//! | `law` | lemmas: rows persist, and a live access token is answered | `Sparing` |
#![tactic(auto)]

mod law;

pub use law::{live_tokens_are_answered, rows_persist};

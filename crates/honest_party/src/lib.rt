//! The relying party's part of an honest login: its rows stay while other requests name none of their words, and each place of
//! the login gets a reply that leads on. It has no running code.
//!
//! | Module | What it has | Its definitions, in `specs/` |
//! |---|---|---|
//! | `law` | a lemma: rows persist | `Sparing` |
#![tactic(auto)]

mod law;

pub use law::rows_persist;

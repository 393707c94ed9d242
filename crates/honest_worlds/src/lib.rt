//! Worlds that show what the definition of an honest login is worth: whole logins keep it, and each of its conditions is needed. Also
//! what a law of authorization is worth. It has no running code, and only `played_logins` uses it.
//!
//! | Module | What it has | Its definitions, in `specs/` |
//! |---|---|---|
//! | `law` | that whole logins are honest and end with a session, and that no condition can be left out | `Whole`, `Session`, `Needed` |
//! | | that a law of authorization needs unforged tokens | |
#![tactic(auto)]

mod law;

pub use law::{no_condition_can_be_left_out, unforged_tokens_are_needed, whole_logins_are_honest};

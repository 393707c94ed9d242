//! Traces that a replay plays as whole honest logins, so that the theorem about replays is not empty: its premises hold together in a
//! play that ends with a session. It has no running code, and no crate uses it.
//!
//! | Module | What it has | Its definitions, in `specs/` |
//! |---|---|---|
//! | `law` | that these traces are played as whole logins | `Traces`, `Played` |
#![tactic(auto)]

mod law;

pub use law::whole_logins_are_played;

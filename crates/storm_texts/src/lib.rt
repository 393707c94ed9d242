//! The configuration and the trace of a storm, which tests a provider and three relying parties with many logins.
//!
//! | Module | What it has | Its definitions, in `specs/` |
//! |---|---|---|
//! | `config` | [`storm_config`] | `Config` |
//! | `lines` | the lines of a trace | `Lines` |
//! | `login` | the logins | `Logins` |
//! | `trace` | [`storm_trace`] | `Trace` |
//! | `law` | [`storms_are_accepted`] | `Parties` |
#![tactic(auto)]

mod config;
mod law;
mod lines;
mod login;
mod trace;

pub use config::storm_config;
pub use law::storms_are_accepted;
pub use trace::storm_trace;

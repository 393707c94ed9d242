//! The top call: runs the command that the program's words give. It works over any shelf of files, any sink for the text, and
//! any desks at which connections are served. The sign-on theorem, and that honest logins succeed, are clauses of its contract.
//!
//! | Module | What it has | Its definitions, in `specs/` |
//! |---|---|---|
//! | `top` | [`sso`], over any shelf, sink and desks | `Ends`, `SignOn`, `Statuses` |
//! | `command` | runs a command, with contents fetched from the shelf | `Outcomes` |
//! | `outcome` | the outcomes for no command, and for a shelf that failed | `Outcomes` |
//! | `replaying` | the outcomes of `replay` | `Answer` |
//! | `storms` | the outcomes of `storm` | `Answer` |
//! | `servers` | the outcomes of `op`, `rp`, `op-plus` and `rp-plus` | `Asked`, `Outcomes` |
//! | `configuration` | the outcomes for a rejected configuration | `Answer` |
//! | `refusal` | why a command is refused, as it is displayed, and the outcome | `Refused` |
//! | `token` | the outcomes of `token` | `Answer` |
#![tactic(auto)]

mod command;
mod configuration;
mod outcome;
mod refusal;
mod replaying;
mod servers;
mod storms;
mod token;
mod top;

pub use crate::top::sso;

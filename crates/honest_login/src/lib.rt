//! The theorem that honest logins succeed, whatever else is requested. It has no running code.
//!
//! | Module | What it has |
//! |---|---|
//! | `law` | the theorem |
#![tactic(auto)]

mod law;

pub use law::honest_entry;

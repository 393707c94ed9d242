//! The sign-on machine: what a sign-on system may do, and the state after that. It has no keys, times, tokens or tables, so
//! that a person can read it and agree. The crate `sign_on` proves that the reading of a world is one of its runs.
//!
//! `specs/Rows.antt` has its rows and steps. `specs/Machine.antt` defines when a step is allowed, and the state after it.
#![tactic(auto)]

mod law;

pub use law::{begun_answered_signed, ended_sids_stay_out, named_sessions_end, once_each};

//! The servers of the sign-on system: those of the provider and of a relying party, alone and with all that other crates add to them.
//!
//! The crate `server_roles` has a server for any core. This crate puts the cores together.
//!
//! | Module | What it has |
//! |---|---|
//! | `cores` | the cores that are put together, as in [`op_plus_core`] |
//! | `layers` | the provider's server for cores around others |
//! | `ran` | [`run_op`], [`run_rp`], [`run_op_plus`] and [`run_rp_plus`], the servers |
#![tactic(auto)]

mod cores;
mod layers;
mod ran;

pub use cores::op_plus_core;
pub use ran::{run_op, run_op_plus, run_rp, run_rp_plus};

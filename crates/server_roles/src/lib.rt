//! The two roles of the sign-on system for servers with worker threads, and their servers. A server is generic in its core: any core
//! that the provider is in, or any that a relying party is in.
//!
//! The crate `serving` defines how any server works. This crate has what differs between the two: how requests are parsed for their
//! cores, and how their replies are sent.
//!
//! | Module | What it has |
//! |---|---|
//! | `op_role`, `rp_role` | [`OpRole`] and [`RpRole`], the roles |
//! | `op`, `rp` | [`serve_op`] and [`serve_rp`], the servers |
//! | `law` | [`cookies_are_read_as_they_were_set`] |
//! | `ran` | [`run_provider`] and [`run_party`], the same without their cores, and [`Ran`], their result |
#![tactic(auto)]

mod law;
mod op;
mod op_role;
mod ran;
mod rp;
mod rp_role;

pub use law::cookies_are_read_as_they_were_set;
pub use op::serve_op;
pub use op_role::OpRole;
pub use ran::{Ran, run_party, run_provider};
pub use rp::serve_rp;
pub use rp_role::RpRole;

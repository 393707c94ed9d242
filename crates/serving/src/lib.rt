//! A server for any role. One worker for each desk reads requests, steps the core and writes the replies, over one store.
//! Proofs of passwords take long: workers make them behind a gate, so that some always serve other requests.
//!
//! | Module | What it has |
//! |---|---|
//! | `role` | [`Role`]: the role that a server has |
//! | `backend` | [`Backend`]: what the workers of a server share |
//! | `step` | one step of a core, with a moment of the clock and four random words |
//! | `sending` | sends messages over a link |
//! | `no_reply` | why a connection gets no reply of a core, and what is sent instead |
//! | `writing` | writes to a connection |
//! | `ends` | [`Served`] and [`ServedEnd`]: how the serving of a connection ended |
//! | `serve_one` | [`serve_connection`] serves one connection |
//! | `work` | [`serve_desk`] serves the connections of a door; [`Worked`] and [`WorkEnd`] are how that ended |
//! | `seats` | desks with their passes, served concurrently |
//! | `server` | [`serve`], a server |
//! | `summary`, `tells` | [`Summary`], what a server did, and [`Tells`], the ghost contents of its desks |
#![tactic(auto)]

mod backend;
mod ends;
mod no_reply;
mod role;
mod seats;
mod sending;
mod serve_one;
mod server;
mod step;
mod summary;
mod tells;
mod work;
mod writing;

pub use backend::Backend;
pub use ends::{Served, ServedEnd};
pub use role::Role;
pub use serve_one::serve_connection;
pub use server::serve;
pub use summary::Summary;
pub use tells::Tells;
pub use work::{WorkEnd, Worked, serve_desk};

//! The provider (OpenID Connect Core 1.0, 3): the reply to each request is defined by the earlier requests and replies.
//!
//! [`OpCore`] implements `Core`. Its reply is `op_answer` of its past, and the live rows of its tables are exactly those that live
//! after the history. It stores its history, unless the registry's histories last. A step allocates everything before its first
//! change.
//!
//! | Module | What it has |
//! |---|---|
//! | `state` | [`OpCore`], a provider with its history and its tables |
//! | `step` | one step |
//! | `answering`, `replying`, `redeeming`, `info`, `sign_out` | the reply, from the live rows |
//! | `authentications` | the login in tokens |
//! | `questions`, `room` | lookups in the tables, and whether they have room |
//! | `in_turn` | the replies to requests, one after another, as a legal history |
//! | `outcome`, `making` | a reply with its effects: rows, the session that it used, the client that it answered |
//!
//! The crate `op_tables` updates the tables with a pair.
#![tactic(auto)]

mod answering;
mod authentications;
mod in_turn;
mod info;
mod making;
mod outcome;
mod questions;
mod redeeming;
mod replying;
mod room;
mod sign_out;
mod state;
mod step;

pub use in_turn::provider_in_turn;
pub use state::OpCore;

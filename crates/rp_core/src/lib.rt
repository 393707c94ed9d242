//! A relying party (OpenID Connect Core 1.0, 3; OpenID Connect Back-Channel Logout 1.0, 2): the reply to each request is
//! defined by the earlier requests and replies.
//!
//! [`RpCore`] implements `Core`. Its reply is `rp_answer` of its past, and the live rows of its tables are exactly those that live
//! after the history. It stores its history, unless the registry's histories last. A step allocates everything before its first
//! change.
//!
//! | Module | What it has |
//! |---|---|
//! | `state` | [`RpCore`], a relying party with its history and its tables |
//! | `step` | one step |
//! | `answering`, `responding`, `exchanging`, `logging_out` | the reply, from the live rows |
//! | `alive` | whether a logout came before its login |
//! | `questions`, `room` | lookups in the tables, and whether they have room |
//! | `in_turn` | the replies to requests, one after another, as a legal history |
//! | `making` | the rows that a reply makes, and [`state_named`] in an authorization response |
//! | `keeping` | updating the tables with a pair, and whether a reply [`ends_login`] |
#![tactic(auto)]

mod alive;
mod answering;
mod exchanging;
mod in_turn;
mod keeping;
mod logging_out;
mod making;
mod questions;
mod responding;
mod room;
mod state;
mod step;

pub use in_turn::party_in_turn;
pub use keeping::ends_login;
pub use making::state_named;
pub use state::RpCore;

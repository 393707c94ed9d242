//! The keys of a client's tokens: its secret and, while that is changed, its old secret. A token that is sealed under either of
//! them is opened.
//!
//! | Module | What it has |
//! |---|---|
//! | `opening` | [`opening_key`], the secret under which a text is opened |
//! | `law` | laws about texts that are sealed for a client, for the crates above |
#![tactic(auto)]

mod law;
mod opening;

pub use law::{refusals_hold_under_each_secret, texts_open_for_their_client};
pub use opening::opening_key;

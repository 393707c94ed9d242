//! The requests to a relying party and its replies (OpenID Connect Core 1.0, 3; OpenID Connect Back-Channel Logout 1.0, 2).
//!
//! | Module | What it has |
//! |---|---|
//! | `ask` | [`RpAsk`], a request or a response to a relying party |
//! | `reply` | [`RpReply`], its reply |
//! | `no` | [`RpNo`], why it rejects one |
//! | `copies` | copies of errors |
//! | `values` | requests hold values of their types |
//! | `weight` | the weight of a request |
//! | `held` | the bytes of a request that rows hold |
#![tactic(auto)]

mod ask;
mod copies;
mod held;
mod no;
mod reply;
mod values;
mod weight;

pub use ask::RpAsk;
pub use copies::{copied_id, copied_info, copied_logout, copied_tokens};
pub use held::is_small;
pub use no::{Part, RpNo};
pub use reply::RpReply;
pub use values::know_rp_entry;

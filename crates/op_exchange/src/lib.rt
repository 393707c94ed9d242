//! The requests to the provider and its replies (OpenID Connect Core 1.0, 3).
#![tactic(auto)]

mod ask;
mod fields;
mod held;
mod reply;
mod values;
mod weight;

pub use ask::OpAsk;
pub use fields::{AGREE_FIELD, AGREE_VALUE, PASSWORD_FIELD, TURN_FIELD, USER_FIELD};
pub use held::is_small;
pub use reply::OpReply;
pub use values::know_op_entry;

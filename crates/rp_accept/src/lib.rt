//! What a relying party accepts (OpenID Connect Core 1.0, 3.1.3.7, 3.2.2.9, 3.3.2.9 and 5.3.2). This crate has the replies to
//! an authorization response of a login, to the tokens of an exchange, and to the UserInfo subject. It also verifies logout
//! tokens (OpenID Connect Back-Channel Logout 1.0, 2.6). The results depend on the party's setup, and not on which logins and
//! exchanges live.
//!
//! | Module | What it has |
//! |---|---|
//! | `setup` | [`Setup`], a party and its provider, where its logins begin, and [`Setup::judge_logout`] |
//! | `responding` | [`Setup::reply_to_response`] |
//! | `exchanging` | [`Setup::reply_to_tokens`] |
//! | `fetching` | whether UserInfo is requested, and [`reply_to_info`] |
//! | `prepared` | [`is_prepared`]: the values that a request can produce |
#![tactic(auto)]

mod exchanging;
mod fetching;
mod prepared;
mod responding;
mod setup;

pub use fetching::reply_to_info;
pub use prepared::is_prepared;
pub use setup::Setup;

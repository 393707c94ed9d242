//! Logout tokens: what a provider sends a relying party to end a session (OpenID Connect Back-Channel Logout 1.0, 2.4 and 2.6).
//!
//! A logout token is a sealed claim set with `iss`, `aud`, `iat`, `exp`, `jti` and the logout event in `events`. It has `sub`
//! or `sid` or both, and no `nonce`. Moments are in seconds since the epoch.
//!
//! | Module | What it has |
//! |---|---|
//! | `claims` | [`LogoutClaims`], the claims of a logout token |
//! | `sealing` | [`seal_logout`] writes a logout token, [`written_len`] returns the length of its claims |
//! | `reading` | [`read_logout`] reads one |
//! | `judging` | [`judge_logout`] verifies it for a client at a moment |
//! | `no` | [`LogoutNo`], why a text or its claims are rejected |
//! | `law` | laws about logout tokens, for the crates above |
#![tactic(auto)]

mod claims;
mod judging;
mod law;
mod no;
mod reading;
mod sealing;

pub use claims::LogoutClaims;
pub use judging::judge_logout;
pub use law::{
    claims_of_their_types_fit, good_tokens_are_remembered, good_tokens_pass,
    read_tokens_are_sealed_claims, refused_tokens_have_the_first_reason, sealed_claims_are_read,
    unsealed_texts_are_refused,
};
pub use no::LogoutNo;
pub use reading::read_logout;
pub use sealing::{seal_logout, written_len};

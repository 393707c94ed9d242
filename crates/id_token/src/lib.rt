//! ID Tokens: the signed claims by which a relying party learns from a provider who logged in (OpenID Connect Core 1.0, 2).
//!
//! The claims are a JSON object, sealed as in RFC 7515, 3.1. Moments and ages are whole seconds.
//!
//! | Module | What it has |
//! |---|---|
//! | `claims` | [`IdClaims`], the claims of an ID Token |
//! | `hashing` | [`half_hash`], which binds an ID Token to an access token and to a code |
//! | `sealing` | [`seal_id`] writes and seals the claims; [`written_len`] tests one of its preconditions |
//! | `reading` | [`read_id`] opens an ID Token; [`check_id`] opens and verifies it; [`is_subject`] tests a subject |
//! | `naming` | [`named_audience`], the audience that a text names, whoever wrote it |
//! | `rules` | [`IdRules`], what a relying party requires of an ID Token |
//! | `judging` | [`judge_id`] verifies the claims by these rules |
//! | `no` | [`IdNo`], why an ID Token is rejected |
//! | `law` | laws about ID Tokens, for the crates above |
#![tactic(auto)]

mod claims;
mod hashing;
mod judging;
mod law;
mod naming;
mod no;
mod reading;
mod rules;
mod sealing;

pub use claims::IdClaims;
pub use hashing::half_hash;
pub use judging::judge_id;
pub use law::{
    claims_of_their_types_fit, good_tokens_pass, read_tokens_are_sealed_claims,
    read_tokens_name_their_audience, refused_tokens_have_the_first_reason, sealed_claims_are_read,
    unsealed_texts_are_refused,
};
pub use naming::named_audience;
pub use no::IdNo;
pub use reading::{check_id, is_subject, read_id};
pub use rules::{Half, IdRules};
pub use sealing::{seal_id, written_len};

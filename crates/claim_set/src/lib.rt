//! Claim sets: the JSON objects that JSON Web Tokens carry (RFC 7519, 4), read, looked up, changed and written.
//!
//! A claim set is seen as a finite map from names to JSON values: `serde_json`'s `Members`, with the names in the order
//! of their bytes. Its numbers are whole, from -2^63 to 2^64 - 1. Its depth is 1, and one more for each level of
//! objects and arrays inside it; it is at most 127.
//!
//! | Module | What it has |
//! |---|---|
//! | `claim_set` | [`ClaimSet`], and how names are set and taken out |
//! | `kinds` | claims by name: a text, a number, a flag, texts, or a claim set inside another |
//! | `reading` | [`read_claims`] reads the text of a claim set |
//! | `writing` | [`write_claims`] and [`claims_text`] write it |
//! | `no` | [`ClaimNo`], why a text or a claim is refused |
//! | `walks` | walks over JSON values |
//! | `values` | [`know_claims`]: names and texts are UTF-8, numbers have 64 bits, and names are in order |
//! | `law` | what holds of claim sets, for the crates above |
#![tactic(auto)]

mod claim_set;
mod kinds;
mod law;
mod no;
mod reading;
mod values;
mod walks;
mod writing;

pub use claim_set::ClaimSet;
pub use law::{
    fitting_claims_stay_fit, names_are_put_and_taken_out, one_name_is_put, one_name_is_taken_out,
    put_claims_are_read, read_claims_have_their_text, refused_texts_name_the_first,
    written_claims_are_read, written_claims_have_lengths,
};
pub use no::ClaimNo;
pub use reading::read_claims;
pub use values::know_claims;
pub use writing::{claims_text, write_claims};

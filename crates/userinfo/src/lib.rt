//! UserInfo: the claims that a provider returns to a client about a user, the request for them, and the response (OpenID
//! Connect Core 1.0, 5.3).
//!
//! | Module | What it has |
//! |---|---|
//! | `held` | [`info_claims`] and [`held_claims`], the claims that are returned about a user |
//! | `header` | [`read_bearer`] reads the bearer token of a request, a [`Bearer`] |
//! | `exchange` | [`print_info`] writes the request, [`read_info`] reads the response |
//! | `no` | [`InfoNo`], why a response is rejected |
//! | `law` | laws about claims, requests and responses, for the crates above |
#![tactic(auto)]

mod exchange;
mod header;
mod held;
mod law;
mod no;

pub use exchange::{print_info, read_info};
pub use header::{Bearer, read_bearer};
pub use held::{held_claims, info_claims};
pub use law::{
    configured_claims_are_standard, headers_are_read_by_their_scheme, held_claims_are_wanted,
    info_is_the_subject_and_held_claims, printed_requests_are_read, read_answers_are_user_info,
    refused_answers_have_the_first_reason, told_claims_fit, written_claims_name_the_subject,
};
pub use no::InfoNo;

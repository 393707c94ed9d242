//! Validation of authorization requests (OpenID Connect Core 1.0, 3.1.2.2).
//!
//! A request leads to an error page, to an error response at the redirect URI, or is granted as a [`Wish`].
//!
//! | Module | What it has |
//! |---|---|
//! | `wish` | [`Wish`], the contents of a granted request; [`Verdict`], the result of validation |
//! | `claims_parameter` | what the parameter `claims` requests |
//! | `parameters` | the contents of the parameters |
//! | `judging` | [`judge`] validates a request; [`is_short_nonce`] tests a nonce |
//! | `law` | laws about validation, for the crates above |
#![tactic(auto)]

mod claims_parameter;
mod judging;
mod law;
mod parameters;
mod wish;

pub use judging::{is_short_nonce, judge};
pub use law::{
    answers_go_to_registered_uris, asked_claims_are_standard_members,
    granted_wishes_are_the_requests, named_subjects_are_kept, refusals_answer_as_the_type_does,
    requests_without_errors_are_granted,
};
pub use wish::{PageNo, Verdict, Wish};

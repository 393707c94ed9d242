//! HTTP requests to the provider, read as values of `OpAsk` (OpenID Connect Core 1.0, 3.1.2.1, 3.1.3.1 and 5.3.1). Passwords,
//! client secrets and request objects are verified here. Later steps only get the results.
//!
//! | Module | What it has |
//! |---|---|
//! | `prepare` | [`prepare_op`] reads a request |
//! | `scopes` | [`asks_for_scope`], whether an authorization request has a word in its scope |
//! | `routes` | the endpoint of a request, and [`is_login`], whether it posts the login form |
//! | `posted_forms` | the fields of the forms that the provider's own pages post |
//! | `law` | laws about the values that requests produce, for the crates above |
#![tactic(auto)]

mod law;
mod posted_forms;
mod prepare;
mod routes;
mod scopes;

pub use law::{
    asks_have_the_cookies, forms_have_their_turn, logins_are_signed_by_passwords,
    prepared_asks_are_given_by_requests, repeated_names_are_refused,
    requests_are_told_by_method_and_path, wishes_are_granted_by_the_judgement,
};
pub use prepare::prepare_op;
pub use routes::is_login;
pub use scopes::asks_for_scope;

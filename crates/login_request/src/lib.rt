//! The authorization request with which a relying party begins a login (OpenID Connect Core 1.0, 3.1.2.1 and 6.1).
//!
//! | Module | What it has |
//! |---|---|
//! | `asking` | [`login_request`] is the location that begins a login, [`login_object`] its request object |
//! | `params` | the parameters of the request |
//! | `law` | laws about these requests, for the crates above |
#![tactic(auto)]

mod asking;
mod law;
mod params;

pub use asking::{login_object, login_request};
pub use law::{
    login_requests_are_read, login_requests_have_their_words, signed_locations_end_with_the_object,
    signed_login_requests_are_read,
};

//! Request objects: authorization requests whose parameters are signed by the client (OpenID Connect Core 1.0, 6.1).
//!
//! A request object is a sealed text (RFC 7515, 3.1) under a secret of the client. Its payload is a claim set that contains the
//! parameters of the request by name, with the client as `iss` and the provider's issuer as `aud`.
//!
//! | Module | What it has |
//! |---|---|
//! | `sealing` | [`seal_request`] writes and seals one; [`written_len`] tests one of its preconditions |
//! | `reading` | [`unseal_request`] reads the parameters of one |
//! | `raw` | the claims of a request object, each of its kind |
//! | `no` | [`ObjNo`], why a request object is rejected |
//! | `law` | laws about request objects, for the crates above |
#![tactic(auto)]

mod law;
mod no;
mod raw;
mod reading;
mod sealing;

pub use law::{
    parameters_of_their_types_fit, read_objects_are_request_objects,
    refused_objects_have_the_first_reason, sealed_requests_are_read,
};
pub use no::ObjNo;
pub use reading::unseal_request;
pub use sealing::{seal_request, written_len};

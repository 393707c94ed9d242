//! The kinds of sealed text are distinct:
//!
//! - No logout token is accepted as an ID Token, and no ID Token is read as a logout token (OpenID Connect Back-Channel Logout
//!   1.0, 2.4).
//! - No request object of a client is accepted as either, and neither token of a provider is read as a request object. The
//!   reason is that a request object is issued by the client and a token by the provider (OpenID Connect Core 1.0, 6.1).
//!
//! These are laws about the definitions in the contracts of `id_token`, `logout_token` and `request_object`.
//!
//! | Module | What it has |
//! |---|---|
//! | `law` | ID Tokens and logout tokens |
//! | `requests` | request objects, and both kinds of token |
#![tactic(auto)]

mod law;
mod requests;

pub use law::{id_tokens_are_no_logout_tokens, logout_tokens_are_no_id_tokens};
pub use requests::{
    id_tokens_are_no_request_objects, logout_tokens_are_no_request_objects,
    request_objects_are_no_id_tokens, request_objects_are_no_logout_tokens,
};

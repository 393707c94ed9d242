//! The formats of the token endpoint: token requests for a code, and responses to them, each read and written (RFC 6749, 4.1.3,
//! 5.1 and 5.2; OpenID Connect Core 1.0, 3.1.3).
//!
//! A client shows a secret by HTTP Basic or by parameters of the request (RFC 6749, 2.3.1; OpenID Connect Core 1.0, 9,
//! `client_secret_basic` and `client_secret_post`). A request is granted to a client only with a secret of that client.
//!
//! | Module | What it has |
//! |---|---|
//! | `parameters` | the parameters of a request's body, and their names and values |
//! | `basic` | the `Authorization` header of a client, read and written |
//! | `authentication` | which client a request authenticates |
//! | `client` | [`read_client`] reads which client a request authenticates, whatever it requests |
//! | `granting` | [`read_grant`] reads a token request, as a [`Grant`] |
//! | `asking` | [`print_grant`] writes a token request |
//! | `error` | [`TokenError`], the error codes of the endpoint, and the code for each rejected request |
//! | `answering` | [`print_tokens`] and [`print_token_error`] write the bodies of responses |
//! | `reading` | [`read_tokens`] reads a response, as [`Tokens`] |
//! | `no` | [`GrantNo`] and [`TokensNo`], why a request and a response are rejected |
//! | `law` | laws about requests and responses, for the crates above |
#![tactic(auto)]

mod answering;
mod asking;
mod authentication;
mod basic;
mod client;
mod error;
mod granting;
mod law;
mod no;
mod parameters;
mod reading;

pub use answering::{print_token_error, print_tokens};
pub use asking::print_grant;
pub use authentication::is_other;
pub use client::read_client;
pub use error::{TokenError, token_error};
pub use granting::{Grant, read_grant};
pub use law::{
    answers_are_read_by_their_members, granted_clients_show_their_secret,
    headers_are_read_literally, printed_requests_are_granted, printed_tokens_are_read,
    refused_answers_have_the_first_reason, refused_requests_have_a_cause,
    requests_are_granted_literally, requests_are_read_for_their_client,
    written_answers_have_their_text, written_requests_have_their_text,
};
pub use no::{GrantNo, TokensNo};
pub use reading::{Tokens, read_tokens};

//! Requests to a relying party, and token responses and UserInfo responses of its provider, read as values of `RpAsk` (OpenID
//! Connect Core 1.0, 3.1.2.5, 3.1.3.3, 3.2.2.5 and 5.3.2; OpenID Connect Back-Channel Logout 1.0, 2.5). The MACs of ID Tokens
//! and logout tokens are verified here. Later steps only get the claims, or why a token is rejected.
//!
//! | Module | What it has |
//! |---|---|
//! | `prepare` | [`prepare_rp`] reads a request, [`prepare_tokens`] a token response, [`prepare_info`] a UserInfo response |
//! | `logout` | a logout request, and [`logout_token_of`] one |
//! | `routes` | the endpoint of a request |
//! | `law` | laws about the values that they produce, for the crates above |
#![tactic(auto)]

mod law;
mod logout;
mod prepare;
mod routes;

pub use law::{
    asks_have_the_cookies, callbacks_are_read_from_forms, id_tokens_are_opened_by_a_secret,
    info_answers_are_read_for_their_exchange, logout_tokens_are_opened_by_a_secret,
    prepared_asks_are_given_by_requests, requests_are_told_by_method_and_path,
    the_one_logout_token_is_read, the_page_is_asked_for_without_a_query,
    token_answers_are_read_for_their_exchange, token_answers_have_opened_id_tokens,
};
pub use logout::logout_token_of;
pub use prepare::{prepare_info, prepare_rp, prepare_tokens};

//! The definition of the provider's answers (OpenID Connect Core 1.0, 3): one reply for each past and each request, and laws
//! about it. It has no running code.
//!
//! The definitions are in `specs/`:
//!
//! - the rows after a past: `Turns`, `Sessions`, `Codes`, `AccessTokens`, `Consents`;
//! - the reply, which depends on these rows: `Replies`, `Room`, `Answering`; the logins in its tokens: `Authentications`;
//! - what a reply implies about the past: `Causes`, `FullTables`, `Legal`;
//! - the contents of the rows of a legal past, and the source of their words: `OwnRows`, `Drawn`;
//! - the literal meaning of a granted scope value: `Granted`.
#![tactic(auto)]

mod law;

pub use law::{
    codes_are_answered_once, drawn_words_have_one_text, full_tables_are_full,
    grants_are_said_yes_to, issued_tokens_stay_apart, legal_histories_are_short,
    replies_have_a_cause, rows_are_own, rows_have_drawn_words, rows_stand,
    session_words_need_a_password,
};

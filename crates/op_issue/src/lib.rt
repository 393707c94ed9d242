//! What the provider issues to clients: ID Tokens and successful authorization responses (OpenID Connect Core 1.0, 2, 3), and
//! the logout tokens for a sign-out (OpenID Connect Back-Channel Logout 1.0, 2.3 to 2.5).
//!
//! | Module | What it has |
//! |---|---|
//! | `issuing` | [`Authentication`], a user's login; [`issue`] makes the response |
//! | `id_tokens` | [`id_token_for`] makes the sealed ID Token |
//! | `sign_out` | [`SignOut`], the data of a sign-out |
//! | `logout_tokens` | [`logout_token_for`] makes the sealed logout token for a client |
//! | `messages` | [`logout_messages`] makes the messages to the clients that a session has logged in to |
//! | `law`, `logout_law` | laws about what is issued, for the crates above |
#![tactic(auto)]

mod id_tokens;
mod issuing;
mod law;
mod logout_law;
mod logout_tokens;
mod messages;
mod sign_out;

pub use id_tokens::id_token_for;
pub use issuing::{Authentication, issue};
pub use law::{issued_tokens_are_good, issued_tokens_are_read};
pub use logout_law::{
    logout_tokens_are_good, logout_tokens_are_read, logout_tokens_have_own_identifiers,
    messages_tell_answered_clients,
};
pub use logout_tokens::logout_token_for;
pub use messages::logout_messages;
pub use sign_out::SignOut;

//! Proof Key for Code Exchange (RFC 7636) at a relying party, with the method S256: [`PkceParty`] is a core around the relying
//! party's. Each authorization request for a code sends the challenge of a new verifier, and the token request for that code sends
//! the verifier.
//!
//! | Module | What it has |
//! |---|---|
//! | `key_text` | [`KeyText`], a code verifier or a code challenge |
//! | `reply` | [`PartyReply`], what the party replies |
//! | `rows` | [`VerifierRow`], the verifier of a login |
//! | `timed` | the party inside, with the moment of its last entry |
//! | `party` | [`PkceParty`]: the party inside, and the verifiers of its logins |
//! | `known` | what is known of a request before the party inside steps |
//! | `noting` | the verifiers after a reply |
//! | `adding` | what is added to a reply |
//! | `step` | one step |
//! | `telling` | a reply in HTTP, and the message after it |
//! | `relying` | the core as one that a relying party is in |
//! | `in_turn` | the replies to requests, one after another, as a legal history |
//! | `law` | laws of its histories |
#![tactic(auto)]

mod adding;
mod in_turn;
mod key_text;
mod known;
mod law;
mod noting;
mod party;
mod relying;
mod reply;
mod rows;
mod step;
mod telling;
mod timed;

pub use in_turn::pkce_party_in_turn;
pub use key_text::KeyText;
pub use law::{
    authorization_requests_have_a_challenge, challenges_are_in_the_location,
    inner_histories_are_legal, rows_stand, token_requests_have_a_verifier,
    verifiers_are_in_the_token_request, verifiers_are_of_their_login, verifiers_tell_their_words,
};
pub use party::PkceParty;
pub use reply::PartyReply;
pub use rows::VerifierRow;
pub use telling::{party_http, party_message};

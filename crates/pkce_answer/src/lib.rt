//! The definition of the replies of a core that checks proof keys around another core (RFC 7636), and laws about it. It has no running
//! code.
//!
//! An authorization request for a code may have a challenge of the method S256. Its mark stays with its turn, and then with the code
//! that answers it. A token request for that code is passed on only with a verifier of the challenge.
//!
//! | Module | What it has |
//! |---|---|
//! | `asks` | [`PkceAsk`] and [`PkceReply`], requests and replies |
//! | `law` | what is true of codes and their verifiers |
//!
//! The definitions are in `specs/`: challenges in `Challenges`, the inner core's part of a history in `Around`, the replies and legal
//! histories in `Answering`.
#![tactic(auto)]

mod asks;
mod law;

pub use asks::{Challenge, PkceAsk, PkceParts, PkceReply, Verifier};
pub use law::{
    challenges_stand, codes_answer_one_request, codes_keep_their_challenge,
    codes_need_their_verifier, legal_histories_are_answered,
};

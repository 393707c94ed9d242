//! Proof Key for Code Exchange (RFC 7636), with the method S256.
//!
//! [`PkceCore`] stands around another core that the provider is in. A code that was asked with a challenge gets tokens only with the
//! verifier of that challenge. Each reply and each legal history is the one of `pkce_answer`, and the inner core's history is legal.
//!
//! | Module | What it has |
//! |---|---|
//! | `challenges` | the challenge of a verifier |
//! | `reading` | challenges and verifiers in forms |
//! | `pkce_core` | [`PkceCore`] |
//! | `finding` | the challenges of turns and codes |
//! | `refusing` | which requests are refused without the inner core |
//! | `step` | one step |
//! | `providing` | the core as one that the provider is in |
#![tactic(auto)]

mod challenges;
mod finding;
mod pkce_core;
mod providing;
mod reading;
mod refusing;
mod step;

pub use challenges::challenge_of;
pub use pkce_core::PkceCore;
pub use reading::{read_challenge, read_verifier};

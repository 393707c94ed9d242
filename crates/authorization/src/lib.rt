//! Authorization: who gets a code, a token or a user's claims, and by whose consent. The crate has no running code. The laws are
//! about the histories of the provider and about the worlds of `sso_places`, as those of `sign_on` are.
//!
//! | Module | What it has | Its definitions, in `specs/` |
//! |---|---|---|
//! | `law` | the laws, and that the premises on secrets cannot be left out | `Laws` |
//! | | what a user granted a client | `Consented` |
//! | | what the provider gives, and for whom | `Authorized` |
//! | | whom its answers reach in a world | `Reached` |
#![tactic(auto)]

mod law;

pub use law::{
    answers_reach_their_own, claims_are_consented, claims_are_needed, claims_reach_the_client,
    gifts_are_authorized, no_premise_can_be_left_out,
};

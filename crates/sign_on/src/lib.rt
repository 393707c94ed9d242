//! The sign-on theorem: in a world of the real cores that meets the premises, the events are a run of the sign-on machine. The
//! crate has no running code: the definitions are in `sso_places`, the proof is in `proofs/`.
//!
//! | Module | What it has |
//! |---|---|
//! | `law` | the theorem `agreement`, two further properties, `same_browser` and `binding`, and that no premise can be left out |
#![tactic(auto)]

mod law;

pub use law::{agreement, binding, no_premise_can_be_left_out, same_browser, sessions_are_founded};

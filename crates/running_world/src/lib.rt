//! A running world: the provider and the relying parties of one registry, each a core, receive requests at places, one after
//! another. [`World`] keeps the request and the reply at each place, the cookies of each browser, and the first failed premise
//! of the sign-on theorem. Its contract states what one more place is, that the world is legal, and that the theorems are true
//! for it.
//!
//! | Module | What it has | Its definitions, in `specs/` |
//! |---|---|---|
//! | `world` | [`World`]: one more place, and the contents of each | `Running`, `Stepping`, `Theorem`; `Worlds` |
//! | `asking` | sends a request to one role, and keeps its reply | `Worlds` |
//! | `roles` | the provider's core and those of the parties, each with the moment of its last entry | `Roles`, `Parties` |
//! | `transcript` | the places with the jars and the premises, without the cores | `Transcribed`, `Indexed` |
//! | `kept` | [`Kept`]: the contents of a place | `Running`, `Whole` |
//! | `judging` | the token that a role checks for a request | `Judging` |
//! | `premises`, `clashing` | the premises at a place, by its request and by its reply | `Forging`, `Clashing`, `Breaking` |
//! | `noting`, `writing`, `told`, `foreknown` | what later places look up: cookies set, tokens written, words issued | `Noting`, `Foreknowing` |
#![tactic(auto)]

mod asking;
mod clashing;
mod foreknown;
mod judging;
mod kept;
mod noting;
mod premises;
mod roles;
mod told;
mod transcript;
mod world;
mod writing;

pub use kept::{Asked, Kept};
pub use world::World;

//! The registry of an OpenID provider: its users, its clients and their relying parties, read from a configuration file.
//!
//! The invariant of every registry is one definition, `IsRegistry`. It is a postcondition of [`read_registry`], of
//! [`Registry::provider`], and of each call that counts rows.
//!
//! | Module | What it has |
//! |---|---|
//! | `reading` | [`read_registry`] reads a configuration |
//! | `registry` | [`Registry`], an accepted configuration, with its lookups and subjects |
//! | `records` | [`Provider`], [`User`], [`Client`], [`Party`] |
//! | `rows` | the records of a configuration's rows, and [`endpoint`], below an issuer |
//! | `places` | the first index of a name or a value |
//! | `rules` | rules about the records |
//! | `subjects` | the subjects of users at clients |
//! | `client_set` | [`ClientSet`], a set of clients |
//! | `law` | which configurations are rejected, and why, stated as laws |
#![tactic(auto)]

mod client_set;
mod law;
mod places;
mod reading;
mod records;
mod registry;
mod rows;
mod rules;
mod subjects;

pub use client_set::ClientSet;
pub use configuration_rows::RegNo;
pub use law::{
    advertised_paths_are_served, clients_seal_with_their_secrets, endpoints_keep_the_rule_for_urls,
    refusals_have_their_causes, refused_configurations_have_the_least, sets_have_what_was_added,
};
pub use reading::read_registry;
pub use records::{Client, Party, Provider, User};
pub use registry::Registry;
pub use rows::endpoint;

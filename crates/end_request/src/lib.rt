//! Requests to end a session that a relying party sends (RP-Initiated Logout 1.0), and where a browser may be sent afterwards.
//!
//! | Module | What it has |
//! |---|---|
//! | `returns` | [`Returns`], where a browser may be sent, client by client |
//! | `returning` | [`read_returns`] reads them from a configuration |
//! | `wish` | [`EndWish`], the contents of a request, and [`EndNo`], why one is refused |
//! | `hints` | the client of an ID Token that is a hint |
//! | `reading` | [`read_end`] reads a request |
//! | `locations` | [`location`], where the browser goes after a sign-out |
//! | `law` | where a browser is sent, stated as laws |
#![tactic(auto)]

mod hints;
mod law;
mod locations;
mod reading;
mod returning;
mod returns;
mod wish;

pub use law::{
    browsers_are_sent_to_registered_uris, hints_name_their_client, returns_are_those_of_the_clients,
};
pub use locations::location;
pub use reading::read_end;
pub use returning::read_returns;
pub use returns::Returns;
pub use wish::{EndNo, EndWish};

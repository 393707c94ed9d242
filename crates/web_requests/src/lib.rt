//! The requests of browsers and servers to the provider and to its relying parties during logins and logouts. They are
//! functions of a reply and of a browser's cookies (OpenID Connect Core 1.0, 3.1.2 and 3.2.2; OpenID Connect Back-Channel
//! Logout 1.0, 2.5). The types of requests, replies and cookies are those of `sso_places`. Nothing is sent here: the crate only
//! builds requests.
//!
//! | Module | What it has | Its definitions, in `specs/` |
//! |---|---|---|
//! | `sent` | [`Sent`], a request with its sender and its recipient | `Sending` |
//! | `location` | [`Location`], and [`location_of`]: the location to which a reply redirects a browser | `Locations` |
//! | `following` | [`followed`] follows a location to its [`receiver`] | `Following` |
//! | `mixing` | [`mixed`]: a location with the value of a parameter of another | `Mixing` |
//! | `forging` | [`forged`]: the location of an answer whose ID Token is forged | `Forging` |
//! | `posting` | [`login_posted`] and [`consent_posted`] post the forms of the provider's pages | `Posting` |
//! | `visiting` | [`login_begun`], [`party_visited`], [`party_left`] and [`signed_out`], a browser's own requests | `Visiting` |
//! | `carrying` | [`carried`]: a message from one server to another | `Carrying` |
//! | `handing` | [`printed`]: a reply in HTTP; [`handed_back`]: that reply, passed to the party that waits for it | `Handing` |
//! | `raw` | [`raw_sent`]: a request that is given part by part | `Raw` |
//! | `law` | lemmas about requests, for the crates above | `Asked`, `Arriving` |
#![tactic(auto)]

mod carrying;
mod following;
mod forging;
mod handing;
mod law;
mod location;
mod mixing;
mod posting;
mod raw;
mod sent;
mod visiting;

pub use carrying::carried;
pub use following::{followed, receiver};
pub use forging::forged;
pub use handing::{handed_back, printed};
pub use law::{
    authorization_requests_are_followed, carried_messages_are_read,
    forged_tokens_differ_in_the_subject, handed_responses_are_read,
    mixed_locations_differ_in_one_name, own_requests_are_read, posted_forms_are_read,
    requests_go_to_roles, responses_are_followed,
};
pub use location::{Location, location_of};
pub use mixing::mixed;
pub use posting::{consent_posted, login_posted};
pub use raw::raw_sent;
pub use sent::Sent;
pub use visiting::{login_begun, party_left, party_visited, signed_out};

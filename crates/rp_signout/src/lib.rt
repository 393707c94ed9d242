//! RP-Initiated Logout 1.0: a relying party sends a browser to the provider to sign out, and the user is asked first.
//!
//! [`SignoutCore`] stands around another core that the provider is in. A session ends only after a `yes` of the browser that presented
//! it. Each reply and each legal history is the one of `signout_answer`, and the inner core's history is legal.
//!
//! | Module | What it has |
//! |---|---|
//! | `signout_core` | [`SignoutCore`] |
//! | `table` | the table of questions |
//! | `decision` | a decision about a request |
//! | `deciding` | how a request is answered |
//! | `step` | one step |
//! | `routes`, `preparing` | the requests in HTTP requests |
//! | `pages`, `full_pages`, `telling` | the page with a question, plain and full, and replies in HTTP |
//! | `law` | [`full_questions_post_what_plain_ones_post`] |
//! | `providing` | the core as one that the provider is in |
#![tactic(auto)]

mod deciding;
mod decision;
mod full_pages;
mod law;
mod pages;
mod preparing;
mod providing;
mod routes;
mod signout_core;
mod step;
mod table;
mod telling;

pub use law::full_questions_post_what_plain_ones_post;
pub use signout_core::SignoutCore;

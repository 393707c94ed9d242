//! The shared parts of both roles' HTTP replies: cookies that hold words, and kinds of replies (RFC 9110). A server sets a
//! cookie (RFC 6265, 4.1), and a user agent reads it (RFC 6265, 5.2).
//!
//! | Module | What it has |
//! |---|---|
//! | `cookies` | [`cookie`]: the text of a cookie with a name and a word; [`cookie_name`]: the name that is set and read |
//! | `replies` | [`html`], [`plain`], [`empty`] and [`sent_to`], kinds of replies |
//! | `joining` | concatenation of texts |
//! | `law` | [`cookies_are_read_as_they_were_written`]: what a user agent reads from a cookie; [`host_cookies_are_taken`] |
#![tactic(auto)]

mod cookies;
mod joining;
mod law;
mod replies;

pub use cookies::{cookie, cookie_name};
pub use joining::{concatenated, joined};
pub use law::{cookies_are_read_as_they_were_written, host_cookies_are_taken};
pub use replies::{empty, html, plain, sent_to};

//! A relying party's replies as output: in HTTP (RFC 9110; OpenID Connect Core 1.0, 3.1.2.1 and 3.2.2.5; OpenID Connect
//! Back-Channel Logout 1.0, 2.8), and as the lines of a replay.
//!
//! | Module | What it has |
//! |---|---|
//! | `telling` | [`rp_http`]: the status, the fields and the body of a reply |
//! | `page` | the page that posts the fragment of its location |
//! | `full_pages` | the full pages: the front page, after it was left, and for a login that failed |
//! | `cookies` | [`browser_cookie`] and [`session_cookie`], the names of the browser's cookie and the session's |
//! | `lines` | [`rp_line`]: the line of a reply |
//! | `refusals` | the printed names of errors |
//! | `law` | laws about the output of replies, for the crates above |
#![tactic(auto)]

mod cookies;
mod full_pages;
mod law;
mod lines;
mod page;
mod refusals;
mod telling;

pub use cookies::{browser_cookie, session_cookie};
pub use law::{
    cookies_hold_the_words_of_replies, full_front_pages_leave, lines_tell_no_words_and_no_values,
    lines_tell_subjects_and_codes, logins_send_the_user_agent_on, messages_are_not_told,
    plain_bodies_are_lines, refusals_are_their_lines, the_fragment_page_is_the_same_everywhere,
};
pub use lines::rp_line;
pub use telling::rp_http;

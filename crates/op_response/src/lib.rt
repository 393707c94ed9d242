//! The provider's replies as output: in HTTP (RFC 9110; OpenID Connect Core 1.0, 3.1.2, 3.1.3 and 5.3), and as the lines of a
//! replay.
//!
//! | Module | What it has |
//! |---|---|
//! | `telling` | [`op_http`] and [`token_response`]: the status, the fields and the body of a reply |
//! | `html` | the plain login page and the plain consent page |
//! | `full_pages` | the full pages: login, consent, the end of a session, errors; [`notice_page`] |
//! | `cookies` | [`browser_cookie`] and [`session_cookie`], the names of the browser's cookie and the session's |
//! | `lines` | [`op_line`]: the line of a reply |
//! | `law` | laws about the output of replies, for the crates above |
#![tactic(auto)]

mod cookies;
mod full_pages;
mod html;
mod law;
mod lines;
mod telling;

pub use cookies::{browser_cookie, session_cookie};
pub use full_pages::notice_page;
pub use law::{
    challenges_are_unauthorized, cookies_hold_the_words_of_replies,
    forms_are_posted_to_the_provider, full_pages_post_what_plain_ones_post,
    lines_tell_parts_and_codes, pages_have_nothing_to_escape, plain_bodies_are_lines,
    responses_send_the_user_agent_on, token_responses_are_not_cached,
};
pub use lines::op_line;
pub use telling::{full_shown, op_http, signed_out_shown, token_response};

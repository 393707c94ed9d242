//! HTTP/1.1 for the servers of the sign-on system (RFC 9110, RFC 9112; cookies: RFC 6265). Heads are parsed with `httparse`,
//! and URLs with `url`.
//!
//! | Module | What it has |
//! |---|---|
//! | `ask` | [`read_ask`] reads a request from a source, and no byte past its body |
//! | `no` | [`HttpNo`], the refusals of requests |
//! | `head`, `input` | the end of a head; heads and bodies, read from a source |
//! | `judge` | the request that a head makes |
//! | `fields`, `ascii`, `blanks`, `decimals` | the fields of a head, and their values |
//! | `bodies`, `cookies` | the fields about a body; the cookies of a request |
//! | `reply` | [`print_reply`]: the bytes of a reply |
//! | `refusal` | [`print_http_no`]: the bytes of the reply to a refused request |
//! | `message` | [`print_message`] and [`message_place`]: the bytes of a message to another server, and its recipient |
//! | `peer` | [`read_peer`] reads another server's answer, and [`is_whole`] says whether all of it has come |
//! | `lines` | writes lines of a head |
//! | `law` | lemmas about requests, replies and peers' answers, for the crates above |
#![tactic(auto)]

mod ascii;
mod ask;
mod blanks;
mod bodies;
mod cookies;
mod decimals;
mod fields;
mod head;
mod input;
mod judge;
mod law;
mod lines;
mod message;
mod no;
mod peer;
mod refusal;
mod reply;

pub use ask::read_ask;
pub use law::{
    bytes_have_one_answer, heads_end_once, peers_have_one_answer, presented_words_are_found,
    requests_without_a_cause_are_read, whole_answers_are_answers, whole_requests_are_read,
    written_replies_are_read,
};
pub use message::{message_place, print_message};
pub use no::HttpNo;
pub use peer::{is_whole, read_peer};
pub use refusal::print_http_no;
pub use reply::print_reply;

//! The grammar of traces: what browsers and servers send to a provider and its relying parties, line by line.
//!
//! A trace is at most 4,194,304 bytes. Its lines end with a line feed, which the last one may lack, and have at most 65,536
//! bytes without it. The first line is `sso-trace 1 SEED`, with 48 lower-case hexadecimal digits for the seed of the random
//! words. After it, empty lines and those that begin with `#` are skipped, but counted. Each other line is one of these. Its
//! words are visible ASCII, separated by single spaces:
//!
//! | Line | Meaning |
//! |---|---|
//! | `at SECONDS` | sets the moment, which is 0 before and never goes back |
//! | `steal THIEF OWNER` | copies the cookies of one browser to another |
//! | `show PLACE` | prints the reply of a place |
//! | `begin B PARTY` | browser B begins a login at the relying party |
//! | `follow B P` | follows the location of the reply of place P |
//! | `mix B P NAME Q` | the same, with the value of NAME taken from the location of place Q |
//! | `forge B P USER` | the same, with an ID Token of another subject, of at most 255 bytes |
//! | `login B P USER PASSWORD` | posts the login form of place P |
//! | `consent B P yes`, or `no` | posts the consent form of place P |
//! | `visit B PARTY`, `leave B PARTY` | visits the party, leaves it |
//! | `signout B` | signs out at the provider |
//! | `carry P K` | delivers message K of the reply of place P |
//! | `back P Q` | returns the reply of place Q to the party of place P, as the answer to its request |
//! | `raw B TO METHOD TARGET FIRST SECOND AUTH BODY` | one request, written out in full, to `op` or a party |
//!
//! The first three take no place; each of the others takes the next one, from 1, and names only places before its own. Numbers
//! are decimal without leading zeros, and below 2^64; seconds are at most 1,099,511,000,000. Browsers are numbered from 1 to
//! 65,535; `raw` also takes 0, which is a server. Messages are numbered from 0. Parties are named as in the registry.
//!
//! In `raw`, METHOD is `GET`, `POST` or any other word, and `-` is an absent part. A cookie, FIRST or SECOND, is `jar` for the
//! one in the browser's jar, or the text of a word; any other text is no cookie. The first `:` in AUTH is for a space. This
//! crate leaves it unchanged.
//!
//! | Module | What it has | Its definitions, in `specs/` |
//! |---|---|---|
//! | `no` | [`TraceNo`], why a trace is rejected, and faults of lines in their order | `Faults` |
//! | `number` | decimal numbers | `Number` |
//! | `header` | the first line | `Header` |
//! | `line_words` | the words of a line | `LineWords` |
//! | `verb` | the table of the kinds of lines | `Verbs` |
//! | `values` | the values of single words | `Values` |
//! | `line`, `said` | [`Line`], and parsing a line | `Said` |
//! | `so_far` | the moment and the places after some lines | `Lines` |
//! | `guilt` | the faults of a line | `Guilt` |
//! | `trace`, `reading` | [`Trace`], and [`read_trace`] | `Trace`, `Order` |
//! | `law` | which traces are accepted and which are rejected, in terms of their grammar | |
#![tactic(auto)]

mod guilt;
mod header;
mod law;
mod line;
mod line_words;
mod no;
mod number;
mod reading;
mod said;
mod so_far;
mod trace;
mod values;
mod verb;

pub use law::{
    headers_have_their_seeds, kinds_have_their_first_words, lines_are_cut_at_single_spaces,
    numbers_are_decimal, the_least_fault_is_answered, traces_are_accepted_line_by_line,
    traces_are_refused_for_their_first_bad_line,
};
pub use line::{Line, Shown};
pub use no::TraceNo;
pub use reading::read_trace;
pub use trace::Trace;

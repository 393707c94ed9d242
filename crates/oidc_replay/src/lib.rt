//! The replay of traces. A trace lists what browsers and servers send. It is played over the provider and the relying parties
//! of a registry, and reported line by line.
//!
//! [`read_trace`] reads a trace for a registry; the crate `trace_lines` has its grammar. [`replay`] plays it. Each request
//! takes the next place, from 1, and the role that receives it replies there. The random words come from the trace's seed:
//! place p draws the words 4p - 3 to 4p, and word i is the seed followed by i in 8 bytes, big-endian. [`storm`] also plays a
//! trace, and reports a summary.
//!
//! | Module | What it has | Its definitions, in `specs/` |
//! |---|---|---|
//! | `words` | the random words of the roles | `Words` |
//! | `sending` | the request that a line sends | `Sending` |
//! | `play` | the play of lines | `Play` |
//! | `text` | the text that lines print | `Text` |
//! | `replaying` | [`replay`], and how a play ends | `End`, `Theorem`, `Bound` |
//! | `tally`, `summary` | [`storm`], and the counts of its summary | `Storm` |
//! | `law` | what is true for every play, for the crates above | |
#![tactic(auto)]

mod law;
mod play;
mod replaying;
mod sending;
mod summary;
mod tally;
mod text;
mod words;

pub use law::{
    lines_do_what_is_asked, plays_are_distinct_and_joined, plays_have_the_places_of_their_lines,
    time_goes_on_in_plays, tokens_that_are_read_were_given,
    user_info_is_asked_for_with_hashed_tokens,
};
pub use replaying::{ReplayEnd, Replayed, replay};
pub use summary::storm;
pub use trace_lines::{Trace, TraceNo, read_trace};

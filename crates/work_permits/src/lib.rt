//! Permits for costly work, so that it never takes all threads that serve.
//!
//! [`Permits`] are a number of permits that threads share. A [`Permit`] is one that is out, and [`AllTaken`] says that all were.
//! A [`Gate`] has two numbers of them: few threads work at a time, a few more wait, and all others are turned away at once.
//!
//! | Module | What it has |
//! |---|---|
//! | `holder` | what a seat at the table of permits knows, for contracts only |
//! | `rule` | the rule of permits, and the kinds of steps on their table |
//! | `permits` | [`Permits`], [`Permit`] and [`AllTaken`] |
//! | `taking` | permits are taken and given back |
//! | `gate` | [`Gate`] and [`Entered`], for the workers of a server |
//!
//! Permits are one word of the kit's `atomic_table`: the number of those that are out. One compare-and-exchange takes a permit, and
//! one subtraction gives it back. A thread that waits sleeps on the word. The order among waiting threads is not specified.
#![tactic(auto)]

mod gate;
mod holder;
mod permits;
mod rule;
mod taking;

pub use gate::{Entered, Gate};
pub use permits::{AllTaken, Permit, Permits};

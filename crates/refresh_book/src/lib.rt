//! Refresh tokens with rotation (RFC 6749, 6; RFC 9700, 4.14.2).
//!
//! [`RefreshCore`] stands around another core that the provider is in. Tokens for a code that was requested with offline access come with
//! a refresh token. Each refresh token gets new tokens once, and if an old one comes again, its family ends. Each reply and each legal
//! history is the one of `refresh_answer`, and the inner core's history is legal.
//!
//! | Module | What it has |
//! |---|---|
//! | `refresh_core` | [`RefreshCore`] |
//! | `finding` | what is found of a code, and of an access token |
//! | `renewing` | the reply to a refresh request |
//! | `beginning` | which family begins with tokens for a code, and which families its code ends |
//! | `entries` | weights, words and values of entries |
//! | `passing` | entries that are passed on |
//! | `step` | one step |
//! | `providing` | the core as one that the provider is in |
#![tactic(auto)]

mod beginning;
mod entries;
mod finding;
mod passing;
mod providing;
mod refresh_core;
mod renewing;
mod step;

pub use refresh_core::RefreshCore;

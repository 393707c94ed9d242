//! The formats of refresh tokens: refresh requests and requests for offline access, read (RFC 6749, 6; OpenID Connect Core 1.0, 11), and
//! the bodies of responses with a refresh token, written (RFC 6749, 5.1).
//!
//! | Module | What it has |
//! |---|---|
//! | `reading` | [`read_refresh`] reads a refresh request; [`is_refresh`], whether a form is one |
//! | `offline` | [`asks_offline`], whether an authorization request is for offline access |
//! | `printing` | [`print_first`] and [`print_refreshed`] write the bodies of responses |
#![tactic(auto)]

mod offline;
mod printing;
mod reading;

pub use offline::asks_offline;
pub use printing::{print_first, print_refreshed};
pub use reading::{is_refresh, read_refresh};

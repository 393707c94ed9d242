//! The definition of the replies of a core with refresh tokens around another core (RFC 6749, 6 and 10.4; RFC 9700, 4.14.2), and laws
//! about it.
//!
//! A token response for a code that was requested with offline access begins a family of refresh tokens (OpenID Connect Core 1.0, 11).
//! Each refresh request gets a new access token and a new refresh token, and makes the token that it presents old. If an old token of a
//! family comes again from its client, the family ends.
//!
//! | Module | What it has |
//! |---|---|
//! | `asks` | [`RefreshAsk`], [`RefreshReply`] and [`OwnReply`], requests and replies |
//! | `place` | [`Place`], the index of a pair in a history |
//! | `rows` | [`FamilyRow`], [`RefreshRow`] and [`AccessRow`], a family, its refresh tokens and its access tokens |
//! | `law` | what is true of families, their tokens and their clients |
//!
//! The definitions are in `specs/`: the inner core's part of a history in `Around`, families and their tokens in `Families`, the replies
//! and legal histories in `Answering`.
#![tactic(auto)]

mod asks;
mod law;
mod place;
mod rows;

pub use asks::{OwnReply, RefreshAsk, RefreshGrant, RefreshParts, RefreshReply};
pub use law::{
    refresh_tokens_rotate, refused_requests_change_nothing, reuse_ends_the_family,
    tokens_stay_with_their_client,
};
pub use place::Place;
pub use rows::{AccessRow, FamilyRow, RefreshRow};

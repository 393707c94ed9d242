//! The provider's tables: its turns, sessions, codes and access tokens, and what users have granted to clients
//! (OpenID Connect Core 1.0, 3.1.2; RFC 6749, 4.1).
//!
//! The model of each table is the list of its rows, in the order of issue. Only [`Grants::new`] and [`Grants::reserve`]
//! allocate.
//!
//! | Module | What it has |
//! |---|---|
//! | `grants` | [`Grants`], all tables: construction, reserving, purging; what users have granted |
//! | `turns`, `sessions`, `codes`, `tokens` | the calls of `Grants` on one table each |
//! | `rows` | [`TurnRow`], [`SessionRow`], [`CodeRow`], [`TokenRow`] |
//! | `redeem` | [`judge_code`], the result of redeeming a code |
//! | `table` | [`Table`] names a table |
//! | `consents` | scopes for each user and client |
//! | `law` | laws about the tables, for the crates above |
#![tactic(auto)]

mod codes;
mod consents;
mod grants;
mod law;
mod redeem;
mod rows;
mod sessions;
mod table;
mod tokens;
mod turns;

pub use grants::Grants;
pub use law::{
    codes_are_redeemed_once, grants_are_joined, other_codes_do_not_count,
    redeemed_codes_are_redeemable, second_uses_end_the_tokens,
};
pub use redeem::{Redeem, judge_code};
pub use rows::{CodeRow, SessionRow, TokenRow, TurnRow};
pub use table::Table;

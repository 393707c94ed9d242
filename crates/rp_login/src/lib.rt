//! A relying party's tables: the logins that were begun, the exchanges that are waiting for a response, its sessions, the
//! logout tokens that it has accepted, and the session identifiers that those named (OpenID Connect Core 1.0, 3.1.2.1 and
//! 3.1.3; OpenID Connect Back-Channel Logout 1.0, 2.6 and 2.7).
//!
//! The model of each table is the list of its rows, in the order in which they were added. Only [`Logins::new`] and
//! [`Logins::reserve`] allocate.
//!
//! | Module | What it has |
//! |---|---|
//! | `tables` | [`Logins`], all tables: construction, reserving, purging |
//! | `logins`, `pendings`, `sessions`, `seens`, `deads` | the calls of `Logins` on one table each |
//! | `rows` | [`LoginRow`], [`PendingRow`] with its [`Stage`], [`SessionRow`], [`SeenRow`], [`DeadRow`] |
//! | `table` | [`RpTable`] names a table |
//! | `law` | laws about the tables, for the crates above |
#![tactic(auto)]

mod deads;
mod law;
mod logins;
mod pendings;
mod rows;
mod seens;
mod sessions;
mod table;
mod tables;

pub use law::{
    added_rows_are_found, dead_sids_are_remembered, ended_rows_are_gone, named_sessions_are_ended,
    purges_leave_what_lives, purges_make_the_room, rows_come_back_by_adds_alone,
    seen_tokens_are_remembered,
};
pub use rows::{DeadRow, LoginRow, PendingRow, SeenRow, SessionRow, Stage};
pub use table::RpTable;
pub use tables::Logins;

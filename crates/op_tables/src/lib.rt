//! How the provider's tables are updated with a request and its reply (OpenID Connect Core 1.0, 3), so that they stay in
//! agreement with the past.
//!
//! The tables are `Grants` of `code_grant`. After a pair they have the rows that lived at its moment, as the pair leaves them,
//! the rows that it makes, and the scopes that it grants (`IsUpdate`). Nothing here allocates, so a step can allocate
//! everything before.
//!
//! | Module | What it has |
//! |---|---|
//! | `made` | [`Made`], the rows that a pair makes |
//! | `updating` | [`update_tables`] updates the tables with a pair |
//! | `keeping` | the changes in each table, and [`session_set`], the session after a login |
#![tactic(auto)]

mod keeping;
mod made;
mod updating;

pub use keeping::session_set;
pub use made::Made;
pub use updating::update_tables;

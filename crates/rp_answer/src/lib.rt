//! The definition of a relying party's answers (OpenID Connect Core 1.0, 3): one reply for each past and each request, and laws
//! about it. It has no running code.
//!
//! The definitions are in `specs/`:
//!
//! - the rows after a past: `Logins`, `Pendings`, `Visits`, `Seens`, `Deads`;
//! - the reply, which depends on these rows: `Replies`, `Alive`, `Room`, `Answering`;
//! - what a reply implies about the past: `Causes`, `FullTables`, `Legal`, `Endings`, `Hashes`.
#![tactic(auto)]

mod law;

pub use law::{
    codes_and_access_tokens_have_their_hash, dead_sids_are_few, dead_sids_were_named,
    full_tables_are_full, legal_histories_are_short, login_objects_are_no_tokens,
    logins_enter_once, logout_tokens_are_accepted_once, replies_have_a_cause, rows_stand,
    seen_tokens_were_accepted, sessions_end_by_leaving_and_logout, sessions_need_a_login,
    words_are_drawn,
};

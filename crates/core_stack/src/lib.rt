//! Cores that stand around the provider or around a relying party, one within the other, and what they share.
//!
//! [`Provides`] is a core that the provider is in, alone or within further cores. The provider's history is a function of the
//! core's history, and the laws say what each step adds to it. [`Relies`] is the same for a relying party.
//!
//! | Module | What it has |
//! |---|---|
//! | `provides` | [`Provides`] |
//! | `op` | the provider alone |
//! | `relies` | [`Relies`] |
//! | `sending` | [`Sending`], a message to the provider, and the word of its exchange |
//! | `rp` | the relying party alone |
//! | `kept`, `kept_journal` | [`Kept`] and [`KeptJournal`], what a core keeps of its history beside that of the core inside |
//! | `marks` | [`TurnMark`] and [`CodeMark`], turns and codes with a mark of their authorization request |
//! | `marking` | which turn an entry begins or ends, and which code it makes |
//! | `holding` | the tables of these, which have room wherever the provider's have |
//! | `law` | what each step adds to the provider's history |
#![tactic(auto)]

mod holding;
mod kept;
mod kept_journal;
mod law;
mod marking;
mod marks;
mod op;
mod provides;
mod relies;
mod rp;
mod sending;

pub use holding::{keep_codes, keep_turns, kept_code, live_turn};
pub use kept::Kept;
pub use kept_journal::KeptJournal;
pub use law::{
    legal_histories_are_provided, sign_outs_are_added, steps_add_only_what_they_say,
    steps_add_what_they_say,
};
pub use marking::{code_made, ends_turn, is_wish, turn_begun, turn_ended, turn_named};
pub use marks::{CodeMark, TurnMark};
pub use provides::Provides;
pub use relies::Relies;
pub use sending::Sending;

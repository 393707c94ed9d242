//! Worlds over the real cores: lists of places, each with one request and its reply. The crate has no running code. It defines
//! the premises of the sign-on theorem, the reading of a world as steps of the sign-on machine, and the theorem's conclusions.
//! It also proves lemmas about these definitions.
//!
//! | Module | What it has | Its definitions, in `specs/` |
//! |---|---|---|
//! | `types` | requests to a world and its replies, cookie jars, failed premises | |
//! | `law` | lemmas: the first failed premises; what messages and locations carry; worlds of servers | |
//! | | the participants; places, worlds, legal worlds, and worlds of servers | `Site`, `World`, `Legal`, `Merges` |
//! | | cookies that are set and presented | `Cookies` |
//! | | the clients that a sign-out notifies; tokens that are written or checked | `Told`, `Tokens`, `Written`, `Checked` |
//! | | the premises, and the first that fails | `Premises`, `FirstBroken` |
//! | | the premise of authorization, and the first place at which it fails | `Unshared` |
//! | | the steps of the sign-on machine that places make | `Reading` |
//! | | the sign-on theorem, and two further properties | `Agreement`, `SameBrowser`, `Binding` |
#![tactic(auto)]

mod law;
mod types;

pub use law::{
    first_broken_is_exact, first_shared_is_exact, logins_carry_the_written_objects,
    merges_are_legal, messages_carry_the_written_tokens,
};
pub use types::{Broken, Jar, To, WorldAsk, WorldReply};

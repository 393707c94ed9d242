// The contents of a request to end a session, and why one is refused.

ghost use Rattle.std.specs.Prelude.{◌≡◌, IfOk};

use sso_base::{NoMemory, Text};
use std::alloc::Global;

/// The contents of a request to end a session (RP-Initiated Logout 1.0, 2).
#[derive(Drop)]
pub struct EndWish {
    /// The number of the client whose hint it is, or else of the one that it names.
    pub client: Option<u32>,
    /// Where the browser goes after the sign-out. It is registered for the client of the hint.
    pub back: Option<Text>,
    /// What the browser takes there.
    pub state: Option<Text>,
}

/// Why a request to end a session is refused. If several reasons apply, the first in this order is returned.
#[derive(Drop)]
pub enum EndNo {
    /// This parameter occurs twice.
    Twice(Text),
    /// No client has the id.
    Client,
    /// The hint is no ID Token of the provider for a client that the request may be of.
    Hint,
    /// The URI is not registered for the client of the hint, or there is no hint.
    Return,
}

impl EndNo {
    /// An equal reason.
    pub fn copy(&self, alloc: Global) -> Result<EndNo, NoMemory>
        ensures { IfOk result (λ no. no ≡ self.now) }
    {
        Ok(match self {
            EndNo::Twice(name) => EndNo::Twice(name.copy(alloc)?),
            EndNo::Client => EndNo::Client,
            EndNo::Hint => EndNo::Hint,
            EndNo::Return => EndNo::Return,
        })
    }
}

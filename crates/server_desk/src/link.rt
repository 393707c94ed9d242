ghost use Rattle.std.specs.Prelude.{◌≤◌, length, IfOk};
ghost use Rattle.server_desk.specs.Links.{TookCall};

use sso_base::{Blob, NoMemory, Text};
use std::alloc::Global;

/// Why nothing came back over a link.
#[derive(Clone, Copy, Debug, PartialEq, Eq)]
pub enum LinkNo {
    /// Memory ran out before anything was sent.
    NoMemory,
    /// The link failed.
    Failed,
}

impl From<NoMemory> for LinkNo {
    ghost use Rattle.std.specs.Prelude.{◌≡◌};
    ghost use Rattle.server_desk.specs.declared.link.LinkNo.TheVariants as no;

    ghost from_gives = { λ _ e. e ≡ no.NoMemory };

    fn from(_error: NoMemory) -> LinkNo {
        LinkNo::NoMemory
    }
}

/// Sends messages to other servers.
pub trait Link: Send + Drop {
    ghost use Rattle.server_desk.specs.Links.{LinkState};

    /// The exchanges over it, failed ones too, if they are known; the number of its calls, and of its faults. Only `exchange`
    /// changes this.
    ghost state: { Self → LinkState };

    /// Sends the bytes to `to`, `HOST:PORT`. Returns the bytes that come back, at most the first `most` of them.
    fn exchange(
        &mut self,
        alloc: Global,
        to: &Text,
        asked: &[u8],
        most: usize,
    ) -> Result<Blob, LinkNo>
        ensures called { TookCall (state self.old) (state self.new) to.now asked.now result }
        ensures bound { IfOk result (λ back. length back ≤ most) };
}

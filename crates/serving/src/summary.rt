// What a server did.

use sso_base::Core;
use turn_store::Closed;

/// What a server did.
#[derive(Drop)]
pub struct Summary<O: Core + Send> {
    /// The number of connections that its desks served.
    pub served: u64,
    /// The number of entries in the history of its core.
    pub entries: u64,
    /// Whether a door failed.
    pub fault: bool,
    /// The closed store. `None` if and only if there was no desk.
    pub closed: Option<Closed<O>>,
}

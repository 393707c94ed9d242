// How the serving of a connection ended.

use sso_http::HttpNo;

/// How the serving of a connection ended.
#[derive(Clone, Copy, Debug, PartialEq, Eq)]
pub enum ServedEnd {
    /// The reply of the last step was written.
    Written,
    /// The request was refused, but not for lack of memory. The refusal was sent, except for the first two reasons: after these
    /// nobody would receive it.
    Http(HttpNo),
    /// The link to another server failed. A reply with the status 502 was written.
    Link,
    /// The answer of another server is not HTTP. A reply with the status 502 was written.
    Peer,
    /// The request, or the answer of another server, is larger than the server takes. A reply with the status 413 was written.
    TooLarge,
    /// The request proves a password, and as many workers as may were at that. A reply with the status 503 was written.
    Busy,
    /// A write to the connection failed.
    WriteFault,
    /// The core refused a step, since its history would be too heavy. A reply with the status 503 was written.
    Full,
    /// Memory ran out. A reply with the status 503 was written.
    NoMemory,
}

/// What was done for one connection.
#[derive(Clone, Copy, Debug, PartialEq, Eq)]
pub struct Served {
    /// The number of steps that the core made for it.
    pub places: u64,
    /// How it ended.
    pub end: ServedEnd,
}

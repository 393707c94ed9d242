//! This machine: the words that the program was started with, files as a shelf, writers as sinks, and desks over its network, its
//! clock and its random bytes. They report nothing of what they hold, and their few lines are the edge of what is proved: that the
//! machine does as its calls say is trusted, and tried by cases (`outside_cases`).
//!
//! | Module | What it has |
//! |---|---|
//! | `words` | [`read_words`], the words of the program |
//! | `shelf` | [`FileShelf`], files as a shelf |
//! | `sink` | [`WriterSink`], a writer as a sink |
//! | `desks` | [`desk`], a desk over this machine |
//! | `door` | [`TcpDoor`], a TCP listener as a door |
//! | `connection` | a TCP connection as a source and a sink |
//! | `link` | [`TcpLink`], TCP as a link, to loopback addresses only |
//! | `names` | [`Names`], the names that this machine knows by itself |
//! | `clock` | [`SystemClock`], the machine's steady clock and its wall clock as a clock |
//! | `draw` | [`RandomDraw`], a random generator as a draw |
//! | `wire` | a TCP stream that a source and a sink share, within limits in time |
//! | `limit` | limits in time |
//! | `read_ahead` | bytes that were read before they were asked for |
//!
//! # What a request costs
//!
//! A request that comes in one piece, and whose reply the system takes at once, costs these calls of the system, in this order:
//!
//! | Call | Reason |
//! |---|---|
//! | `accept4` | takes the connection |
//! | `setsockopt`, `SO_RCVTIMEO` | limits how long a read waits; again only once the limit of all reads is nearer |
//! | `recv` | reads what came, at most 4,096 bytes; once for each piece that comes |
//! | `ioctl`, `FIONBIO` | from now on nothing waits: neither the reply nor the look for further bytes |
//! | `send` | sends the reply |
//! | `recv`, `MSG_PEEK` | looks for bytes that were not read: closing would reset the connection, and the reply might be lost |
//! | `close` | ends the reply and the connection |
//!
//! Others come only if they are needed:
//!
//! | Call | When |
//! |---|---|
//! | `ioctl`, `setsockopt` with `SO_SNDTIMEO`, `send` | the system does not take the reply at once: the rest waits, within its limit |
//! | `shutdown`, `ioctl`, `setsockopt`, `recv` | bytes were not read: the reply ends first, and what still comes is read for a second |
//! | `futex` | workers wait for one another's turn at the core (`turn_store`) |
//! | `brk`, `mmap`, `mprotect` | the C library needs more memory, as the history grows |
//!
//! There are none for the time, which the system shows in the program's memory; for random words, whose stream is seeded once; and
//! for `TCP_NODELAY`, since the end of a reply sends its last bytes. A message of the link has it: nothing ends the message.
#![tactic(auto)]

mod clock;
mod connection;
mod desks;
mod door;
mod draw;
mod limit;
mod link;
mod names;
mod read_ahead;
mod shelf;
mod sink;
mod wire;
mod words;

pub use clock::SystemClock;
pub use connection::{TcpSink, TcpSource};
pub use desks::desk;
pub use door::TcpDoor;
pub use draw::RandomDraw;
pub use link::TcpLink;
pub use names::Names;
pub use shelf::FileShelf;
pub use sink::WriterSink;
pub use words::read_words;

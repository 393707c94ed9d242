//! What a worker of a server uses: the outside world, as traits with ghost contents and counts of their faults.
//!
//! | Module | What it has |
//! |---|---|
//! | `source` | [`Source`], from which bytes are read, and [`read_whole`], which fills a buffer from one |
//! | `connection` | [`Connection`], a source and a sink |
//! | `door` | [`Door`], which accepts connections |
//! | `link` | [`Link`], which carries messages to other servers |
//! | `clock`, `draw` | [`Clock`] and [`Draw`]: moments and random words |
//! | `desk` | [`Desk`], all of these together; [`Tools`], those for one connection |
//! | `source_memory` | [`MemorySource`] and [`FaultySource`], sources in memory |
//! | `door_memory` | [`MemoryDoor`] and [`FaultyDoor`], doors in memory |
//! | `link_memory` | [`MemoryLink`] and [`FaultyLink`], links in memory, and [`Exchanged`], what they keep |
//! | `clock_memory`, `draw_memory` | [`MemoryClock`] and [`MemoryDraw`]: moments and words from memory, and [`word_of_number`] |
#![tactic(auto)]

mod clock;
mod clock_memory;
mod connection;
mod desk;
mod door;
mod door_memory;
mod draw;
mod draw_memory;
mod link;
mod link_memory;
mod source;
mod source_memory;

pub use clock::Clock;
pub use clock_memory::MemoryClock;
pub use connection::Connection;
pub use desk::{Desk, Tools};
pub use door::{Door, DoorFault};
pub use door_memory::{FaultyDoor, MemoryDoor};
pub use draw::Draw;
pub use draw_memory::{MemoryDraw, word_of_number};
pub use link::{Link, LinkNo};
pub use link_memory::{Exchanged, FaultyLink, MemoryLink};
pub use source::{Source, SourceFault, read_whole};
pub use source_memory::{FaultySource, MemorySource};

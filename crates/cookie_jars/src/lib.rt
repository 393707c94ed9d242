//! The cookies of browsers at the provider and the relying parties. A browser has a jar at each role, given by the changes of
//! the jars. A reply sets cookies in one jar, and a thief copies the jars of another browser. The number 0, of a server, has no
//! jar.
//!
//! | Module | What it has | Its definitions, in `specs/` |
//! |---|---|---|
//! | `jars` | [`Jars`]: the jar of each browser at each role | `Jars`, `JarsFound` |
//! | `jar_map` | the jars at one role | `JarMaps` |
//! | `jar_note` | [`JarNote`]: a change of jars; [`Slot`]: the jar for whose change there is room | |
#![tactic(auto)]

mod jar_map;
mod jar_note;
mod jars;

pub use jar_note::{JarNote, Slot};
pub use jars::Jars;

//! Parses the program's command from the words after its name, by means of `clap`.
//!
//! | Module | What it has | Its definitions, in `specs/` |
//! |---|---|---|
//! | `command` | [`Command`] and [`read_command`], which reads one | `Commands` |
//! | `number` | decimal numbers | `Numbers` |
//! | `positionals` | the words by position, as `clap` parses them | `Positionals` |
//! | `law` | [`commands_are_read_as_they_are_written`] | `Commands` |
#![tactic(auto)]

mod command;
mod law;
mod number;
mod positionals;

pub use command::{Command, read_command};
pub use law::commands_are_read_as_they_are_written;

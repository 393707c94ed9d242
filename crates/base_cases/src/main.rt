//! Cases of the lowest crates, each a line that a person can read: texts, bytes, moments and words, rows with names and tables
//! of them, scope values and response types.
//!
//! The file `stdin` has the cases, and `stdout` has them with their answers. The crate `case_lines` documents how a line is
//! read. The comments in the table name the source of the expected answers.
//!
//! | Module | Its calls |
//! |---|---|
//! | `words` | texts, bytes, moments, and words with their texts |
//! | `rows` | `put row`, `find row` and `remove row`: a table of rows with names |
//! | `scopes` | `claim`, `claims`, `asks`, `joined` and `covers`: scope values, and the claims that they request |
//! | `types` | `types`: response types |
//! | `beside` | `table` and `many`: the held rows of a table compared with a plain list, with the same calls |
//! | `table` | the calls of the two |
//! | `held`, `plain` | members in the held rows of a table, and in a plain list |
//! | `members` | members: rows with names and groups |
#![tactic(auto)]

mod beside;
mod held;
mod members;
mod plain;
mod rows;
mod scopes;
mod table;
mod types;
mod words;

use crate::rows::Door;
use case_lines::{Cases, print_cases};
use sso_base::NoMemory;
use std::alloc::Global;
use std::io;

/// The calls, and the table of rows that those of `rows` change.
#[derive(Drop)]
struct BaseCases {
    doors: Vec<Door>,
}

impl Cases for BaseCases {
    fn answer(&mut self, alloc: Global, fields: &[&str]) -> Result<String, NoMemory> {
        match fields {
            ["put row" | "find row" | "remove row", ..] => {
                rows::answer(alloc, &mut self.doors, fields)
            }
            ["claim", name] => scopes::claim(alloc, name),
            ["claims", names] => scopes::claims(alloc, names),
            ["asks", scope, name] => scopes::asks(alloc, scope, name),
            ["joined", one, other] => scopes::joined(alloc, one, other),
            ["covers", one, other] => scopes::covers(alloc, one, other),
            ["table", calls] => beside::table(alloc, calls),
            ["many", count, calls] => beside::many(alloc, count, calls),
            ["types", code, id_token, token] => types::types(alloc, code, id_token, token),
            _ => words::answer(alloc, fields),
        }
    }

    fn text(&self, _name: &str) -> Option<&str> {
        None
    }
}

fn main(rt: HostRuntime) -> io::Result<()> {
    let mut cases = BaseCases {
        doors: Vec::new(rt.alloc()),
    };
    print_cases(&rt, &mut cases)
}

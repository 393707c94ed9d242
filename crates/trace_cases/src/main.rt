//! Cases of traces, each a line that a person can read: which traces are accepted, what their lines parse to, and why others
//! are rejected; and how the play of a trace over a configuration ends, with the text that it prints.
//!
//! The file `stdin` has the cases, and `stdout` has them with their answers. The crate `case_lines` documents how a line is
//! read. The comments in the table list the configurations, and name the source of the expected answers. ` / ` is a line feed.
//! Besides the texts of words, the names are those of `texts`.
//!
//! There are two tables. A line `table|lines` or `table|plays` begins a table, and all lines after it are calls of that table.
//! The traces of `lines` are read for a registry with the parties shop, news and mail, whose numbers are 0, 1 and 2.
//!
//! | Module | What it has |
//! |---|---|
//! | `traces` | the calls `trace`, `whole`, `long` and `seed` of the table `lines`, which read a trace |
//! | `lines` | prints lines |
//! | `plays` | the calls `play`, `whole` and `end` of the table `plays`, which play a trace |
//! | `fronts` | the call `fronts` of the table `plays`, which ends the bytes of a trace after each of them |
//! | `among` | the call `among` of the table `plays`, which compares logins played alone and among other lines |
//! | `configurations` | the configurations |
//! | `texts` | the named texts in a line |
#![tactic(auto)]

mod among;
mod configurations;
mod fronts;
mod lines;
mod plays;
mod texts;
mod traces;

use crate::configurations::registry;
use case_lines::{Cases, print_cases, told};
use client_registry::Registry;
use sso_base::{NoMemory, Text};
use std::alloc::Global;
use std::io;

#[derive(Clone, Copy)]
enum Table {
    Lines,
    Plays,
}

// The current table, and the registry for which the traces of `lines` are read.
#[derive(Drop)]
struct TraceCases {
    table: Option<Table>,
    registry: Registry,
}

fn table_named(name: &str) -> Option<Table> {
    match name {
        "lines" => Some(Table::Lines),
        "plays" => Some(Table::Plays),
        _ => None,
    }
}

fn of_lines(alloc: Global, registry: &Registry, fields: &[&str]) -> Result<String, NoMemory> {
    match fields {
        ["trace", lines] => traces::trace(alloc, registry, lines),
        ["long", count] => traces::long(alloc, registry, count),
        ["whole", lines] => traces::whole(alloc, registry, lines),
        ["seed", header] => traces::seed(alloc, registry, header),
        _ => told(alloc, "no such call"),
    }
}

fn of_plays(alloc: Global, fields: &[&str]) -> Result<String, NoMemory> {
    match fields {
        ["play", name, lines] => plays::play(alloc, name, lines),
        ["whole", name, lines] => plays::whole(alloc, name, lines),
        ["end", name, lines] => plays::end(alloc, name, lines),
        ["fronts", name, lines] => fronts::fronts(alloc, name, lines),
        ["among", name, lines, logins @ ..] => among::among(alloc, name, lines, logins),
        _ => told(alloc, "no such call"),
    }
}

impl TraceCases {
    fn begin(&mut self, alloc: Global, name: &str) -> Result<String, NoMemory> {
        self.table = table_named(name);
        match self.table {
            Some(_) => told(alloc, "begun"),
            None => told(alloc, "no such table"),
        }
    }

    fn ask(&self, alloc: Global, fields: &[&str]) -> Result<String, NoMemory> {
        match self.table {
            Some(Table::Lines) => of_lines(alloc, &self.registry, fields),
            Some(Table::Plays) => of_plays(alloc, fields),
            None => told(alloc, "no table"),
        }
    }
}

impl Cases for TraceCases {
    fn answer(&mut self, alloc: Global, fields: &[&str]) -> Result<String, NoMemory> {
        match fields {
            ["table", name] => self.begin(alloc, name),
            _ => self.ask(alloc, fields),
        }
    }

    fn text(&self, name: &str) -> Option<&str> {
        texts::named(name)
    }

    fn made(&self, alloc: Global, name: &str) -> Result<Option<Text>, NoMemory> {
        texts::made(alloc, name)
    }
}

fn main(rt: HostRuntime) -> io::Result<()> {
    match registry(rt.alloc()) {
        Ok(Some(registry)) => {
            let mut cases = TraceCases {
                table: None,
                registry,
            };
            print_cases(&rt, &mut cases)
        }
        _ => println!(rt; "no registry"),
    }
}

// The bytes of a trace are ended after each byte.

use crate::configurations::configuration;
use crate::plays::{push_lines, told_file};
use case_lines::{push_part, told};
use client_registry::{RegNo, read_registry};
use sso_base::NoMemory;
use std::alloc::Global;

// The answers to longer and longer prefixes: those that are written, and the last one, with the length of its first prefix.
#[derive(Drop)]
struct Runs {
    told: String,
    first: usize,
    last: String,
}

impl Runs {
    // Tells the last answer, whose fronts end with this length.
    fn tell(&mut self, alloc: Global, length: usize) -> Result<(), NoMemory> {
        let part = format!(in alloc; "{}-{length} {}", self.first, self.last.as_str())?;
        Ok(push_part(&mut self.told, "; ", part.as_str())?)
    }

    // Takes the answer to the prefix of this length.
    fn take(&mut self, alloc: Global, length: usize, answer: String) -> Result<(), NoMemory> {
        if answer.as_str() == self.last.as_str() {
            return Ok(());
        }
        if self.first < length {
            self.tell(alloc, length - 1)?;
        }
        self.first = length;
        self.last = answer;
        Ok(())
    }
}

// The play of these bytes over the configuration, or why they are no trace.
fn answer_to(alloc: Global, configuration: &str, front: &[u8]) -> Result<String, NoMemory> {
    match read_registry(alloc, configuration.as_bytes()) {
        Ok(registry) => told_file(alloc, registry, front),
        Err(RegNo::NoMemory) => Err(NoMemory),
        Err(_) => told(alloc, "no configuration"),
    }
}

fn all_runs(alloc: Global, configuration: &str, file: &[u8]) -> Result<Runs, NoMemory> {
    let mut runs = Runs {
        told: String::new(alloc),
        first: 1,
        last: String::new(alloc),
    };
    for place in 0..file.len() {
        let length = place + 1;
        let answer = answer_to(alloc, configuration, &file[..length])?;
        runs.take(alloc, length, answer)?;
    }
    Ok(runs)
}

/// `fronts|NAME|LINES`: the answer for each prefix of the bytes of these lines, over the configuration with this name. For a
/// prefix that is a trace it is the play, as `whole` prints it, and for any other the refusal. Lengths in a row that have the
/// same answer are written as `FIRST-LAST`.
pub fn fronts(alloc: Global, name: &str, lines: &str) -> Result<String, NoMemory> {
    let configuration = configuration(alloc, name)?;
    let mut file = String::new(alloc);
    push_lines(&mut file, lines)?;
    let file = file.as_str().as_bytes();
    let mut runs = all_runs(alloc, configuration.as_str(), file)?;
    runs.tell(alloc, file.len())?;
    told(alloc, runs.told.as_str())
}

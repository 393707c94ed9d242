//! Cases of MACs, sealed texts, claim sets and tokens, each a line that a person can read: how each is read, or why it is
//! refused, and how it is written.
//!
//! The file `stdin` has the cases, and `stdout` has them with their answers. The crate `case_lines` documents how a line is
//! read. The comments in the table name the source of the expected answers: standards, and other programs. `$NAME$` is a text
//! of `names`.
//!
//! | Module | Its calls |
//! |---|---|
//! | `macs` | MACs, and the proofs of passwords |
//! | `sealed` | texts that are sealed and unsealed |
//! | `claims` | claim sets that are read and queried |
//! | `puts` | claims that are put into a set |
//! | `ids` | ID Tokens |
//! | `logouts` | logout tokens |
//! | `kinds` | each kind of sealed text, read as another |
//! | `keys` | texts that are opened under a secret of their client |
//! | `names` | none; the named texts |
#![tactic(auto)]

mod claims;
mod ids;
mod keys;
mod kinds;
mod logouts;
mod macs;
mod names;
mod puts;
mod sealed;

use case_lines::{Cases, print_cases, told};
use sso_base::NoMemory;
use std::alloc::Global;
use std::io;

/// The calls.
#[derive(Drop)]
struct TokenCases {}

// The answer of a call about MACs and sealed texts, if there is one with this name.
fn of_texts(alloc: Global, fields: &[&str]) -> Option<Result<String, NoMemory>> {
    if let Some(answer) = macs::answer(alloc, fields) {
        return Some(answer);
    }
    if let Some(answer) = keys::answer(alloc, fields) {
        return Some(answer);
    }
    sealed::answer(alloc, fields)
}

fn of_claims(alloc: Global, fields: &[&str]) -> Option<Result<String, NoMemory>> {
    if let Some(answer) = claims::answer(alloc, fields) {
        return Some(answer);
    }
    puts::answer(alloc, fields)
}

fn of_tokens(alloc: Global, fields: &[&str]) -> Option<Result<String, NoMemory>> {
    if let Some(answer) = ids::answer(alloc, fields) {
        return Some(answer);
    }
    if let Some(answer) = logouts::answer(alloc, fields) {
        return Some(answer);
    }
    kinds::answer(alloc, fields)
}

impl Cases for TokenCases {
    fn answer(&mut self, alloc: Global, fields: &[&str]) -> Result<String, NoMemory> {
        if let Some(answer) = of_texts(alloc, fields) {
            return answer;
        }
        if let Some(answer) = of_claims(alloc, fields) {
            return answer;
        }
        if let Some(answer) = of_tokens(alloc, fields) {
            return answer;
        }
        told(alloc, "no such call")
    }

    fn text(&self, name: &str) -> Option<&str> {
        names::text(name)
    }
}

fn main(rt: HostRuntime) -> io::Result<()> {
    print_cases(&rt, &mut TokenCases {})
}

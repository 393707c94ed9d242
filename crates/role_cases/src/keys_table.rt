// The calls of the table `party with keys`.

use crate::cores::Begins;
use crate::party_table;
use crate::roles::Roles;
use case_lines::{told, word_in};
use pkce_party::KeyText;
use sso_base::NoMemory;
use std::alloc::Global;

// The challenge of a party whose verifier is the text of this word.
fn challenge(alloc: Global, verifier: &str) -> Result<String, NoMemory> {
    match word_in(verifier) {
        Some(word) => {
            let challenge = KeyText::of_word(&word).challenge();
            told(alloc, challenge.as_str())
        }
        None => told(alloc, "no word"),
    }
}

/// The answer to a call: `challenge|WORD`, or a call of the table `party`.
pub fn answer<C: Begins>(
    alloc: Global,
    roles: &mut Roles<C>,
    fields: &[&str],
) -> Result<String, NoMemory> {
    match fields {
        ["challenge", verifier] => challenge(alloc, verifier),
        _ => party_table::answer(alloc, roles, fields),
    }
}

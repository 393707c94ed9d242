// Challenges, and challenges and verifiers in forms.

use case_lines::{as_text, told};
use pkce_answer::{Challenge, Verifier};
use pkce_check::{challenge_of, read_challenge, read_verifier};
use sso_base::NoMemory;
use std::alloc::Global;

/// The challenge of this verifier.
pub fn challenge(alloc: Global, verifier: &str) -> Result<String, NoMemory> {
    told(alloc, as_text(&challenge_of(verifier.as_bytes())))
}

fn challenge_told(alloc: Global, challenge: &Challenge) -> Result<String, NoMemory> {
    match challenge {
        Challenge::Absent => told(alloc, "absent"),
        Challenge::Bad => told(alloc, "bad"),
        Challenge::S256(digest) => told(alloc, as_text(digest)),
    }
}

/// The challenge in a form, `absent` or `bad`.
pub fn challenge_in(alloc: Global, form: &str) -> Result<String, NoMemory> {
    let challenge = read_challenge(alloc, form.as_bytes())?;
    challenge_told(alloc, &challenge)
}

fn verifier_told(alloc: Global, verifier: &Verifier) -> Result<String, NoMemory> {
    match verifier {
        Verifier::Absent => told(alloc, "absent"),
        Verifier::Bad => told(alloc, "bad"),
        Verifier::Given(text) => told(alloc, as_text(text.as_bytes())),
    }
}

/// The verifier in a form, `absent` or `bad`.
pub fn verifier_in(alloc: Global, form: &str) -> Result<String, NoMemory> {
    let verifier = read_verifier(alloc, form.as_bytes())?;
    verifier_told(alloc, &verifier)
}

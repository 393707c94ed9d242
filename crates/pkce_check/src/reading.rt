// Reading challenges and verifiers from forms.

ghost use Rattle.std.specs.Prelude.{◌≡◌, option_map, IfOk};
ghost use Rattle.pkce_check.specs.Reading as spec;

use pkce_answer::{Challenge, Verifier};
use request_params::{Pair, read_pairs};
use sso_base::{Blob, NoMemory, Text};
use std::alloc::Global;

// Whether a pair has the name, and a value that is not empty.
fn has_name(pair: &Pair, name: &str) -> bool
    ensures { result ≡ spec.has_name name.now pair.now }
{
    pair.0.as_str() == name && !pair.1.as_str().is_empty()
}

// How many pairs have the name and a value.
fn count(pairs: &[Pair], name: &str) -> usize
    ensures { result ≡ spec.count name.now pairs.now }
{
    let mut count = 0;
    for pair in pairs {
        if has_name(pair, name) {
            count += 1;
        }
    }
    count
}

// The first value of a name.
fn value_of<'a>(pairs: &'a [Pair], name: &str) -> Option<&'a Text>
    ensures { option_map (λ t. t.now) result ≡ spec.value_of name.now pairs.now }
{
    for pair in pairs {
        if has_name(pair, name) {
            return Some(&pair.1);
        }
    }
    None
}

// The first value of a name; empty if there is none.
fn value<'a>(pairs: &'a [Pair], name: &str) -> &'a [u8]
    ensures { result.now ≡ spec.value name.now pairs.now }
{
    match value_of(pairs, name) {
        Some(value) => value.as_str().as_bytes(),
        None => &[],
    }
}

// Whether a byte is one of `A-Z a-z 0-9 - _`.
fn is_url_safe(byte: u8) -> bool
    ensures { result ≡ spec.is_url_safe byte }
{
    byte.is_ascii_alphanumeric() || byte == b'-' || byte == b'_'
}

// Whether a byte is unreserved (RFC 7636, 4.1): one of `A-Z a-z 0-9 - . _ ~`.
fn is_unreserved(byte: u8) -> bool
    ensures { result ≡ spec.is_unreserved byte }
{
    is_url_safe(byte) || byte == b'.' || byte == b'~'
}

fn all_url_safe(bytes: &[u8]) -> bool
    ensures { result ≡ spec.all_url_safe bytes.now }
{
    bytes.iter().all(|byte| is_url_safe(*byte))
}

fn all_unreserved(bytes: &[u8]) -> bool
    ensures { result ≡ spec.all_unreserved bytes.now }
{
    bytes.iter().all(|byte| is_unreserved(*byte))
}

// The challenge of the method S256 that has this text.
fn challenge_in(text: &[u8]) -> Challenge
    ensures { result ≡ spec.challenge_in text.now }
{
    if text.len() != 43 || !all_url_safe(text) {
        return Challenge::Bad;
    }
    let mut digest = [0u8; 43];
    digest.copy_from_slice(text);
    Challenge::S256(digest)
}

// The challenge in the pairs of a form.
fn challenge_of_pairs(pairs: &[Pair]) -> Challenge
    ensures { result ≡ spec.challenge_of_pairs pairs.now }
{
    let challenges = count(pairs, "code_challenge");
    let methods = count(pairs, "code_challenge_method");
    if challenges == 0 && methods == 0 {
        return Challenge::Absent;
    }
    if challenges != 1
        || methods != 1
        || value(pairs, "code_challenge_method") != b"S256".as_slice()
    {
        return Challenge::Bad;
    }
    challenge_in(value(pairs, "code_challenge"))
}

/// Reads the challenge from the form of an authorization request (RFC 7636, 4.3).
///
/// It is absent if the form has neither `code_challenge` nor `code_challenge_method`. It is one of the method S256 if each is there
/// once, the method is `S256`, and the challenge is 43 characters of `A-Z a-z 0-9 - _`. Otherwise it is bad: the method `plain` is not
/// supported (RFC 7636, 4.4.1 and 7.2). A parameter with an empty value counts as absent (RFC 6749, 3.1).
#[tactic(auto, unfolding(crate::specs::Reading::challenge_read))]
pub fn read_challenge(alloc: Global, form: &[u8]) -> Result<Challenge, NoMemory>
    ensures { IfOk result (λ c. c ≡ spec.challenge_read form.now) }
{
    let pairs = read_pairs(alloc, form)?;
    Ok(challenge_of_pairs(&pairs))
}

// Whether a text can be a verifier.
fn is_verifier(text: &[u8]) -> bool
    ensures { result ≡ spec.is_verifier text.now }
{
    43 <= text.len() && text.len() <= 128 && all_unreserved(text)
}

// The verifier in the pairs of a form.
fn verifier_of_pairs(alloc: Global, pairs: &[Pair]) -> Result<Verifier, NoMemory>
    ensures { IfOk result (λ v. v ≡ spec.verifier_of_pairs pairs.now) }
{
    let verifiers = count(pairs, "code_verifier");
    if verifiers == 0 {
        return Ok(Verifier::Absent);
    }
    let text = value(pairs, "code_verifier");
    if verifiers != 1 || !is_verifier(text) {
        return Ok(Verifier::Bad);
    }
    Ok(Verifier::Given(Blob::new(alloc, text)?))
}

/// Reads the verifier from the form of a token request (RFC 7636, 4.5).
///
/// It is given if `code_verifier` is there once, with 43 to 128 characters of `A-Z a-z 0-9 - . _ ~`, and bad if it is there otherwise.
/// An empty value counts as absent (RFC 6749, 3.2).
#[tactic(auto, unfolding(crate::specs::Reading::verifier_read))]
pub fn read_verifier(alloc: Global, form: &[u8]) -> Result<Verifier, NoMemory>
    ensures { IfOk result (λ v. v ≡ spec.verifier_read form.now) }
{
    let pairs = read_pairs(alloc, form)?;
    verifier_of_pairs(alloc, &pairs)
}

// MACs, and the proofs of passwords.

use case_lines::{bytes, told, told_hex};
use sso_base::NoMemory;
use std::alloc::Global;

/// The answer of a call of this module; none if the call is another module's.
pub fn answer(alloc: Global, fields: &[&str]) -> Option<Result<String, NoMemory>> {
    match fields {
        ["mac", key, text] => Some(mac(alloc, key, text)),
        ["chain", count] => Some(chain(alloc, count)),
        ["proof", password, salt, rounds] => Some(proof(alloc, password, salt, rounds)),
        ["same", left, right] => Some(same(alloc, left, right)),
        _ => None,
    }
}

// `mac|KEY|TEXT`: the MAC of the text under the key, in hex.
fn mac(alloc: Global, key: &str, text: &str) -> Result<String, NoMemory> {
    let (key, text) = (bytes(alloc, key)?, bytes(alloc, text)?);
    told_hex(alloc, &hmac256::mac(key.as_slice(), text.as_slice()))
}

// `chain|COUNT`: the last of COUNT MACs of 200 times `t`, in hex. The first is under 32 times `k`, and each is the next one's
// key.
fn chain(alloc: Global, count: &str) -> Result<String, NoMemory> {
    let mut last = [b'k'; 32];
    for _ in 0..count.parse::<u32>().unwrap_or(0) {
        last = hmac256::mac(&last, &[b't'; 200]);
    }
    told_hex(alloc, &last)
}

// `proof|PASSWORD|SALT|ROUNDS`: the proof of the password, in hex.
fn proof(alloc: Global, password: &str, salt: &str, rounds: &str) -> Result<String, NoMemory> {
    let (password, salt) = (bytes(alloc, password)?, bytes(alloc, salt)?);
    match rounds.parse::<u32>() {
        Ok(rounds) if rounds >= 1 && salt.len() <= 64 => {
            told_hex(
                alloc,
                &hmac256::proof(password.as_slice(), salt.as_slice(), rounds),
            )
        }
        _ => told(alloc, "not to be proved"),
    }
}

// `same|BYTES|BYTES`: whether two MACs, or two secrets, are equal.
fn same(alloc: Global, left: &str, right: &str) -> Result<String, NoMemory> {
    let (left, right) = (bytes(alloc, left)?, bytes(alloc, right)?);
    let same = hmac256::same(left.as_slice(), right.as_slice());
    Ok(format!(in alloc; "{same}")?)
}

// Unsealing: reading a text, or rejecting it for the first reason that applies; and what a text says, whoever sealed it.

ghost use Rattle.std.specs.Prelude.{◌≡◌, ◌⊎◌, ℕ, List, Ok, Err, IfOk, IfErr};
ghost use Rattle.jws_compact.specs.Jws.{Sealed, Opens, opened, verdict, payload_in};

use crate::header::header_of;
use crate::no::JwsNo;
use crate::parts::{in_three_parts, signed_part, spelled, spelled_mac};
use sso_base::{Blob, NoMemory, Text};
use std::alloc::Global;

// The greatest length of a sealed text, in bytes.
const MOST: usize = 8192;

/// The contents of a sealed text.
#[derive(Drop)]
pub struct Unsealed {
    /// The header's `typ`, if it is a string (RFC 7515, 4.1.9).
    pub typ: Option<Text>,
    /// The payload's bytes.
    pub payload: Blob,
}

// The contents of the text, or the first error that applies.
#[tactic(auto, unfolding(crate::specs::Jws::verdict))]
fn judged(alloc: Global, key: &[u8], text: &[u8]) -> Result<Unsealed, JwsNo>
    ensures ok { IfOk result (λ u. verdict key.now text.now ≡ Ok u) }
    ensures err { IfErr result (λ e. (e ≡ JwsNo.NoMemory) ⊎ (verdict key.now text.now ≡ Err e)) }
{
    if text.len() > MOST {
        return Err(JwsNo::TooLong);
    }
    let Some((header, payload, mac)) = in_three_parts(text) else {
        return Err(JwsNo::NotThreeParts);
    };
    let Some(header_bytes) = spelled(alloc, header)? else {
        return Err(JwsNo::HeaderSpelling);
    };
    let Some(payload_bytes) = spelled(alloc, payload)? else {
        return Err(JwsNo::PayloadSpelling);
    };
    let Some(mac_bytes) = spelled_mac(alloc, mac)? else {
        return Err(JwsNo::MacSpelling);
    };
    let Some(said) = header_of(alloc, &header_bytes)? else {
        return Err(JwsNo::HeaderNotObject);
    };
    if !said.hs256 {
        return Err(JwsNo::AlgNotHs256);
    }
    if said.critical {
        return Err(JwsNo::Crit);
    }
    let signed = signed_part(text, header, payload, mac);
    if !hmac256::same(&mac_bytes, &hmac256::mac(key, signed)) {
        return Err(JwsNo::BadMac);
    }
    Ok(Unsealed {
        typ: said.typ,
        payload: Blob::from_vec(payload_bytes),
    })
}

/// Reads a sealed text under `key` (RFC 7515, 5.2; RFC 7518, 3.2).
///
/// Accepts exactly the sealed texts under this key. For any other text it returns the first error that applies, in the order of
/// [`JwsNo`]. Comparing the two MACs reads all their bytes, wherever they differ.
pub fn unseal(alloc: Global, key: &[u8], text: &[u8]) -> Result<Unsealed, JwsNo>
    ensures answers { IfOk result (λ u. verdict key.now text.now ≡ Ok u) }
    ensures opens { IfOk result (λ u. Opens key.now text.now u) }
    ensures accepts { (h p : List ℕ) → Sealed key.now h p text.now → IfErr result (λ e. e ≡ JwsNo.NoMemory) }
    ensures value { (h p : List ℕ) → Sealed key.now h p text.now → IfOk result (λ u. u ≡ opened h p) }
    ensures refuses { IfErr result (λ e. (e ≡ JwsNo.NoMemory) ⊎ (verdict key.now text.now ≡ Err e)) }
{
    judged(alloc, key, text)
}

/// The payload that a text has, whether it is sealed or not: the second of its three parts, decoded. A text that [`unseal`]
/// accepts has the payload that it returns. Nothing is known about who wrote it.
#[tactic(auto, unfolding(crate::specs::Jws::payload_in))]
pub fn payload_of(alloc: Global, text: &[u8]) -> Result<Option<Blob>, NoMemory>
    ensures { IfOk result (λ p. p ≡ payload_in text.now) }
{
    if text.len() > MOST {
        return Ok(None);
    }
    let Some((_, payload, _)) = in_three_parts(text) else {
        return Ok(None);
    };
    match spelled(alloc, payload)? {
        Some(bytes) => Ok(Some(Blob::from_vec(bytes))),
        None => Ok(None),
    }
}

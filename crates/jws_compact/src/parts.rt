// Splitting a text at its dots, and decoding the parts.

ghost use Rattle.std.specs.Prelude.{◌≡◌, ◌++◌, ◌∷◌, Some, IfOk, option_map};
ghost use Rattle.sso_base.specs.Base64Url.{unb64u, unb64u_32};
ghost use Rattle.jws_compact.specs.Jws.{at_first_dot, three_parts};

use base64::DecodeAllocError;
use base64::engine::general_purpose::URL_SAFE_NO_PAD;
use sso_base::NoMemory;
use std::alloc::Global;

// The parts before and after the first dot.
fn split_at_dot(text: &[u8]) -> Option<(&[u8], &[u8])>
    ensures { option_map (λ p. (p.0.now, p.1.now)) result ≡ at_first_dot text.now }
{
    for (i, byte) in text.iter().enumerate() {
        if *byte == b'.' {
            return Some((&text[..i], &text[i + 1..]));
        }
    }
    None
}

// The three parts of a text with two dots.
#[tactic(auto, unfolding(crate::specs::Jws::three_parts))]
pub(crate) fn in_three_parts(text: &[u8]) -> Option<(&[u8], &[u8], &[u8])>
    ensures { option_map (λ p. (p.0.now, p.1.now, p.2.now)) result ≡ three_parts text.now }
{
    let (first, rest) = split_at_dot(text)?;
    let (second, third) = split_at_dot(rest)?;
    if split_at_dot(third).is_some() {
        return None;
    }
    Some((first, second, third))
}

// The first two parts, with the dot between.
pub(crate) fn signed_part<'a>(text: &'a [u8], header: &[u8], payload: &[u8], mac: &[u8]) -> &'a [u8]
    requires { three_parts text.now ≡ Some (header.now, payload.now, mac.now) }
    ensures { result.now ≡ header.now ++ 46 ∷ payload.now }
{
    &text[..header.len() + 1 + payload.len()]
}

// The bytes that a text encodes.
pub(crate) fn spelled(alloc: Global, text: &[u8]) -> Result<Option<Vec<u8>>, NoMemory>
    ensures { IfOk result (λ o. option_map (λ v. v.items) o ≡ unb64u text.now) }
{
    match URL_SAFE_NO_PAD.decode(alloc, text) {
        Ok(bytes) => Ok(Some(bytes)),
        Err(DecodeAllocError::DecodeError(_)) => Ok(None),
        Err(DecodeAllocError::OutOfMemory) => Err(NoMemory),
    }
}

// The 32 bytes that a text encodes.
#[tactic(auto, unfolding(sso_base::specs::Base64Url::unb64u_32))]
pub(crate) fn spelled_mac(alloc: Global, text: &[u8]) -> Result<Option<[u8; 32]>, NoMemory>
    ensures { IfOk result (λ o. o ≡ unb64u_32 text.now) }
{
    let Some(bytes) = spelled(alloc, text)? else {
        return Ok(None);
    };
    if bytes.len() != 32 {
        return Ok(None);
    }
    let mut mac = [0; 32];
    mac.copy_from_slice(&bytes);
    Ok(Some(mac))
}

// The audience that a text names, whoever wrote it.

ghost use Rattle.std.specs.Prelude.{◌≡◌, codes, IfOk};
ghost use Rattle.claim_set.specs.Kinds.{texts_claim};
ghost use Rattle.claim_set.specs.Reading.{claims_read};
ghost use Rattle.id_token.specs.Reading.{texts_found, aud_in, audience_in};

use claim_set::{ClaimNo, ClaimSet, read_claims};
use jws_compact::payload_of;
use sso_base::{Blob, NoMemory, Texts};
use std::alloc::Global;

// The texts of `aud`, if there are any.
fn named_texts(claims: &ClaimSet) -> Result<Option<Texts>, NoMemory>
    ensures { IfOk result (λ o. o ≡ texts_found (texts_claim (codes "aud") claims.now)) }
{
    match claims.texts("aud") {
        Ok(texts) => Ok(texts),
        Err(ClaimNo::NoMemory) => Err(NoMemory),
        Err(_) => Ok(None),
    }
}

// The audience in a payload.
fn named_in(alloc: Global, payload: &Blob) -> Result<Option<Texts>, NoMemory>
    ensures { IfOk result (λ o. o ≡ aud_in (claims_read payload.now)) }
{
    match read_claims(alloc, payload.as_bytes()) {
        Ok(claims) => named_texts(&claims),
        Err(ClaimNo::NoMemory) => Err(NoMemory),
        Err(_) => Ok(None),
    }
}

/// The audience that a text names (OpenID Connect Core 1.0, 2), whether it is sealed or not, and whoever sealed it. `None` if the
/// text is no such text, or names none. If [`crate::read_id`] accepts the text, under any key, this is its audience. So a text
/// is an ID Token for none but those that it names, and they are known before a key is tried.
#[tactic(auto, unfolding(crate::specs::Reading::audience_in))]
pub fn named_audience(alloc: Global, text: &[u8]) -> Result<Option<Texts>, NoMemory>
    ensures { IfOk result (λ o. o ≡ audience_in text.now) }
{
    match payload_of(alloc, text)? {
        Some(payload) => named_in(alloc, &payload),
        None => Ok(None),
    }
}

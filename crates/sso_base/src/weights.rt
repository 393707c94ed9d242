//! What texts weigh, in bytes. Sums stop at the greatest number of 64 bits.

ghost use Rattle.std.specs.Prelude.{◌≡◌, ◌+◌, length};
ghost use Rattle.sso_base.specs.Weights as spec;

use crate::text::Text;
use crate::texts::Texts;

/// The weight of a request without texts. Every request weighs at least as much.
pub const EMPTY_WEIGHT: u64 = 1024;

/// The most bytes of one request's texts that rows of a server hold whose history lasts.
pub const MOST_HELD: u64 = 1536;

/// The bytes of a text that may be there.
pub fn text_bytes(text: &Option<Text>) -> u64
    ensures { result ≡ spec.told_weight (spec.text_bytes text.now) }
{
    match text {
        Some(text) => text.as_str().len() as u64,
        None => 0,
    }
}

/// The bytes of texts.
pub fn texts_bytes(texts: &Texts) -> u64
    ensures { result ≡ spec.told_weight (spec.texts_bytes texts.now) }
{
    texts.byte_count() as u64
}

/// The bytes of texts that may be there.
pub fn texts_bytes_if(texts: &Option<Texts>) -> u64
    ensures { result ≡ spec.told_weight (spec.texts_bytes_if texts.now) }
{
    match texts {
        Some(texts) => texts_bytes(texts),
        None => 0,
    }
}

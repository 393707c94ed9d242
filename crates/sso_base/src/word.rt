ghost use Rattle.std.specs.Prelude.{◌≡◌, length, IfOk};
ghost use Rattle.std.specs.Str.{bytes_eq};
ghost use Rattle.sso_base.specs.Words.{IsWord, is_word, word_text, word_of_text};

use crate::memory::NoMemory;
use crate::text::Text;
use base64::engine::general_purpose::URL_SAFE_NO_PAD;
use std::alloc::Global;
use std::marker::Model;

// The length of a word's text, in characters.
const TEXT_LEN: usize = 43;

// The size of the buffer, in bytes, that decoding this many characters needs.
const DECODED_LEN: usize = 33;

/// A random word of 32 bytes. The model is the list of its bytes.
#[derive(Clone, Copy, PartialEq, Eq)]
pub struct Word {
    bytes: [u8; 32],
}

impl Model for Word {
    ghost use Rattle.std.specs.Prelude.{List, ℕ};

    ghost Value = { List ℕ };

    ghost view = { λ w. w.bytes };

    ghost inverse = { λ b. record { bytes = b } };
}

impl Word {
    /// The word of these bytes.
    pub fn new(bytes: [u8; 32]) -> Word
        ensures { result ≡ bytes }
    {
        Word { bytes }
    }

    /// Its bytes.
    pub fn bytes(&self) -> [u8; 32]
        ensures { result ≡ self.now }
    {
        self.bytes
    }

    /// Its bytes, by reference.
    pub fn as_bytes(&self) -> &[u8]
        ensures { result.now ≡ self.now }
    {
        &self.bytes
    }

    /// Whether its bytes are equal to these.
    pub fn is(&self, bytes: &[u8]) -> bool
        ensures { result ≡ bytes_eq self.now bytes.now }
    {
        self.bytes.as_slice() == bytes
    }

    /// Whether a word was presented and is equal to this one.
    pub fn is_presented(&self, presented: Option<Word>) -> bool
        ensures { result ≡ is_word presented self.now }
    {
        match presented {
            Some(presented) => presented == *self,
            None => false,
        }
    }

    /// Its text: 43 characters of base64url without padding (RFC 4648, 5).
    #[tactic(auto, unfolding(crate::specs::Base64Url::b64u))]
    pub fn text(&self) -> [u8; 43]
        ensures { result ≡ word_text self.now }
    {
        let mut text = [0; 43];
        let _ = URL_SAFE_NO_PAD.encode_slice(&self.bytes, &mut text);
        text
    }

    /// Its text, as an owned `Text`.
    pub fn to_text(&self, alloc: Global) -> Result<Text, NoMemory>
        ensures { IfOk result (λ t. t ≡ word_text self.now) }
    {
        let bytes = self.text();
        let text = std::str::from_utf8(&bytes).unwrap();
        Text::new(alloc, text)
    }

    /// The word that has this text. `None` if and only if the text is not strict base64url without padding (RFC 4648, 5) or
    /// does not decode to 32 bytes. So a word has one text.
    pub fn read(text: &[u8]) -> Option<Word>
        ensures { result ≡ word_of_text text.now }
    {
        if text.len() != TEXT_LEN {
            return None;
        }
        let mut decoded = [0; DECODED_LEN];
        let Ok(count) = URL_SAFE_NO_PAD.decode_slice_unchecked(text, &mut decoded) else {
            return None;
        };
        prove!(count == 32);
        let mut bytes = [0; 32];
        bytes.copy_from_slice(&decoded[..32]);
        Some(word_of(bytes))
    }
}

// The word of these bytes. Its postcondition that each is below 256 is for the proof of `read`.
fn word_of(bytes: [u8; 32]) -> Word
    ensures value { result ≡ bytes }
    ensures word { IsWord bytes }
{
    Word::new(bytes)
}

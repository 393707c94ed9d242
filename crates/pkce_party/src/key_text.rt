// Code verifiers and code challenges.

ghost use Rattle.std.specs.Prelude.{◌≡◌};
ghost use Rattle.sso_base.specs.Words.{word_text};
ghost use Rattle.pkce_answer.specs.Challenges.{challenge_of as challenge_text};

use pkce_check::challenge_of;
use sso_base::Word;
use std::marker::Model;

/// A code verifier or a code challenge (RFC 7636, 4.1 and 4.2): a text of 43 characters of base64url without padding.
#[derive(Clone, Copy)]
pub struct KeyText {
    bytes: [u8; 43],
}

impl Model for KeyText {
    ghost use Rattle.std.specs.Prelude.{List, ℕ};
    ghost use Rattle.std.specs.Str.{IsUtf8};

    ghost Value = { List ℕ };

    ghost view = { λ k. k.bytes };

    ghost invariant = { λ k. IsUtf8 k.bytes };

    ghost inverse = { λ b. record { bytes = b } };
}

impl KeyText {
    /// The verifier that is the text of this word.
    pub fn of_word(word: &Word) -> KeyText
        ensures { result ≡ word_text word.now }
    {
        let bytes = word.text();
        KeyText { bytes }
    }

    /// The challenge of this verifier by the method S256 (RFC 7636, 4.2).
    pub fn challenge(&self) -> KeyText
        ensures { result ≡ challenge_text self.now }
    {
        let bytes = challenge_of(&self.bytes);
        KeyText { bytes }
    }

    /// The text.
    pub fn as_str(&self) -> &str
        ensures { result.now ≡ self.now }
    {
        std::str::from_utf8(&self.bytes).unwrap()
    }
}

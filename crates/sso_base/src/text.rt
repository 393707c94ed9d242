ghost use Rattle.std.specs.Prelude.{◌≡◌, List, IfOk, string_bytes};
ghost use Rattle.std.specs.Str.{IsUtf8, bytes_eq};

use crate::memory::NoMemory;
use std::alloc::Global;
use std::marker::Model;

/// A text, seen as its bytes in UTF-8.
#[derive(Drop)]
pub struct Text {
    text: String,
}

impl Model for Text {
    ghost use Rattle.std.specs.Prelude.{List, ℕ, string_bytes};

    ghost Value = { List ℕ };

    ghost view = { λ t. string_bytes t.text };
}

impl Text {
    /// The text with these bytes.
    pub fn new(alloc: Global, text: &str) -> Result<Text, NoMemory>
        ensures { IfOk result (λ t. t ≡ text.now) }
    {
        Ok(Text {
            text: String::from_str(alloc, text)?,
        })
    }

    /// The text of this string, taken over. It gives back what was reserved for more.
    pub fn from_string(mut text: String) -> Text
        ensures { result ≡ string_bytes text }
    {
        text.shrink_to_fit();
        Text { text }
    }

    /// The text itself.
    pub fn as_str(&self) -> &str
        ensures value { result.now ≡ self.now }
        ensures utf8 { IsUtf8 self.now }
    {
        self.text.as_str()
    }

    /// Whether it is this text. It takes no memory.
    pub fn equals(&self, text: &str) -> bool
        ensures { result ≡ bytes_eq self.now text.now }
    {
        self.as_str() == text
    }

    /// An equal text.
    pub fn copy(&self, alloc: Global) -> Result<Text, NoMemory>
        ensures { IfOk result (λ t. t ≡ self.now) }
    {
        Text::new(alloc, self.as_str())
    }
}

/// Bytes, seen as the list of them.
#[derive(Drop)]
pub struct Blob {
    bytes: Vec<u8>,
}

impl Model for Blob {
    ghost use Rattle.std.specs.Prelude.{List, ℕ};

    ghost Value = { List ℕ };

    ghost view = { λ b. b.bytes.items };
}

impl Blob {
    /// A copy of these bytes.
    pub fn new(alloc: Global, bytes: &[u8]) -> Result<Blob, NoMemory>
        ensures { IfOk result (λ b. b ≡ bytes.now) }
    {
        Ok(Blob {
            bytes: Vec::from_slice(alloc, bytes)?,
        })
    }

    /// These bytes, taken over. They give back what was reserved for more.
    pub fn from_vec(mut bytes: Vec<u8>) -> Blob
        ensures { result ≡ bytes.items }
    {
        bytes.shrink_to_fit();
        Blob { bytes }
    }

    /// The bytes themselves.
    pub fn as_bytes(&self) -> &[u8]
        ensures { result.now ≡ self.now }
    {
        self.bytes.as_slice()
    }

    /// An equal list of bytes.
    pub fn copy(&self, alloc: Global) -> Result<Blob, NoMemory>
        ensures { IfOk result (λ b. b ≡ self.now) }
    {
        Blob::new(alloc, self.as_bytes())
    }
}

// The head of a request, byte by byte.

ghost use Rattle.std.specs.Prelude.{◌≡◌, ℕ, List, [], IfOk, OnErr};
ghost use Rattle.sso_http.specs.Reading.{after_byte, kind_of, Tracks, TakesByte};

use sso_base::NoMemory;
use std::alloc::Global;

/// The current line, as far as it matters.
#[derive(Clone, Copy, PartialEq, Eq)]
pub(crate) enum Begun {
    /// It has no byte.
    Nothing,
    /// It is one carriage return.
    Return,
    /// Anything else.
    More,
}

/// The bytes of a head so far.
#[derive(Drop)]
pub(crate) struct Reader {
    pub(crate) bytes: Vec<u8>,
    begun: Begun,
    // Whether some complete line is not empty.
    line: bool,
}

impl Reader {
    /// A reader without bytes.
    pub(crate) fn new(alloc: Global) -> Reader
        ensures tracks { Tracks result }
        ensures none { result.bytes.items ≡ [] }
    {
        Reader {
            bytes: Vec::new(alloc),
            begun: Begun::Nothing,
            line: false,
        }
    }

    /// Takes one more byte, and returns whether the head ends with it.
    pub(crate) fn take(&mut self, byte: u8) -> Result<bool, NoMemory>
        requires tracks { Tracks self.old }
        ensures more { IfOk result (λ ends. TakesByte self.old self.new byte ends) }
        ensures same { OnErr result (self.new.bytes.items ≡ self.old.bytes.items) }
    {
        self.bytes.push(byte)?;
        let is_empty = self.begun != Begun::More;
        let ends = byte == b'\n' && is_empty && self.line;
        if byte == b'\n' && !is_empty {
            self.line = true;
        }
        self.begun = next(self.begun, byte);
        Ok(ends)
    }
}

// The current line after one more byte.
fn next(begun: Begun, byte: u8) -> Begun
    ensures { (line : List ℕ) → begun ≡ kind_of line → result ≡ kind_of (after_byte byte line) }
{
    if byte == b'\n' {
        return Begun::Nothing;
    }
    match begun {
        Begun::Nothing if byte == b'\r' => Begun::Return,
        _ => Begun::More,
    }
}

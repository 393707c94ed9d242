// Texts in order, in one buffer: a text takes its bytes and one more.

ghost use Rattle.std.specs.Prelude.{◌≡◌, ◌<◌, ◌^◌, [], ◌∷◌, ◌++◌, length, IfOk, IfSome, IfNone, OnOk, OnErr, slice_get, Some};
ghost use Rattle.std.specs.Str.{IsUtf8};
ghost use Rattle.std.specs.List.{position_from};
ghost use Rattle.sso_base.specs.Texts.{has_text, is_only as is_only_of};
ghost use Rattle.sso_base.specs.TextBuffer.{is_end, texts_in, IsBuffer};
ghost use Rattle.sso_base.specs.Values.{AreTexts};
ghost use Rattle.sso_base.specs.Weights as weights;

use crate::memory::NoMemory;
use crate::text::Text;
use std::alloc::Global;
use std::marker::Model;

// The byte after each text: no text in UTF-8 has it.
const END: u8 = 255;

/// Texts in order, seen as the list of them.
#[derive(Drop)]
pub struct Texts {
    bytes: Vec<u8>,
    count: usize,
}

impl Model for Texts {
    ghost use Rattle.std.specs.Prelude.{◌≡◌, List, ℕ, length};
    ghost use Rattle.sso_base.specs.TextBuffer.{texts_in, IsBuffer};

    ghost Value = { List (List ℕ) };

    ghost view = { λ t. texts_in t.bytes.items };

    ghost invariant = { λ t. IsBuffer t.bytes.items × (t.count ≡ length (texts_in t.bytes.items)) };
}

/// Texts that are read one after another, seen as the list of those that are left.
#[derive(Drop)]
pub struct TextsLeft<'a> {
    rest: &'a [u8],
}

impl<'a> Model for TextsLeft<'a> {
    ghost use Rattle.std.specs.Prelude.{List, ℕ};
    ghost use Rattle.sso_base.specs.TextBuffer.{texts_in, IsBuffer};

    ghost Value = { List (List ℕ) };

    ghost view = { λ t. texts_in t.rest.now };

    ghost invariant = { λ t. IsBuffer t.rest.now };
}

// Where the first text in a buffer ends. `None` if there is none.
fn first_end(bytes: &[u8]) -> Option<usize>
    ensures { result ≡ position_from is_end 0 bytes.now }
{
    bytes.iter().position(|&byte| byte == END)
}

// The first text in a buffer, and the rest of the buffer.
fn first_text(bytes: &[u8]) -> Option<(&str, &[u8])>
    requires { IsBuffer bytes.now }
    ensures none { IfNone result (texts_in bytes.now ≡ []) }
    ensures some { IfSome result (λ r. texts_in bytes.now ≡ r.0.now ∷ texts_in r.1.now) }
    ensures utf8 { IfSome result (λ r. IsUtf8 r.0.now) }
    ensures rest { IfSome result (λ r. IsBuffer r.1.now) }
{
    let Some(end) = first_end(bytes) else {
        return None;
    };
    let (text, _) = bytes.split_at(end);
    let (_, rest) = bytes.split_at(end + 1);
    Some((std::str::from_utf8(text).unwrap(), rest))
}

// Adds a text and its end to a buffer.
fn push_text(bytes: &mut Vec<u8>, text: &str) -> Result<(), NoMemory>
    ensures ok { OnOk result (bytes.new.items ≡ bytes.old.items ++ (text.now ++ 255 ∷ [])) }
    ensures err { OnErr result (bytes.new.items ≡ bytes.old.items) }
    ensures short { length bytes.new.items < 2 ^ 63 }
{
    let text = text.as_bytes();
    bytes.reserve(text.len() + 1)?;
    bytes.extend_from_slice(text)?;
    bytes.push_reserved(END);
    Ok(())
}

impl<'a> Iterator for TextsLeft<'a> {
    ghost use Rattle.std.specs.Iterator.{YieldsFirstRef, item_count};

    type Item = &'a str;

    ghost next_gives = { YieldsFirstRef (λ left. left) };

    ghost remaining = { item_count (λ left. left) };

    fn next(&mut self) -> Option<&'a str> {
        let (text, rest) = first_text(self.rest)?;
        self.rest = rest;
        Some(text)
    }
}

impl Texts {
    /// No text.
    pub fn new(alloc: Global) -> Texts
        ensures { result ≡ [] }
    {
        Texts {
            bytes: Vec::new(alloc),
            count: 0,
        }
    }

    /// Adds a text at the end.
    pub fn push(&mut self, text: Text) -> Result<(), NoMemory>
        ensures ok { OnOk result (self.new ≡ self.old ++ text ∷ []) }
        ensures err { OnErr result (self.new ≡ self.old) }
    {
        push_text(&mut self.bytes, text.as_str())?;
        self.count += 1;
        Ok(())
    }

    /// How many texts there are.
    pub fn count(&self) -> usize
        ensures { result ≡ length self.now }
    {
        self.count
    }

    /// The texts, to be read one after another.
    pub fn iter(&self) -> TextsLeft<'_>
        ensures { result ≡ self.now }
    {
        TextsLeft {
            rest: self.bytes.as_slice(),
        }
    }

    /// The text at this place, from 0. It goes over those before it.
    #[tactic(auto, using(crate::proofs::TextBuffers::one_over, crate::proofs::TextBuffers::read_there))]
    pub fn at(&self, place: usize) -> &str
        requires { place < length self.now }
        ensures { slice_get self.now place ≡ Some result.now }
    {
        let mut left = self.iter();
        for _step in 0..place {
            let _before = left.next();
        }
        left.next().unwrap()
    }

    /// Whether the text is one of these. It takes no memory.
    pub fn has(&self, text: &str) -> bool
        ensures { result ≡ has_text text.now self.now }
    {
        for other in self.iter() {
            if text == other {
                return true;
            }
        }
        false
    }

    /// Whether there is a text, and each is this one. It takes no memory.
    pub fn is_only(&self, text: &str) -> bool
        ensures { result ≡ is_only_of text.now self.now }
    {
        for other in self.iter() {
            if other != text {
                return false;
            }
        }
        self.count != 0
    }

    /// An equal list of texts, which takes no more memory than its bytes.
    pub fn copy(&self, alloc: Global) -> Result<Texts, NoMemory>
        ensures { IfOk result (λ t. t ≡ self.now) }
    {
        Ok(Texts {
            bytes: Vec::from_slice(alloc, self.bytes.as_slice())?,
            count: self.count,
        })
    }

    /// Gives back the memory that was reserved for more texts.
    pub fn shrink_to_fit(&mut self)
        ensures { self.new ≡ self.old }
    {
        self.bytes.shrink_to_fit();
    }

    /// Texts are UTF-8.
    pub(crate) fn know(&self)
        ensures { AreTexts self.now }
    {
        let _bytes = &self.bytes;
    }

    /// How many bytes the texts have together.
    pub(crate) fn byte_count(&self) -> usize
        ensures { result ≡ weights.texts_bytes self.now }
    {
        self.bytes.as_slice().len() - self.count
    }
}

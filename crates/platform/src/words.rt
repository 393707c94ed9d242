//! The words that the program was started with.

ghost use Rattle.std.specs.Prelude.{◌≡◌, [], IfOk};
ghost use Rattle.std.specs.Str.{IsUtf8};

use sso_base::{NoMemory, Text};
use std::alloc::Global;
use std::env::{Env, FillError};

/// The bytes of the word with this number; number 0 is the program's name. `None` if there is no such word.
fn read_word<E: Env>(alloc: Global, env: &E, place: usize) -> Result<Option<Vec<u8>>, NoMemory> {
    let mut room = 256usize;
    for _ in 0..usize::BITS {
        let mut bytes = vec![in alloc; 0u8; room]?;
        match env.arg(place, bytes.as_mut_slice()) {
            Ok(count) => {
                bytes.truncate(count);
                return Ok(Some(bytes));
            }
            Err(FillError::NotPresent) => return Ok(None),
            Err(FillError::TooLong) => room = room.saturating_mul(2),
        }
    }
    Err(NoMemory)
}

/// The text of a word. One that is not UTF-8 becomes the empty text, which is no word of any command.
fn text_of_word(alloc: Global, word: &[u8]) -> Result<Text, NoMemory>
    ensures text { IsUtf8 word.now → IfOk result (λ text. text ≡ word.now) }
    ensures other { (IsUtf8 word.now → ⊥) → IfOk result (λ text. text ≡ []) }
{
    match str::from_utf8(word) {
        Ok(text) => Text::new(alloc, text),
        Err(_) => Text::new(alloc, ""),
    }
}

/// The words after the program's name.
pub fn read_words<E: Env>(alloc: Global, env: &E) -> Result<Vec<Text>, NoMemory> {
    let mut words = Vec::new(alloc);
    for place in 1..usize::MAX {
        let Some(word) = read_word(alloc, env, place)? else {
            break;
        };
        words.push(text_of_word(alloc, word.as_slice())?)?;
    }
    Ok(words)
}

// For each word, the numbers whose replies set it.

ghost use Rattle.std.specs.Prelude.{◌≡◌, ℕ, ◌||◌, false, option_copied, OnOk, OnErr};
ghost use Rattle.sso_base.specs.Words.{Word as WordOf};
ghost use Rattle.world_index.specs.Setting.{setter_noted, set_for_other, IsSetterNoted};

use sso_base::{NoMemory, Word};
use std::alloc::Global;
use std::collections::HashMap;
use std::marker::Model;

// For one word: the first number whose reply set it, and whether the reply of another number did.
#[derive(Clone, Copy)]
struct Setter {
    first: u32,
    several: bool,
}

/// The words that replies set as cookies, each with the numbers whose replies did. Only the first number is kept, and whether
/// there are several.
#[derive(Drop)]
pub struct Setters {
    words: HashMap<[u8; 32], Setter>,
}

impl Model for Setters {
    ghost use Rattle.std.specs.Prelude.{List, ℕ};
    ghost use Rattle.world_index.specs.declared.setters.Setter.{Setter};

    ghost Value = { List (List ℕ × Setter) };

    ghost view = { λ s. s.words.entries };
}

// The note of a word after a reply of this number set it.
fn setter_after(from: u32, noted: Option<&Setter>) -> Setter
    ensures { result ≡ setter_noted from (option_copied noted.entry) }
{
    match noted {
        None => Setter {
            first: from,
            several: false,
        },
        Some(setter) => Setter {
            first: setter.first,
            several: setter.several || setter.first != from,
        },
    }
}

impl Setters {
    /// No word is set.
    pub fn new(alloc: Global) -> Setters
        ensures { (w : WordOf) (from : ℕ) → set_for_other result w from ≡ false }
    {
        Setters {
            words: HashMap::new(alloc),
        }
    }

    /// Whether a reply of another number set the word.
    pub fn is_set_for_other(&self, word: &Word, from: u32) -> bool
        ensures { result ≡ set_for_other self.now word.now from }
    {
        match self.words.get(&word.bytes()) {
            None => false,
            Some(setter) => setter.several || setter.first != from,
        }
    }

    /// Notes that a reply of this number set the word. On an error nothing changes.
    pub fn note(&mut self, word: &Word, from: u32) -> Result<(), NoMemory>
        ensures ok { OnOk result (IsSetterNoted self.old self.new word.now from) }
        ensures err { OnErr result (self.new ≡ self.old) }
    {
        let setter = setter_after(from, self.words.get(&word.bytes()));
        self.words.insert(word.bytes(), setter)?;
        Ok(())
    }
}

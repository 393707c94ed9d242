// For each half hash, the first word that was issued with it, and its place.

ghost use Rattle.std.specs.Prelude.{◌≡◌, None, OnOk, OnErr};
ghost use Rattle.std.specs.Option.{option_or};
ghost use Rattle.sso_base.specs.Words.{Text as TextOf};
ghost use Rattle.sso_places.specs.Premises.{half_digest};
ghost use Rattle.world_index.specs.Issuing.{issued_of, issued_as, other_place};

use id_token::half_hash;
use sso_base::{NoMemory, Word};
use std::alloc::Global;
use std::collections::HashMap;
use std::marker::Model;

// An issued word, and the place that issued it.
#[derive(Clone, Copy)]
struct Issued {
    word: Word,
    place: u64,
}

/// The half hashes of the issued codes and access tokens. Each has the first word with it, and the place that first issued that
/// word (OpenID Connect Core 1.0, 3.1.3.6 and 3.3.2.11).
#[derive(Drop)]
pub struct Halves {
    words: HashMap<[u8; 22], Issued>,
}

impl Model for Halves {
    ghost use Rattle.std.specs.Prelude.{List, ℕ};
    ghost use Rattle.world_index.specs.declared.halves.Issued.{Issued};

    ghost Value = { List (List ℕ × Issued) };

    ghost view = { λ h. h.words.entries };
}

impl Halves {
    /// No word is issued.
    pub fn new(alloc: Global) -> Halves
        ensures { (half : TextOf) → issued_of result half ≡ None }
    {
        Halves {
            words: HashMap::new(alloc),
        }
    }

    /// The place of the first word with the same half hash, if that is a different word.
    pub fn clash(&self, word: &Word) -> Option<u64>
        ensures { result ≡ other_place word.now (issued_of self.now (half_digest word.now)) }
    {
        match self.words.get(&half_hash(&word.text())) {
            None => None,
            Some(issued) => {
                if issued.word == *word {
                    None
                } else {
                    Some(issued.place)
                }
            }
        }
    }

    /// Notes that a place issued the word. On an error nothing changes.
    pub fn note(&mut self, word: &Word, place: u64) -> Result<(), NoMemory>
        ensures ok { OnOk result ((half : TextOf) → issued_of self.new half ≡ option_or (issued_of self.old half) (issued_as half word.now place)) }
        ensures err { OnErr result (self.new ≡ self.old) }
    {
        let half = half_hash(&word.text());
        if self.words.get(&half).is_none() {
            self.words.insert(half, Issued { word: *word, place })?;
        }
        Ok(())
    }
}

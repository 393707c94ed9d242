// A set of texts.

ghost use Rattle.std.specs.Prelude.{◌≡◌, ◌||◌, [], OnOk, OnErr};
ghost use Rattle.std.specs.Str.{bytes_eq};
ghost use Rattle.sso_base.specs.Texts.{has_text};
ghost use Rattle.sso_base.specs.Words.{Text as TextOf};

use sso_base::{NoMemory, Text};
use std::alloc::Global;
use std::collections::HashSet;
use std::marker::Model;

/// A set of texts. Its model is the list of them.
#[derive(Drop)]
pub(crate) struct TextSet {
    texts: HashSet<String>,
}

impl Model for TextSet {
    ghost use Rattle.std.specs.Prelude.{List, ℕ, map, string_bytes};

    ghost Value = { List (List ℕ) };

    ghost view = { λ s. map string_bytes s.texts.keys };
}

impl TextSet {
    /// The empty set.
    pub(crate) fn new(alloc: Global) -> TextSet
        ensures { result ≡ [] }
    {
        TextSet {
            texts: HashSet::new(alloc),
        }
    }

    /// Whether the text is in the set.
    pub(crate) fn has(&self, text: &Text) -> bool
        ensures { result ≡ has_text text.now self.now }
    {
        self.texts.contains(text.as_str())
    }

    /// Adds a text. On an error nothing changes.
    pub(crate) fn add(&mut self, alloc: Global, text: &Text) -> Result<(), NoMemory>
        ensures ok { OnOk result ((t : TextOf) → has_text t self.new ≡ (bytes_eq text.now t || has_text t self.old)) }
        ensures err { OnErr result (self.new ≡ self.old) }
    {
        let text = String::from_str(alloc, text.as_str())?;
        self.texts.insert(text)?;
        Ok(())
    }
}

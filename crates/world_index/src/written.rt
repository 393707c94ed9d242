// For each client, the tokens that were written for it.

ghost use Rattle.std.specs.Prelude.{◌≡◌, ℕ, ◌<◌, false, length, IfOk, OnOk, OnErr};
ghost use Rattle.sso_base.specs.Words.{Text as TextOf};
ghost use Rattle.world_index.specs.Writing.{is_written_for, IsTextNoted};

use crate::text_set::TextSet;
use sso_base::{NoMemory, Text};
use std::alloc::Global;
use std::marker::Model;

/// The tokens that were written for each client, by the client's number. Its model is a list of texts for each client.
#[derive(Drop)]
pub struct Written {
    sets: Vec<TextSet>,
}

impl Model for Written {
    ghost use Rattle.std.specs.Prelude.{List, ℕ};

    ghost Value = { List (List (List ℕ)) };

    ghost view = { λ w. w.sets.items };
}

impl Written {
    /// For `clients` clients, without tokens.
    pub fn new(alloc: Global, clients: u32) -> Result<Written, NoMemory>
        ensures count { IfOk result (λ w. length w ≡ clients) }
        ensures none { IfOk result (λ w. (t : TextOf) (client : ℕ) → is_written_for w t client ≡ false) }
    {
        let mut sets = Vec::new(alloc);
        for _ in 0..clients {
            sets.push(TextSet::new(alloc))?;
        }
        Ok(Written { sets })
    }

    /// Whether the token was written for the client.
    pub fn is_written_for(&self, text: &Text, client: u32) -> bool
        ensures { result ≡ is_written_for self.now text.now client }
    {
        match self.sets.get(client as usize) {
            Some(set) => set.has(text),
            None => false,
        }
    }

    /// Notes that the token was written for the client. On an error nothing changes.
    pub fn note(&mut self, alloc: Global, text: &Text, client: u32) -> Result<(), NoMemory>
        requires { client < length self.old }
        ensures count { length self.new ≡ length self.old }
        ensures ok { OnOk result (IsTextNoted self.old self.new text.now client) }
        ensures err { OnErr result (self.new ≡ self.old) }
    {
        self.sets[client as usize].add(alloc, text)
    }
}

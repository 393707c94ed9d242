ghost use Rattle.std.specs.Prelude.{◌≡◌, [], ◌∷◌, ◌++◌};

use crate::chain::Chain;
use std::marker::Model;
use std::snapshot::Snapshot;

/// A list that only contracts see, oldest element first. It takes the same few bytes, however long it is.
#[derive(Drop)]
pub struct Told<E> {
    chain: Chain<E>,
}

impl<E> Model for Told<E> {
    ghost use Rattle.std.specs.Prelude.{List};
    ghost use Rattle.sso_base.specs.Told.{told_by};

    ghost Value = { List E };

    ghost view = { λ t. told_by t.chain };
}

impl<E> Told<E> {
    /// The empty list.
    pub fn new() -> Told<E>
        ensures { result ≡ [] }
    {
        Told {
            chain: Chain::Nothing,
        }
    }

    /// Adds an element at the end.
    pub fn push(&mut self, last: &E)
        ensures { self.new ≡ self.old ++ last.now ∷ [] }
    {
        let next = Chain::Then(Snapshot::of(&self.chain), Snapshot::of(last));
        self.chain = next;
    }
}

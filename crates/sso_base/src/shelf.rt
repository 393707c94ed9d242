ghost use Rattle.std.specs.Prelude.{◌≡◌, ℕ, ◌≤◌, List, length, Option, Err, IfOk, OnErr};
ghost use Rattle.sso_base.specs.Faults.{Rose};
ghost use Rattle.sso_base.specs.Outside.{Content, Fetches};

use crate::memory::NoMemory;
use crate::text::{Blob, Text};
use std::alloc::Global;

/// Why nothing was fetched.
#[derive(Clone, Copy, Debug, PartialEq, Eq)]
pub enum ShelfNo {
    /// Memory ran out.
    NoMemory,
    /// The shelf failed, or it has no content of that name.
    Failed,
}

impl From<NoMemory> for ShelfNo {
    ghost use Rattle.std.specs.Prelude.{◌≡◌};
    ghost use Rattle.sso_base.specs.declared.shelf.ShelfNo.TheVariants as no;

    ghost from_gives = { λ _ e. e ≡ no.NoMemory };

    fn from(_error: NoMemory) -> ShelfNo {
        ShelfNo::NoMemory
    }
}

/// A source of contents, which are fetched by name.
pub trait Shelf {
    /// Its contents with their names, if they are known. A real file system gives `None`.
    ghost contents: { Self → Option (List Content) };

    /// How often it has failed.
    ghost faults: { Self → ℕ };

    /// Returns the first `most` bytes of the named content, or all of them if there are fewer. An unknown name is a failure.
    fn fetch(&mut self, alloc: Global, name: &Text, most: usize) -> Result<Blob, ShelfNo>
        ensures found { IfOk result (λ bytes. Fetches (contents self.old) name.now most bytes) }
        ensures bound { IfOk result (λ bytes. length bytes ≤ most) }
        ensures kept { contents self.new ≡ contents self.old }
        ensures later { faults self.old ≤ faults self.new }
        ensures failed { result ≡ Err ShelfNo.Failed → Rose (faults self.old) (faults self.new) };
}

ghost use Rattle.std.specs.Prelude.{◌≡◌, ◌≢◌, ℕ, ◌+◌, ◌-◌, ◌^◌, ◌≤◌, ◌==◌, min, true, List, length, take, Option, Some, None, Err, IfOk, map, option_copied};
ghost use Rattle.std.specs.List.{list_any};
ghost use Rattle.sso_base.specs.Faults.{Rose};
ghost use Rattle.sso_base.specs.Outside.{ShelfMemory, Content, content_of, Fetches};

use crate::shelf::{Shelf, ShelfNo};
use crate::text::{Blob, Text};
use std::alloc::Global;
use std::marker::Model;

/// A name with its content.
#[derive(Drop)]
pub struct File {
    /// The name it is fetched by.
    pub name: Text,
    /// Its bytes.
    pub content: Blob,
}

/// A shelf in memory. It fails if and only if the name is unknown.
#[derive(Drop)]
pub struct MemoryShelf {
    files: Vec<File>,
    faults: u64,
}

impl Model for MemoryShelf {
    ghost use Rattle.std.specs.Prelude.{map};
    ghost use Rattle.sso_base.specs.Outside.{ShelfMemory};

    ghost Value = { ShelfMemory };

    ghost view = { λ s. record { contents = map (λ f. (f.name, f.content)) s.files.items; faults = s.faults } };
}

impl MemoryShelf {
    /// A shelf with these contents and no failures so far.
    pub fn new(files: Vec<File>) -> MemoryShelf
        ensures { result ≡ record { contents = map (λ f. (f.name, f.content)) files.items; faults = 0 } }
    {
        MemoryShelf { files, faults: 0 }
    }
}

fn find_content<'a>(files: &'a [File], name: &Text) -> Option<&'a Blob>
    ensures { option_copied result ≡ content_of (map (λ f. (f.name, f.content)) files.now) name.now }
{
    for file in files {
        if file.name.as_str() == name.as_str() {
            return Some(&file.content);
        }
    }
    None
}

/// The first `most` bytes, or all if there are fewer.
fn front(bytes: &[u8], most: usize) -> &[u8]
    ensures value { result.now ≡ take most bytes.now }
    ensures bound { length result.now ≤ most }
{
    if bytes.len() <= most {
        bytes
    } else {
        &bytes[..most]
    }
}

impl Shelf for MemoryShelf {
    ghost contents = { λ s. Some s.contents };

    ghost faults = { λ s. s.faults };

    fn fetch(&mut self, alloc: Global, name: &Text, most: usize) -> Result<Blob, ShelfNo>
        ensures found { IfOk result (λ bytes. Fetches (Some self.old.contents) name.now most bytes) }
        ensures bound { IfOk result (λ bytes. length bytes ≤ most) }
        ensures kept { self.new.contents ≡ self.old.contents }
        ensures later { self.old.faults ≤ self.new.faults }
        ensures failed { result ≡ Err ShelfNo.Failed → Rose self.old.faults self.new.faults }
        ensures absent { result ≡ Err ShelfNo.Failed → content_of self.old.contents name.now ≡ None }
        ensures quiet { result ≢ Err ShelfNo.Failed → self.new.faults ≡ self.old.faults }
    {
        match find_content(self.files.as_slice(), name) {
            Some(content) => Ok(Blob::new(alloc, front(content.as_bytes(), most))?),
            None => {
                self.faults = self.faults.saturating_add(1);
                Err(ShelfNo::Failed)
            }
        }
    }
}

/// A shelf in memory whose calls with these numbers fail. Calls are counted from 1.
#[derive(Drop)]
pub struct FaultyShelf {
    shelf: MemoryShelf,
    failing: Vec<u64>,
    calls: u64,
}

impl Model for FaultyShelf {
    ghost use Rattle.sso_base.specs.Outside.{FaultyShelfMemory};

    ghost Value = { FaultyShelfMemory };

    ghost view = { λ s. record { shelf = s.shelf; failing = s.failing.items; calls = s.calls } };
}

impl FaultyShelf {
    /// This shelf, but its calls with these numbers will fail.
    pub fn new(shelf: MemoryShelf, failing: Vec<u64>) -> FaultyShelf
        ensures { result ≡ record { shelf = shelf; failing = failing.items; calls = 0 } }
    {
        FaultyShelf {
            shelf,
            failing,
            calls: 0,
        }
    }
}

impl Shelf for FaultyShelf {
    ghost contents = { λ s. Some s.shelf.contents };

    ghost faults = { λ s. s.shelf.faults };

    fn fetch(&mut self, alloc: Global, name: &Text, most: usize) -> Result<Blob, ShelfNo>
        ensures found { IfOk result (λ bytes. Fetches (Some self.old.shelf.contents) name.now most bytes) }
        ensures bound { IfOk result (λ bytes. length bytes ≤ most) }
        ensures kept { Some self.new.shelf.contents ≡ Some self.old.shelf.contents }
        ensures later { self.old.shelf.faults ≤ self.new.shelf.faults }
        ensures failed { result ≡ Err ShelfNo.Failed → Rose self.old.shelf.faults self.new.shelf.faults }
        ensures counted { self.new.calls ≡ min (self.old.calls + 1) (2 ^ 64 - 1) }
        ensures same { self.new.failing ≡ self.old.failing }
        ensures fails { list_any (λ call. call == self.new.calls) self.old.failing ≡ true → result ≡ Err ShelfNo.Failed }
    {
        self.calls = self.calls.saturating_add(1);
        let calls = self.calls;
        if self.failing.contains(&calls) {
            self.shelf.faults = self.shelf.faults.saturating_add(1);
            return Err(ShelfNo::Failed);
        }
        self.shelf.fetch(alloc, name, most)
    }
}

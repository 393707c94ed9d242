//! Files as a shelf.

ghost use Rattle.std.specs.Prelude.{◌≡◌, ◌≤◌, None, IfOk, length};

use sso_base::{Blob, NoMemory, Shelf, ShelfNo, Text};
use std::alloc::Global;
use std::io;
use std::io::{ErrorKind, Read};
use std::rt::Files;

/// How many reads in a row may be interrupted before that is a fault.
const PATIENCE: u64 = 4_294_967_296;

/// The files of this machine, by their paths. It does not report what it holds.
#[derive(Drop)]
pub struct FileShelf<'a, R: Files> {
    files: &'a R,
    faults: u64,
}

impl<'a, R: Files> FileShelf<'a, R> {
    /// A shelf of these files that never failed.
    pub fn new(files: &'a R) -> FileShelf<'a, R>
        ensures { ⟦<FileShelf<'a, R> as Shelf>⟧.faults result ≡ 0 }
    {
        FileShelf { files, faults: 0 }
    }
}

/// Why a file was not read. Out of memory is no fault of the shelf.
fn why(error: &io::Error) -> ShelfNo {
    if error.kind() == ErrorKind::OutOfMemory {
        ShelfNo::NoMemory
    } else {
        ShelfNo::Failed
    }
}

/// Reads once, and again after each interrupted read. Returns how many bytes came, 0 at the end.
fn read_once<F: Read>(file: &mut F, into: &mut [u8]) -> Result<usize, ShelfNo>
    ensures length { length into.new ≡ length into.old }
    ensures bound { IfOk result (λ count. count ≤ length into.old) }
{
    for _ in 0..PATIENCE {
        match file.read(into) {
            Ok(count) if count <= into.len() => return Ok(count),
            Ok(_) => return Err(ShelfNo::Failed),
            Err(error) if error.kind() == ErrorKind::Interrupted => {}
            Err(error) => return Err(why(&error)),
        }
    }
    Err(ShelfNo::Failed)
}

/// The first `most` bytes of a file, or all if there are fewer.
fn read_front<F: Read>(alloc: Global, file: &mut F, most: usize) -> Result<Vec<u8>, ShelfNo>
    ensures { IfOk result (λ front. length front.items ≤ most) }
{
    let mut front = Vec::new(alloc);
    let mut piece = [0u8; 4096];
    while front.len() < most {
        let room = piece.len().min(most - front.len());
        let count = read_once(file, &mut piece[..room])?;
        if count == 0 {
            break;
        }
        if front.extend_from_slice(&piece[..count]).is_err() {
            return Err(ShelfNo::NoMemory);
        }
    }
    Ok(front)
}

/// The first `most` bytes of the file with this name.
pub(crate) fn read_file<R: Files>(
    alloc: Global,
    files: &R,
    name: &Text,
    most: usize,
) -> Result<Blob, ShelfNo>
    ensures { IfOk result (λ bytes. length bytes ≤ most) }
{
    match std::fs::open(files, name.as_str()) {
        Ok(mut file) => Ok(Blob::from_vec(read_front(alloc, &mut file, most)?)),
        Err(error) => Err(why(&error)),
    }
}

impl<'a, R: Files> Shelf for FileShelf<'a, R> {
    ghost contents = { λ _. None };

    ghost faults = { λ s. s.faults };

    fn fetch(&mut self, alloc: Global, name: &Text, most: usize) -> Result<Blob, ShelfNo> {
        let fetched = read_file(alloc, self.files, name, most);
        if let Err(ShelfNo::Failed) = &fetched {
            self.faults = self.faults.saturating_add(1);
        }
        fetched
    }
}

// Sinks and shelves in memory, some of whose calls fail.

use case_lines::{SlowSink, as_text, push_part, told};
use sso_base::{
    Blob, FaultyShelf, FaultySink, File, MemoryShelf, NoMemory, Shelf, ShelfNo, SinkFault, Text,
    write_whole,
};
use std::alloc::{AllocError, Global};

// Writes the piece, and adds the result.
fn write_piece(told: &mut String, sink: &mut SlowSink, piece: &str) -> Result<(), AllocError> {
    match write_whole(sink, piece.as_bytes()) {
        Ok(()) => push_part(told, " ", "ok"),
        Err(SinkFault) => push_part(told, " ", "fault"),
    }
}

// The result of each piece, and the bytes that were taken.
fn told_pieces(alloc: Global, sink: &mut SlowSink, pieces: &str) -> Result<String, NoMemory> {
    let mut told = String::new(alloc);
    for piece in pieces.split(',') {
        write_piece(&mut told, sink, piece)?;
    }
    let taken = as_text(sink.sink.bytes());
    Ok(format!(in alloc; "{}, {taken:?}", told.as_str())?)
}

/// `write|MOST|FAILING|PIECES`: whether each of the pieces, which are separated by commas, was written, and the bytes that were
/// taken. The sink takes at most MOST bytes at a call, and its call number FAILING fails.
pub fn write(alloc: Global, most: &str, failing: &str, pieces: &str) -> Result<String, NoMemory> {
    let (Ok(most), Ok(failing)) = (most.parse::<usize>(), failing.parse::<u64>()) else {
        return told(alloc, "no numbers");
    };
    let mut sink = SlowSink {
        sink: FaultySink::new(alloc, vec![in alloc; failing]?),
        most,
    };
    told_pieces(alloc, &mut sink, pieces)
}

// The file `words`.
fn file(alloc: Global) -> Result<File, NoMemory> {
    Ok(File {
        name: Text::new(alloc, "words")?,
        content: Blob::new(alloc, b"hello")?,
    })
}

// A shelf with this file, whose call with this number fails.
fn shelf(alloc: Global, failing: u64) -> Result<FaultyShelf, NoMemory> {
    let shelf = MemoryShelf::new(vec![in alloc; file(alloc)?]?);
    Ok(FaultyShelf::new(shelf, vec![in alloc; failing]?))
}

// Adds the bytes that were fetched, or why there are none.
fn push_fetched(
    alloc: Global,
    told: &mut String,
    fetched: &Result<Blob, ShelfNo>,
) -> Result<(), AllocError> {
    match fetched {
        Ok(blob) => {
            let text = format!(in alloc; "{:?}", as_text(blob.as_bytes()))?;
            push_part(told, " ", text.as_str())
        }
        Err(ShelfNo::NoMemory) => push_part(told, " ", "NoMemory"),
        Err(ShelfNo::Failed) => push_part(told, " ", "Failed"),
    }
}

// Fetches the file with this name, and adds the result.
fn fetch_name(
    alloc: Global,
    told: &mut String,
    shelf: &mut FaultyShelf,
    name: &str,
    most: usize,
) -> Result<(), NoMemory> {
    let name = Text::new(alloc, name)?;
    let fetched = shelf.fetch(alloc, &name, most);
    Ok(push_fetched(alloc, told, &fetched)?)
}

fn told_names(
    alloc: Global,
    shelf: &mut FaultyShelf,
    names: &str,
    most: usize,
) -> Result<String, NoMemory> {
    let mut told = String::new(alloc);
    for name in names.split(' ') {
        fetch_name(alloc, &mut told, shelf, name, most)?;
    }
    Ok(told)
}

/// `fetch|FAILING|NAMES|MOST`: the result of fetching each of these names, which are separated by spaces, up to MOST bytes. The
/// shelf has `hello` under the name `words`, and its call number FAILING fails.
pub fn fetch(alloc: Global, failing: &str, names: &str, most: &str) -> Result<String, NoMemory> {
    let (Ok(failing), Ok(most)) = (failing.parse::<u64>(), most.parse::<usize>()) else {
        return told(alloc, "no numbers");
    };
    let mut shelf = shelf(alloc, failing)?;
    told_names(alloc, &mut shelf, names, most)
}

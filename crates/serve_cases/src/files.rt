// Files in memory.

use case_lines::bytes;
use sso_base::{Blob, File, MemoryShelf, NoMemory, Text};
use std::alloc::Global;

fn put(
    alloc: Global,
    files: &mut Vec<File>,
    name: &str,
    content: Blob,
) -> Result<String, NoMemory> {
    let length = content.as_bytes().len();
    files.push(File {
        name: Text::new(alloc, name)?,
        content,
    })?;
    Ok(format!(in alloc; "{length} bytes")?)
}

/// `file|NAME|BYTES`: from now on, the file with this name has these bytes.
pub fn put_bytes(
    alloc: Global,
    files: &mut Vec<File>,
    name: &str,
    field: &str,
) -> Result<String, NoMemory> {
    let content = Blob::from_vec(bytes(alloc, field)?);
    put(alloc, files, name, content)
}

/// `lines|NAME|LINE / LINE / ..`: these lines, each of which ends with a line feed.
pub fn put_lines(
    alloc: Global,
    files: &mut Vec<File>,
    name: &str,
    lines: &str,
) -> Result<String, NoMemory> {
    let mut text = lines.replace(alloc, " / ", "\n")?;
    text.push_str("\n")?;
    let content = Blob::new(alloc, text.as_bytes())?;
    put(alloc, files, name, content)
}

/// A shelf with copies of these files.
pub fn shelf_of(alloc: Global, files: &[File]) -> Result<MemoryShelf, NoMemory> {
    let mut copies = Vec::new(alloc);
    for file in files {
        copies.push(File {
            name: file.name.copy(alloc)?,
            content: file.content.copy(alloc)?,
        })?;
    }
    Ok(MemoryShelf::new(copies))
}

// Sources that give few bytes at a call, and fail at some calls.

use case_lines::SlowSource;
use server_desk::{FaultySource, Source, SourceFault, read_whole};
use sso_base::NoMemory;
use std::alloc::Global;

/// A source of these bytes that gives at most `most` at a call, and whose call with this number fails, from 1.
pub fn slow(
    alloc: Global,
    bytes: &[u8],
    most: usize,
    failing: u64,
) -> Result<SlowSource, NoMemory> {
    let bytes = Vec::from_slice(alloc, bytes)?;
    Ok(SlowSource {
        source: FaultySource::new(bytes, vec![in alloc; failing; 1]?),
        most,
    })
}

/// The bytes that a source has left, at most the first hundred.
pub fn rest<S: Source>(alloc: Global, source: &mut S) -> Result<Vec<u8>, NoMemory> {
    let mut room = [0; 100];
    match read_whole(source, &mut room) {
        Ok(count) => Ok(Vec::from_slice(alloc, &room[..count])?),
        Err(SourceFault) => Ok(Vec::from_slice(alloc, b"fault")?),
    }
}

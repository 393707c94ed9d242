// A link and a source that wait until both of two have begun.

ghost use Rattle.std.specs.Prelude.{◌≡◌, None, Some};
ghost use Rattle.server_desk.specs.Links.{untold_link};

use server_desk::{Link, LinkNo, MemorySource, Source, SourceFault};
use sso_base::{Blob, Text};
use std::alloc::Global;
use std::sync::atomic::{AtomicU64, Ordering};
use std::thread::yield_now;

/// How many iterations one waits for the other.
const PATIENCE: u32 = 1_000_000_000;

/// The answer over each link: the code is refused (RFC 6749, 5.2).
const REFUSAL: &[u8] =
    b"HTTP/1.1 400 Bad Request\r\nContent-Type: application/json\r\nConnection: close\r\n\r\n{\"error\":\"invalid_grant\"}";

// Counts one that has begun, and waits for the other. False if the other does not come.
fn meet(begun: &AtomicU64) -> bool {
    begun.fetch_add(1, Ordering::SeqCst);
    for _ in 0..PATIENCE {
        if begun.load(Ordering::SeqCst) >= 2 {
            return true;
        }
        yield_now();
    }
    false
}

/// A link whose exchanges wait until two have begun. Its exchanges are not known.
#[derive(Drop)]
pub struct MeetingLink<'a> {
    begun: &'a AtomicU64,
    calls: u64,
    faults: u64,
}

impl<'a> MeetingLink<'a> {
    /// A link without calls yet. It counts the exchanges that have begun in `begun`.
    pub fn new(begun: &'a AtomicU64) -> MeetingLink<'a>
        ensures { ⟦<MeetingLink<'a> as Link>⟧.state result ≡ untold_link 0 0 }
    {
        MeetingLink {
            begun,
            calls: 0,
            faults: 0,
        }
    }
}

impl<'a> Link for MeetingLink<'a> {
    ghost state = { λ l. untold_link l.calls l.faults };

    fn exchange(
        &mut self,
        alloc: Global,
        _to: &Text,
        _asked: &[u8],
        most: usize,
    ) -> Result<Blob, LinkNo> {
        self.calls = self.calls.saturating_add(1);
        if REFUSAL.len() <= most && meet(self.begun) {
            Ok(Blob::new(alloc, REFUSAL)?)
        } else {
            self.faults = self.faults.saturating_add(1);
            Err(LinkNo::Failed)
        }
    }
}

/// A source whose first read waits until two have begun. Its bytes are not known.
#[derive(Drop)]
pub struct MeetingSource<'a> {
    source: MemorySource,
    // `None` after the first read.
    begun: Option<&'a AtomicU64>,
    faults: u64,
}

impl<'a> MeetingSource<'a> {
    /// A source of this one's bytes, which counts the first reads in `begun`.
    pub fn new(source: MemorySource, begun: &'a AtomicU64) -> MeetingSource<'a> {
        MeetingSource {
            source,
            begun: Some(begun),
            faults: 0,
        }
    }
}

impl<'a> Source for MeetingSource<'a> {
    ghost left = { λ _. None };

    ghost faults = { λ s. s.faults };

    fn read_some(&mut self, room: &mut [u8]) -> Result<usize, SourceFault> {
        if let Some(begun) = self.begun.take()
            && !meet(begun)
        {
            self.faults = self.faults.saturating_add(1);
            return Err(SourceFault);
        }
        match self.source.read_some(room) {
            Ok(count) => Ok(count),
            Err(fault) => {
                self.faults = self.faults.saturating_add(1);
                Err(fault)
            }
        }
    }
}

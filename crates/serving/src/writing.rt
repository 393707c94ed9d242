// Writes to a connection.

ghost use Rattle.std.specs.Prelude.{◌≡◌, ◌≢◌, ◌⊎◌, ◌≤◌, ℕ, List, Err, Some};
ghost use Rattle.serving.specs.Told as spec;
ghost use Rattle.serving.specs.Writing.{Wrote, WroteWithout};

use crate::ends::ServedEnd;
use crate::no_reply::{NoReply, told};
use crate::sending::SentPage;
use sso_base::{Sink, write_whole};
use sso_http::HttpNo;
use std::alloc::Global;

/// The reply if memory ran out. It takes no memory.
const MEMORY: &[u8] =
    b"HTTP/1.1 503 Service Unavailable\r\nCache-Control: no-store\r\nContent-Type: text/plain; charset=utf-8\r\n\
      Content-Length: 7\r\nConnection: close\r\n\r\nmemory\n";

// Writes the bytes, and returns this end, or that the sink failed.
fn write_end<K: Sink>(sink: &mut K, bytes: &[u8], end: ServedEnd) -> ServedEnd
    ensures wrote { Wrote K.taken K.faults sink.old sink.new (Some bytes.now) end result }
    ensures later { K.faults sink.old ≤ K.faults sink.new }
{
    match write_whole(sink, bytes) {
        Ok(()) => end,
        Err(_) => ServedEnd::WriteFault,
    }
}

/// Writes a page whose notices were sent.
pub fn write_page<K: Sink>(sink: &mut K, page: &SentPage) -> ServedEnd
    ensures { Wrote K.taken K.faults sink.old sink.new (Some page.now.bytes) ServedEnd.Written result }
{
    write_end(sink, page.as_bytes(), ServedEnd::Written)
}

// Writes that memory ran out.
#[tactic(auto, unfolding(crate::specs::Told::memory_bytes))]
fn write_memory<K: Sink>(sink: &mut K) -> ServedEnd
    ensures wrote { Wrote K.taken K.faults sink.old sink.new (spec.bytes_without NoReply.NoMemory) ServedEnd.NoMemory result }
    ensures later { K.faults sink.old ≤ K.faults sink.new }
{
    write_end(sink, MEMORY, ServedEnd::NoMemory)
}

/// Writes what is sent in place of a reply, and returns how the serving of the connection ended. If there is no memory to print
/// it, writes that memory ran out.
pub fn write_without<K: Sink>(alloc: Global, sink: &mut K, no: NoReply) -> ServedEnd
    requires { no ≢ NoReply.Http HttpNo.NoMemory }
    ensures wrote { WroteWithout K.taken K.faults sink.old sink.new no result }
    ensures later { K.faults sink.old ≤ K.faults sink.new }
{
    match told(alloc, &no) {
        Ok(Some(bytes)) => write_end(sink, bytes.as_bytes(), no.end()),
        Ok(None) => no.end(),
        Err(_) => write_memory(sink),
    }
}

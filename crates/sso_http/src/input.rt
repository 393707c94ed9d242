// Reads heads and bodies from a source.

ghost use Rattle.std.specs.Prelude.{◌≡◌, ◌≤◌, length, IfOk, OnErr, IfErr};
ghost use Rattle.sso_base.specs.Faults.{HasCause};
ghost use Rattle.sso_http.specs.Input.{GivesByte, IsHeadRead, IsNoHeadRead, IsBodyRead, IsNoBodyRead, FaultRose};

use crate::head::Reader;
use crate::no::HttpNo;
use server_desk::{Source, SourceFault, read_whole};
use sso_base::NoMemory;
use std::alloc::Global;

// The most bytes of a head.
const MOST_HEAD: usize = 16_384;

// The next byte, or `None` at the end of the input.
fn read_byte<S: Source>(source: &mut S) -> Result<Option<u8>, SourceFault>
    ensures given { IfOk result (GivesByte (S.left source.old) (S.left source.new)) }
    ensures kept { OnErr result (S.left source.new ≡ S.left source.old) }
    ensures cause { HasCause (S.faults source.old) (S.faults source.new) result }
{
    let mut byte = [0];
    let count = source.read_some(&mut byte)?;
    if count == 0 {
        return Ok(None);
    }
    Ok(Some(byte[0]))
}

/// Reads the head, one byte at a time, and no byte after it.
#[tactic(auto, using(crate::proofs::OneHead::unended))]
pub(crate) fn read_head<S: Source>(alloc: Global, source: &mut S) -> Result<Vec<u8>, HttpNo>
    ensures ok { IfOk result (λ head. IsHeadRead (S.left source.old) (S.left source.new) head.items) }
    ensures err { IfErr result (IsNoHeadRead (S.left source.old) (S.left source.new)) }
    ensures later { S.faults source.old ≤ S.faults source.new }
    ensures fault { IfErr result (FaultRose (S.faults source.old) (S.faults source.new)) }
{
    let mut head = Reader::new(alloc);
    while head.bytes.len() < MOST_HEAD {
        let Some(byte) = read_byte(source)? else {
            return Err(HttpNo::EndedEarly);
        };
        if head.take(byte)? {
            return Ok(head.bytes);
        }
    }
    Err(HttpNo::HeadTooLong)
}

// A buffer of `count` bytes.
fn room(alloc: Global, count: usize) -> Result<Vec<u8>, NoMemory>
    ensures { IfOk result (λ room. length room.items ≡ count) }
{
    Ok(vec![in alloc; 0; count]?)
}

/// Reads a body of `count` bytes, and no byte after it.
#[tactic(auto, using(crate::proofs::ReadBodies::whole_body, crate::proofs::ReadBodies::part_of_body, crate::proofs::ReadBodies::fault_in_body))]
pub(crate) fn read_body<S: Source>(
    alloc: Global,
    source: &mut S,
    count: usize,
) -> Result<Vec<u8>, HttpNo>
    ensures ok { IfOk result (λ body. IsBodyRead count (S.left source.old) (S.left source.new) body.items) }
    ensures err { IfErr result (IsNoBodyRead count (S.left source.old) (S.left source.new)) }
    ensures later { S.faults source.old ≤ S.faults source.new }
    ensures fault { IfErr result (FaultRose (S.faults source.old) (S.faults source.new)) }
{
    let mut body = room(alloc, count)?;
    if read_whole(source, &mut body)? < count {
        return Err(HttpNo::EndedEarly);
    }
    Ok(body)
}

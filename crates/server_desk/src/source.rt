ghost use Rattle.std.specs.Prelude.{◌≡◌, ℕ, ◌+◌, ◌<◌, ◌≤◌, List, length, take, drop, Option, IfOk, OnErr};
ghost use Rattle.sso_base.specs.Faults.{HasCause};
ghost use Rattle.server_desk.specs.Sources.{Gives, GivesFront, IsSpent};

/// A read from a source failed.
#[derive(Clone, Copy, Debug, PartialEq, Eq)]
pub struct SourceFault;

/// A source of bytes.
pub trait Source {
    /// The bytes that it has left, if they are known.
    ghost left: { Self → Option (List ℕ) };

    /// How often it has failed.
    ghost faults: { Self → ℕ };

    /// Writes the next bytes to the start of the buffer, and returns their number. If the buffer is not empty, 0 means the end
    /// of the input.
    fn read_some(&mut self, room: &mut [u8]) -> Result<usize, SourceFault>
        ensures bound { IfOk result (λ count. count ≤ length room.new) }
        ensures given { IfOk result (λ count. Gives (left self.old) (left self.new) (take count room.new)) }
        ensures ended { IfOk result (λ count. count ≡ 0 → 0 < length room.new → IsSpent (left self.old)) }
        ensures kept { OnErr result (left self.new ≡ left self.old) }
        ensures cause { HasCause (faults self.old) (faults self.new) result };
}

// Writes the next bytes after the first `done` of the buffer, and returns their number.
fn read_behind<S: Source>(
    source: &mut S,
    room: &mut [u8],
    done: usize,
) -> Result<usize, SourceFault>
    requires { done ≤ length room.old }
    ensures room { length room.new ≡ length room.old }
    ensures bound { IfOk result (λ count. done + count ≤ length room.new) }
    ensures front { take done room.new ≡ take done room.old }
    ensures given { IfOk result (λ count. Gives (S.left source.old) (S.left source.new) (take count (drop done room.new))) }
    ensures ended { IfOk result (λ count. count ≡ 0 → done < length room.old → IsSpent (S.left source.old)) }
    ensures kept { OnErr result (S.left source.new ≡ S.left source.old) }
    ensures cause { HasCause (S.faults source.old) (S.faults source.new) result }
{
    source.read_some(&mut room[done..])
}

/// Fills the buffer with the next bytes, and returns their number. It is less than the buffer's length only if the input ended
/// there. After a fault, a prefix of the buffer has the bytes that were read.
pub fn read_whole<S: Source>(source: &mut S, room: &mut [u8]) -> Result<usize, SourceFault>
    ensures room { length room.new ≡ length room.old }
    ensures bound { IfOk result (λ count. count ≤ length room.new) }
    ensures given { IfOk result (λ count. Gives (S.left source.old) (S.left source.new) (take count room.new)) }
    ensures ended { IfOk result (λ count. count < length room.new → IsSpent (S.left source.new)) }
    ensures front { OnErr result (GivesFront (S.left source.old) (S.left source.new) room.new) }
    ensures cause { HasCause (S.faults source.old) (S.faults source.new) result }
{
    let mut done = 0;
    while done < room.len() {
        let count = read_behind(source, room, done)?;
        if count == 0 {
            return Ok(done);
        }
        done += count;
    }
    Ok(done)
}

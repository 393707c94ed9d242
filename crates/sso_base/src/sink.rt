ghost use Rattle.std.specs.Prelude.{◌≡◌, ℕ, ◌<◌, ◌≤◌, List, length, take, Option, IfOk, OnOk, OnErr};
ghost use Rattle.sso_base.specs.Faults.{Rose, HasCause};
ghost use Rattle.sso_base.specs.Outside.{Takes, TakesFront};

/// A sink did not accept the bytes.
#[derive(Clone, Copy, Debug, PartialEq, Eq)]
pub struct SinkFault;

/// A destination for bytes.
pub trait Sink {
    /// The bytes that it accepted, if they are known. A real file gives `None`.
    ghost taken: { Self → Option (List ℕ) };

    /// How often it has failed.
    ghost faults: { Self → ℕ };

    /// Writes a prefix of the piece and returns the length of that prefix in bytes. If it writes nothing of a piece that is not
    /// empty, its fault count rises.
    fn write_some(&mut self, piece: &[u8]) -> Result<usize, SinkFault>
        ensures bound { IfOk result (λ count. count ≤ length piece.now) }
        ensures taken { IfOk result (λ count. Takes (taken self.old) (taken self.new) (take count piece.now)) }
        ensures kept { OnErr result (taken self.new ≡ taken self.old) }
        ensures cause { HasCause (faults self.old) (faults self.new) result }
        ensures stuck { IfOk result (λ count. count ≡ 0 → 0 < length piece.now → Rose (faults self.old) (faults self.new)) };
}

/// Writes the whole piece. After a fault, a prefix of the piece was written.
pub fn write_whole<K: Sink>(sink: &mut K, piece: &[u8]) -> Result<(), SinkFault>
    ensures ok { OnOk result (Takes (K.taken sink.old) (K.taken sink.new) piece.now) }
    ensures err { OnErr result (TakesFront (K.taken sink.old) (K.taken sink.new) piece.now) }
    ensures cause { HasCause (K.faults sink.old) (K.faults sink.new) result }
{
    let mut done = 0;
    while done < piece.len() {
        let count = sink.write_some(&piece[done..])?;
        if count == 0 {
            return Err(SinkFault);
        }
        done += count;
    }
    Ok(())
}

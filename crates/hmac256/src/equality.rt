// Whether two MACs, proofs or secrets are equal.

ghost use Rattle.std.specs.Prelude.{◌≡◌, ◌↔◌, IsTrue};

/// Whether the two are equal. If they have one length, the code looks at all of their bytes, wherever they differ. So the time
/// shows the lengths and whether these are equal, and nothing else about the bytes.
#[tactic(auto, using(crate::proofs::Differences::difference_zero))]
pub fn same(left: &[u8], right: &[u8]) -> bool
    ensures { IsTrue result ↔ (left.now ≡ right.now) }
{
    if left.len() != right.len() {
        return false;
    }
    let mut difference = 0;
    for i in 0..left.len() {
        difference |= left[i] ^ right[i];
    }
    difference == 0
}

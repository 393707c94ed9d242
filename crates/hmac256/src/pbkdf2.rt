// The first block of PBKDF2 with HMAC-SHA-256 (RFC 8018, 5.2).

ghost use Rattle.std.specs.Prelude.{◌≡◌, ◌≤◌, length};
ghost use Rattle.hmac256.specs.Hmac.{proof_of, xor_lists};

use crate::hmac::Keyed;

// The number of the first block, high byte first.
const FIRST_BLOCK: [u8; 4] = [0, 0, 0, 1];

// Byte by byte.
fn xor_of(left: &[u8; 32], right: &[u8; 32]) -> [u8; 32]
    ensures { result ≡ xor_lists left.now right.now }
{
    let mut out = [0; 32];
    for i in 0..32 {
        out[i] = left[i] ^ right[i];
    }
    out
}

/// The proof of `password`, 32 bytes: the first block of PBKDF2 with HMAC-SHA-256 (RFC 8018, 5.2).
///
/// Needs at least one round, and a salt of at most 64 bytes. A round takes two compressions of SHA-256, independent of the
/// length of the password.
#[tactic(auto, using(crate::proofs::Rounds::rounds))]
pub fn proof(password: &[u8], salt: &[u8], rounds: u32) -> [u8; 32]
    requires positive { 1 ≤ rounds }
    requires short { length salt.now ≤ 64 }
    ensures { result ≡ proof_of password.now salt.now rounds }
{
    let keyed = Keyed::new(password);
    let mut iterate = keyed.mac_of_parts(salt, &FIRST_BLOCK);
    let mut total = iterate;
    'rounds: for _ in 1..rounds {
        iterate = keyed.mac(&iterate);
        total = xor_of(&total, &iterate);
    }
    total
}

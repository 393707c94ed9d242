// HMAC with SHA-256 (RFC 2104).

ghost use Rattle.std.specs.Prelude.{◌≡◌, ℕ, List, ◌++◌};
ghost use Rattle.hmac256.specs.Hmac.{block_of, hmac_of, masked};

use sha2::{Digest, Sha256};

// The length of SHA-256's blocks, in bytes.
const BLOCK_LEN: usize = 64;

const INNER_PAD: u8 = 0x36;

const OUTER_PAD: u8 = 0x5c;

// The key as one block: a longer key is replaced by its digest, and zeros follow.
#[tactic(auto, using(crate::proofs::Keys::block_of_short, crate::proofs::Keys::block_of_long))]
fn key_block(key: &[u8]) -> [u8; BLOCK_LEN]
    ensures { result ≡ block_of key.now }
{
    let mut block = [0; BLOCK_LEN];
    if key.len() <= BLOCK_LEN {
        block[..key.len()].copy_from_slice(key);
    } else {
        let digest = Sha256::digest(key);
        block[..32].copy_from_slice(&digest);
    }
    block
}

// Each byte of the block xor `pad`.
fn padded(block: &[u8; BLOCK_LEN], pad: u8) -> [u8; BLOCK_LEN]
    ensures { result ≡ masked pad block.now }
{
    let mut out = [0; BLOCK_LEN];
    for i in 0..BLOCK_LEN {
        out[i] = block[i] ^ pad;
    }
    out
}

// A hasher in the same state.
fn copy_of(hasher: &Sha256) -> Sha256
    ensures { result ≡ hasher.now }
{
    let Ok(copy) = hasher.clone() else {
        unreachable!()
    };
    copy
}

// HMAC under one key: two hashers that have already hashed their key blocks, so no MAC hashes these again.
#[derive(Drop)]
pub(crate) struct Keyed {
    inner: Sha256,
    outer: Sha256,
}

impl Keyed {
    ghost use Rattle.hmac256.specs.Keyed.{IsKeyed};

    pub(crate) fn new(key: &[u8]) -> Keyed
        ensures { IsKeyed result key.now }
    {
        let block = key_block(key);
        Keyed {
            inner: Sha256::new_with_prefix(&padded(&block, INNER_PAD)),
            outer: Sha256::new_with_prefix(&padded(&block, OUTER_PAD)),
        }
    }

    // The MAC of the concatenation of two pieces.
    #[tactic(auto, using(crate::proofs::Keys::hmac_at, std::proofs::lemmas::List::append_assoc))]
    pub(crate) fn mac_of_parts(&self, first: &[u8], second: &[u8]) -> [u8; 32]
        ensures { (key : List ℕ) → IsKeyed self.now key
            → result ≡ hmac_of key (first.now ++ second.now) }
    {
        let mut inner = copy_of(&self.inner);
        inner.update(first);
        inner.update(second);
        let mut outer = copy_of(&self.outer);
        outer.update(&inner.finalize());
        outer.finalize()
    }

    // The MAC of a text.
    pub(crate) fn mac(&self, text: &[u8]) -> [u8; 32]
        ensures { (key : List ℕ) → IsKeyed self.now key → result ≡ hmac_of key text.now }
    {
        self.mac_of_parts(text, &[])
    }
}

/// The MAC of `text` under `key`, 32 bytes: HMAC with SHA-256 (RFC 2104, 2).
///
/// The key has any length. A key of more than 64 bytes, the block size of SHA-256, is replaced by its digest.
pub fn mac(key: &[u8], text: &[u8]) -> [u8; 32]
    ensures { result ≡ hmac_of key.now text.now }
{
    Keyed::new(key).mac(text)
}

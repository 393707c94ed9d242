//! HMAC with SHA-256, and password proofs that use it.
//!
//! - [`mac`]: the MAC of a text under a key (RFC 2104).
//! - [`proof`]: the proof of a password, the first block of PBKDF2 (RFC 8018, 5.2).
//! - [`same`]: whether two of these are equal. It reads all bytes, wherever they differ.
//!
//! A MAC and a proof have 32 bytes each. No call here can fail or allocate.
#![tactic(auto)]

mod equality;
mod hmac;
mod pbkdf2;

pub use equality::same;
pub use hmac::mac;
pub use pbkdf2::proof;

//! Sealed texts: the compact serialization of a JSON Web Signature (RFC 7515, 3.1 and 7.1). HMAC-SHA-256 is the only algorithm
//! (RFC 7518, 3.2).
//!
//! A sealed text is `HEADER.PAYLOAD.MAC`, each part in base64url without padding. The header is a JSON object with
//! `"alg":"HS256"` and no `crit`. The MAC is over the first two parts and the dot between them. A text has at most
//! 8,192 bytes.
//!
//! | Module | What it has |
//! |---|---|
//! | `sealing` | [`seal`] writes a sealed text of a kind, [`Typ`] |
//! | `unsealing` | [`unseal`] accepts exactly the sealed texts, and returns an [`Unsealed`]; [`payload_of`] reads a text of anyone |
//! | `no` | [`JwsNo`], why a text is rejected |
//! | `parts` | splitting a text at its dots, and decoding the parts |
//! | `header` | reading a header's object |
//! | `law` | laws about sealed texts, for the crates above |
#![tactic(auto)]

mod header;
mod law;
mod no;
mod parts;
mod sealing;
mod unsealing;

pub use law::{
    accepted_texts_have_their_payload, sealed_texts_open, texts_have_two_dots, written_texts_open,
};
pub use no::JwsNo;
pub use sealing::{Typ, seal};
pub use unsealing::{Unsealed, payload_of, unseal};

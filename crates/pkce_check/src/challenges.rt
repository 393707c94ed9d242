// Challenges of verifiers.

ghost use Rattle.std.specs.Prelude.{◌≡◌};
ghost use Rattle.pkce_answer.specs.Challenges as spec;

use base64::engine::general_purpose::URL_SAFE_NO_PAD;
use sha2::{Digest, Sha256};

/// The challenge of a verifier by the method S256 (RFC 7636, 4.2): the SHA-256 digest in base64url without padding. It allocates
/// nothing.
#[tactic(auto, unfolding(sso_base::specs::Base64Url::b64u))]
pub fn challenge_of(verifier: &[u8]) -> [u8; 43]
    ensures { result ≡ spec.challenge_of verifier.now }
{
    let digest = Sha256::digest(verifier);
    let mut text = [0u8; 43];
    let _ = URL_SAFE_NO_PAD.encode_slice(&digest, &mut text);
    text
}

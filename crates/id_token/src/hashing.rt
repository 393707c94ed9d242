// Half digests, which bind an ID Token to the access token and the code issued with it.

ghost use Rattle.std.specs.Prelude.{◌≡◌};
ghost use Rattle.id_token.specs.HalfHash.{half_hash_of};

use base64::engine::general_purpose::URL_SAFE_NO_PAD;
use sha2::{Digest, Sha256};

/// The first 16 bytes of the text's SHA-256 digest in base64url without padding. It is the value of `at_hash` for an access
/// token, and of `c_hash` for a code (OpenID Connect Core 1.0, 3.1.3.6 and 3.3.2.11).
#[tactic(auto, unfolding(sso_base::specs::Base64Url::b64u))]
pub fn half_hash(text: &[u8]) -> [u8; 22]
    ensures { result ≡ half_hash_of text.now }
{
    let digest = Sha256::digest(text);
    let mut half = [0u8; 22];
    let _ = URL_SAFE_NO_PAD.encode_slice(&digest[..16], &mut half);
    half
}

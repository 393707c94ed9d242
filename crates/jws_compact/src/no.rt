// Why a text is rejected.

ghost use Rattle.std.specs.Prelude.{◌≡◌};
ghost use Rattle.jws_compact.specs.Names.{jws_name};

use sso_base::NoMemory;

/// Why a text is not a sealed text under the key, or `NoMemory`. If several reasons apply, the first in this order is returned.
#[derive(Clone, Copy, Debug, PartialEq, Eq)]
pub enum JwsNo {
    /// Memory ran out.
    NoMemory,
    /// The text has more than 8,192 bytes.
    TooLong,
    /// The number of its dots is not two (RFC 7515, 7.1).
    NotThreeParts,
    /// The first part is not strict base64url without padding (RFC 7515, 2).
    HeaderSpelling,
    /// The second part is not strict base64url without padding.
    PayloadSpelling,
    /// The third part is not strict base64url without padding, or it does not decode to 32 bytes.
    MacSpelling,
    /// The header is not the text of a JSON object in UTF-8 (RFC 7515, 4).
    HeaderNotObject,
    /// The header's `alg` is absent, or not the string `HS256` (RFC 7515, 4.1.1).
    AlgNotHs256,
    /// The header has `crit`, with any value: we support no extension (RFC 7515, 4.1.11).
    Crit,
    /// The third part is not the MAC of the first two parts under the key (RFC 7515, 5.2).
    BadMac,
}

impl JwsNo {
    /// The name of the error, as it is printed.
    #[tactic(auto, unfolding(crate::specs::Names::jws_name))]
    pub fn name(self) -> &'static str
        ensures { result.now ≡ jws_name self }
    {
        match self {
            JwsNo::NoMemory => "NoMemory",
            JwsNo::TooLong => "TooLong",
            JwsNo::NotThreeParts => "NotThreeParts",
            JwsNo::HeaderSpelling => "HeaderSpelling",
            JwsNo::PayloadSpelling => "PayloadSpelling",
            JwsNo::MacSpelling => "MacSpelling",
            JwsNo::HeaderNotObject => "HeaderNotObject",
            JwsNo::AlgNotHs256 => "AlgNotHs256",
            JwsNo::Crit => "Crit",
            JwsNo::BadMac => "BadMac",
        }
    }
}

impl From<NoMemory> for JwsNo {
    ghost use Rattle.std.specs.Prelude.{◌≡◌};
    ghost use Rattle.jws_compact.specs.declared.no.JwsNo.TheVariants as no;

    ghost from_gives = { λ _ e. e ≡ no.NoMemory };

    fn from(_error: NoMemory) -> JwsNo {
        JwsNo::NoMemory
    }
}

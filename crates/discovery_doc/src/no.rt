// Why a discovery document is rejected.

use sso_base::{NoMemory, Text};

/// Why a discovery document is rejected, or `NoMemory`. If several reasons apply, the first in this order is returned.
#[derive(Drop)]
pub enum DiscNo {
    /// Memory ran out.
    NoMemory,
    /// The bytes are not the text, in UTF-8, of a JSON object whose numbers are integers.
    NotObject,
    /// The member of this name is absent or of another kind. It is the first of the strings `issuer`, `authorization_endpoint`,
    /// `token_endpoint` and `jwks_uri`, and of the arrays of strings `response_types_supported`, `subject_types_supported` and
    /// `id_token_signing_alg_values_supported` (OpenID Connect Discovery 1.0, 3).
    Missing(Text),
    /// `issuer` is not the requested issuer (OpenID Connect Discovery 1.0, 4.3).
    IssuerDiffers,
    /// `HS256` is not among `id_token_signing_alg_values_supported`.
    NoHs256,
    /// The member of this name violates the rule for URLs: the first of `authorization_endpoint`, `token_endpoint` and
    /// `userinfo_endpoint`. A `userinfo_endpoint` that is not a string violates it.
    BadUrl(Text),
}

impl From<NoMemory> for DiscNo {
    ghost use Rattle.std.specs.Prelude.{◌≡◌};
    ghost use Rattle.discovery_doc.specs.declared.no.DiscNo.TheVariants as no;

    ghost from_gives = { λ _ e. e ≡ no.NoMemory };

    fn from(_error: NoMemory) -> DiscNo {
        DiscNo::NoMemory
    }
}

// Why token requests and responses are rejected.

use claim_set::ClaimNo;
use sso_base::{NoMemory, Text};

/// Why a token request is rejected, or `NoMemory`. If several reasons apply, the first in this order is returned.
#[derive(Drop)]
pub enum GrantNo {
    /// There is no body.
    BadForm,
    /// A parameter of this name occurs twice: the first name that is repeated, with any values (RFC 6749, 3.2).
    Twice(Text),
    /// There is a `Basic` header and `client_secret`: the client shows its secret in two ways (RFC 6749, 2.3).
    TwoAuths,
    /// There is neither a `Basic` header nor both of `client_id` and `client_secret`.
    NoAuth,
    /// The shown id and secret are not those of a client (RFC 6749, 2.3.1). A `Basic` header cannot be read, no client has the
    /// id, it has no such secret, or `client_id` differs from the id in the `Basic` header.
    WrongClient,
    /// `grant_type` is present and is not the one of this request: `authorization_code` for a token request with a code (RFC 6749,
    /// 4.1.3), and `refresh_token` for a refresh request (6).
    OtherGrant,
    /// A parameter is absent: the first of `grant_type`, `code` and `redirect_uri` (OpenID Connect Core 1.0, 3.1.3.1), and in a refresh
    /// request the first of `grant_type` and `refresh_token` (RFC 6749, 6).
    Missing(Text),
    /// Memory ran out.
    NoMemory,
}

impl From<NoMemory> for GrantNo {
    ghost use Rattle.std.specs.Prelude.{◌≡◌};
    ghost use Rattle.token_endpoint.specs.declared.no.GrantNo.TheVariants as no;

    ghost from_gives = { λ _ e. e ≡ no.NoMemory };

    fn from(_error: NoMemory) -> GrantNo {
        GrantNo::NoMemory
    }
}

/// Why a token response is rejected, or `NoMemory`. If several reasons apply, the first in this order is returned.
#[derive(Drop)]
pub enum TokensNo {
    /// Its status, which is not 200 (RFC 6749, 5.1).
    Status(u16),
    /// Its body is not the text in UTF-8 of a JSON object whose numbers are integers, or a member is not a string: the first of
    /// `access_token`, `id_token` and `token_type`. The reason is never [`ClaimNo::NoMemory`].
    Claims(ClaimNo),
    /// A member is absent: the first of `access_token`, `token_type` and `id_token` (OpenID Connect Core 1.0, 3.1.3.3).
    Missing(Text),
    /// `token_type` is not `Bearer`, in any case (RFC 6749, 5.1; OpenID Connect Core 1.0, 3.1.3.3).
    NotBearer,
    /// Memory ran out.
    NoMemory,
}

impl From<NoMemory> for TokensNo {
    ghost use Rattle.std.specs.Prelude.{◌≡◌};
    ghost use Rattle.token_endpoint.specs.declared.no.TokensNo.TheVariants as no;

    ghost from_gives = { λ _ e. e ≡ no.NoMemory };

    fn from(_error: NoMemory) -> TokensNo {
        TokensNo::NoMemory
    }
}

impl From<ClaimNo> for TokensNo {
    ghost use Rattle.std.specs.Prelude.{◌≡◌, IsFalse};
    ghost use Rattle.claim_set.specs.Wrapped.{as_claims};
    ghost use Rattle.token_endpoint.specs.declared.no.TokensNo.TheVariants as no;
    ghost use Rattle.token_endpoint.specs.Answer.{hides_memory};

    ghost from_gives = { λ error e. (e ≡ as_claims no.NoMemory no.Claims error) × IsFalse (hides_memory e) };

    fn from(error: ClaimNo) -> TokensNo {
        match error {
            ClaimNo::NoMemory => TokensNo::NoMemory,
            error => TokensNo::Claims(error),
        }
    }
}

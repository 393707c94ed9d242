// Verification of a logout token's claims.

ghost use Rattle.std.specs.Prelude.{◌≡◌, Ok};
ghost use Rattle.logout_token.specs.Judging.{logout_judged, IsGoodLogoutToken};

use crate::claims::LogoutClaims;
use crate::no::LogoutNo;
use oidc_words::{LEEWAY, OLDEST};
use sso_base::{Moment, Text};

// The first error that applies.
fn judged(issuer: &Text, client: &Text, claims: &LogoutClaims, at: Moment) -> Result<(), LogoutNo>
    ensures { result ≡ logout_judged issuer.now client.now claims.now at }
{
    let now = at.seconds();
    if !claims.iss.equals(issuer.as_str()) {
        return Err(LogoutNo::Issuer);
    }
    if !claims.aud.is_only(client.as_str()) {
        return Err(LogoutNo::Audience);
    }
    // A sum that does not fit is replaced by the greatest number, which no moment exceeds.
    if claims.exp.saturating_add(LEEWAY) <= now {
        return Err(LogoutNo::Expired(claims.exp));
    }
    if claims.iat.saturating_add(OLDEST) < now {
        return Err(LogoutNo::TooOld(claims.iat));
    }
    if now + LEEWAY < claims.iat {
        return Err(LogoutNo::FromFuture(claims.iat));
    }
    Ok(())
}

/// Verifies the claims of a logout token at a moment, for a client of this issuer (OpenID Connect Back-Channel Logout 1.0, 2.6,
/// which refers to OpenID Connect Core 1.0, 3.1.3.7).
///
/// Returns the first that applies of the errors [`LogoutNo::Issuer`], [`LogoutNo::Audience`], [`LogoutNo::Expired`],
/// [`LogoutNo::TooOld`] and [`LogoutNo::FromFuture`]. It allocates nothing. The numbers of the claims may be any.
pub fn judge_logout(
    issuer: &Text,
    client: &Text,
    claims: &LogoutClaims,
    at: Moment,
) -> Result<(), LogoutNo>
    ensures answers { result ≡ logout_judged issuer.now client.now claims.now at }
    ensures accepts { IsGoodLogoutToken issuer.now client.now claims.now at → result ≡ Ok tt }
    ensures good { result ≡ Ok tt → IsGoodLogoutToken issuer.now client.now claims.now at }
{
    judged(issuer, client, claims, at)
}

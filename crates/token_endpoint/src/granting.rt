// Reading a token request as a grant, or rejecting it for the first reason that applies.

ghost use Rattle.std.specs.Prelude.{◌≡◌, ◌⊎◌, Ok, Err, IfOk, IfErr};
ghost use Rattle.std.specs.Str.{IsUtf8};
ghost use Rattle.std.specs.Option.{option_copied};
ghost use Rattle.token_endpoint.specs.Request.{code_read, grant_read};
ghost use Rattle.token_endpoint.specs.Granted.{IsGrant, Cause};

use crate::authentication::{client_by, is_other};
use crate::no::GrantNo;
use client_registry::Registry;
use request_params::{Pair, read_pairs, value_of};
use sso_base::Text;
use std::alloc::Global;

/// The contents of an authenticated token request for a code (RFC 6749, 4.1.3).
#[derive(Drop)]
pub struct Grant {
    /// The number of the client in the registry, counted from 0. The request shows a secret of this client.
    pub client: u32,
    /// The authorization code.
    pub code: Text,
    /// The `redirect_uri` of the token request.
    pub redirect: Text,
}

// The request of the client with this number.
#[tactic(auto, unfolding(crate::specs::Request::code_read))]
fn read_code(alloc: Global, parameters: &[Pair], client: u32) -> Result<Grant, GrantNo>
    ensures ok { IfOk result (λ g. code_read parameters.now client ≡ Ok g) }
    ensures err { IfErr result (λ e. (e ≡ GrantNo.NoMemory) ⊎ (code_read parameters.now client ≡ Err e)) }
{
    let kind = value_of(parameters, "grant_type");
    if is_other("authorization_code", kind) {
        return Err(GrantNo::OtherGrant);
    }
    if kind.is_none() {
        return Err(GrantNo::Missing(Text::new(alloc, "grant_type")?));
    }
    let Some(code) = value_of(parameters, "code") else {
        return Err(GrantNo::Missing(Text::new(alloc, "code")?));
    };
    let Some(redirect) = value_of(parameters, "redirect_uri") else {
        return Err(GrantNo::Missing(Text::new(alloc, "redirect_uri")?));
    };
    Ok(Grant {
        client,
        code: code.copy(alloc)?,
        redirect: redirect.copy(alloc)?,
    })
}

// The contents of a token request.
#[tactic(auto, unfolding(crate::specs::Request::grant_read))]
fn granted(
    alloc: Global,
    registry: &Registry,
    auth: Option<&[u8]>,
    body: Option<&[u8]>,
) -> Result<Grant, GrantNo>
    ensures ok { IfOk result (λ g. grant_read registry.now (option_copied auth.entry) (option_copied body.entry) ≡ Ok g) }
    ensures err { IfErr result (λ e. (e ≡ GrantNo.NoMemory) ⊎ (grant_read registry.now (option_copied auth.entry) (option_copied body.entry) ≡ Err e)) }
{
    let Some(form) = body else {
        return Err(GrantNo::BadForm);
    };
    let parameters = read_pairs(alloc, form)?;
    let client = client_by(alloc, registry, auth, &parameters)?;
    read_code(alloc, &parameters, client)
}

/// Reads a token request for a code (RFC 6749, 4.1.3; OpenID Connect Core 1.0, 3.1.3.1) from its `Authorization` header and its
/// body, a form.
///
/// The client shows a secret in one of two ways (RFC 6749, 2.3.1; OpenID Connect Core 1.0, 9).
///
/// - By HTTP Basic: the header is `Basic` in any case, one space, and strict base64 with padding of the id, `:` and the secret,
///   each encoded as in a form. The first `:` separates them. The scheme is the text before the first space, or the whole
///   header if there is none. A header of another scheme is ignored.
/// - By parameters: `client_id` and `client_secret` are in the body.
///
/// Other parameters are ignored, but no name may occur twice; a parameter with an empty value is present. In names and values,
/// `+` is a space, escapes are decoded, and invalid UTF-8 becomes U+FFFD.
///
/// Exactly these requests are accepted. For any other request the first error that applies is returned, in the order of
/// [`GrantNo`].
pub fn read_grant(
    alloc: Global,
    registry: &Registry,
    auth: Option<&[u8]>,
    body: Option<&[u8]>,
) -> Result<Grant, GrantNo>
    ensures answers { IfOk result (λ g. grant_read registry.now (option_copied auth.entry) (option_copied body.entry) ≡ Ok g) }
    ensures grant { IfOk result (λ g. IsGrant registry.now (option_copied auth.entry) (option_copied body.entry) g) }
    ensures texts { IfOk result (λ g. IsUtf8 g.code × IsUtf8 g.redirect) }
    ensures accepts { (g : Grant) → IsGrant registry.now (option_copied auth.entry) (option_copied body.entry) g → IfErr result (λ e. e ≡ GrantNo.NoMemory) }
    ensures value { (g : Grant) → IsGrant registry.now (option_copied auth.entry) (option_copied body.entry) g → IfOk result (λ r. r ≡ g) }
    ensures refuses { IfErr result (λ e. (e ≡ GrantNo.NoMemory) ⊎ (grant_read registry.now (option_copied auth.entry) (option_copied body.entry) ≡ Err e)) }
    ensures cause { IfErr result (λ e. (e ≡ GrantNo.NoMemory) ⊎ Cause registry.now (option_copied auth.entry) (option_copied body.entry) e) }
{
    // The contract of `clients` states the invariant of every registry: no two of its clients have the same id.
    let _clients = registry.clients();
    granted(alloc, registry, auth, body)
}

// Reading which client a request to the token endpoint authenticates.

ghost use Rattle.std.specs.Prelude.{◌≡◌, ◌⊎◌, ℕ, Ok, Err, IfOk, IfErr};
ghost use Rattle.std.specs.Option.{option_copied};
ghost use Rattle.token_endpoint.specs.Request.{client_asked};
ghost use Rattle.token_endpoint.specs.Granted.{IsOfClient, Cause};

use crate::authentication::client_by;
use crate::no::GrantNo;
use client_registry::Registry;
use request_params::read_pairs;
use std::alloc::Global;

// The number of the client that a request authenticates.
#[tactic(auto, unfolding(crate::specs::Request::client_asked))]
fn shown(
    alloc: Global,
    registry: &Registry,
    auth: Option<&[u8]>,
    body: Option<&[u8]>,
) -> Result<u32, GrantNo>
    ensures ok { IfOk result (λ n. client_asked registry.now (option_copied auth.entry) (option_copied body.entry) ≡ Ok n) }
    ensures err { IfErr result (λ e. (e ≡ GrantNo.NoMemory) ⊎ (client_asked registry.now (option_copied auth.entry) (option_copied body.entry) ≡ Err e)) }
{
    let Some(form) = body else {
        return Err(GrantNo::BadForm);
    };
    let parameters = read_pairs(alloc, form)?;
    client_by(alloc, registry, auth, &parameters)
}

/// Reads which client a request to the token endpoint authenticates, from its `Authorization` header and its body, a form (RFC 6749,
/// 2.3.1; OpenID Connect Core 1.0, 9). The ways to show a secret are those of [`read_grant`](crate::read_grant), for every grant type.
///
/// The refusals are [`GrantNo::BadForm`], [`GrantNo::Twice`], [`GrantNo::TwoAuths`], [`GrantNo::NoAuth`] and
/// [`GrantNo::WrongClient`], the first that applies in this order.
pub fn read_client(
    alloc: Global,
    registry: &Registry,
    auth: Option<&[u8]>,
    body: Option<&[u8]>,
) -> Result<u32, GrantNo>
    ensures answers { IfOk result (λ n. client_asked registry.now (option_copied auth.entry) (option_copied body.entry) ≡ Ok n) }
    ensures client { IfOk result (λ n. IsOfClient registry.now (option_copied auth.entry) (option_copied body.entry) n) }
    ensures accepts { (n : ℕ) → IsOfClient registry.now (option_copied auth.entry) (option_copied body.entry) n → IfErr result (λ e. e ≡ GrantNo.NoMemory) }
    ensures refuses { IfErr result (λ e. (e ≡ GrantNo.NoMemory) ⊎ (client_asked registry.now (option_copied auth.entry) (option_copied body.entry) ≡ Err e)) }
    ensures cause { IfErr result (λ e. (e ≡ GrantNo.NoMemory) ⊎ Cause registry.now (option_copied auth.entry) (option_copied body.entry) e) }
{
    // The contract of `clients` states the invariant of every registry: no two of its clients have the same id.
    let _clients = registry.clients();
    shown(alloc, registry, auth, body)
}

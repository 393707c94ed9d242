// Requests for offline access (OpenID Connect Core 1.0, 11).

ghost use Rattle.std.specs.Prelude.{◌≡◌, IfOk};
ghost use Rattle.std.specs.Option.{option_copied};
ghost use Rattle.refresh_request.specs.Offline as spec;

use auth_request::{Verdict, Wish};
use client_registry::Registry;
use op_exchange::OpAsk;
use op_request::asks_for_scope;
use sso_base::{Ask, NoMemory};
use std::alloc::Global;

// Whether a request for a code asks the user for consent.
fn may_be_offline(wish: &Wish) -> bool
    ensures { result ≡ spec.may_be_offline wish.now }
{
    wish.consent && wish.types.code
}

/// Whether a request is an authorization request for offline access (OpenID Connect Core 1.0, 11): it may be answered, its response type
/// has `code`, `prompt` has `consent`, and `scope` has `offline_access`. Otherwise `offline_access` is ignored.
pub fn asks_offline(
    alloc: Global,
    registry: &Registry,
    request: &Ask,
    ask: Option<&OpAsk>,
) -> Result<bool, NoMemory>
    ensures { IfOk result (λ b. b ≡ spec.asks_offline registry.now request.now (option_copied ask.entry)) }
{
    match ask {
        Some(
            OpAsk::Authorize {
                verdict: Verdict::Grant(wish),
                ..
            },
        ) if may_be_offline(wish) => asks_for_scope(alloc, registry, request, "offline_access"),
        _ => Ok(false),
    }
}

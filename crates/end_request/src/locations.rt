// Where the browser goes after a sign-out.

ghost use Rattle.std.specs.Prelude.{◌≡◌, IfOk};
ghost use Rattle.end_request.specs.Ending as spec;

use crate::wish::EndWish;
use request_params::with_query;
use sso_base::{NoMemory, Text};
use std::alloc::Global;

// The URI with the state.
fn with_state(alloc: Global, uri: &Text, state: &Option<Text>) -> Result<Text, NoMemory>
    ensures { IfOk result (λ t. t ≡ spec.with_state uri.now state.now) }
{
    match state {
        Some(state) => with_query(alloc, uri, &[("state", state.as_str())]),
        None => uri.copy(alloc),
    }
}

/// The URI of a wish, with its state in the query (RP-Initiated Logout 1.0, 3); `None` if the wish has no URI.
pub fn location(alloc: Global, wish: &EndWish) -> Result<Option<Text>, NoMemory>
    ensures { IfOk result (λ t. t ≡ spec.location wish.now) }
{
    match &wish.back {
        Some(uri) => Ok(Some(with_state(alloc, uri, &wish.state)?)),
        None => Ok(None),
    }
}

// What is known, before a step, about the tokens that its reply writes.

ghost use Rattle.std.specs.Prelude.{◌≡◌, None};
ghost use Rattle.running_world.specs.Foreknowing.{client_asked};

use code_grant::SessionRow;
use op_exchange::OpAsk;

/// What decides, besides its reply, which tokens the provider writes: the client of a token request, and the session that a
/// sign-out ends.
#[derive(Clone, Copy)]
pub(crate) struct Foreknown {
    pub(crate) client: Option<u32>,
    pub(crate) ended: Option<SessionRow>,
}

/// Nothing is known.
pub(crate) fn nothing_foreknown() -> Foreknown
    ensures { result ≡ record { client = None; ended = None } }
{
    Foreknown {
        client: None,
        ended: None,
    }
}

/// The client of a token request.
pub(crate) fn client_of(asked: &OpAsk) -> Option<u32>
    ensures { result ≡ client_asked asked.now }
{
    match asked {
        OpAsk::Token { grant: Ok(grant) } => Some(grant.client),
        _ => None,
    }
}

// The printed reply of one role, passed to the party that waits for it.

ghost use Rattle.std.specs.Prelude.{◌≡◌, IfOk};
ghost use Rattle.sso_places.specs.Legal.{IsRole};
ghost use Rattle.web_requests.specs.Handing as spec;

use crate::sent::Sent;
use client_registry::Registry;
use op_response::op_http;
use rp_exchange::RpReply;
use rp_response::rp_http;
use sso_base::{Answered, HttpReply, NoMemory};
use sso_places::{To, WorldAsk, WorldReply};
use std::alloc::Global;

/// The reply of a role in HTTP (RFC 9110). `None` if it is not a reply of this role.
///
/// The role must be in the registry.
#[tactic(auto, unfolding(crate::specs::Handing::printed))]
pub fn printed(
    alloc: Global,
    registry: &Registry,
    role: &To,
    reply: &WorldReply,
) -> Result<Option<HttpReply>, NoMemory>
    requires { IsRole registry.now role.now }
    ensures { IfOk result (λ o. o ≡ spec.printed registry.now role.now reply.now) }
{
    match (role, reply) {
        (To::Provider, WorldReply::Provider(reply)) => Ok(Some(op_http(alloc, registry, reply)?)),
        (To::Party(party), WorldReply::Party(reply)) => {
            Ok(Some(rp_http(alloc, registry, *party, reply)?))
        }
        _ => Ok(None),
    }
}

// The status of a reply and its body.
fn answer_in(reply: HttpReply) -> Answered
    ensures { result ≡ spec.answer_in reply }
{
    Answered {
        status: reply.status,
        body: reply.body,
    }
}

// An answer to the request in a reply of this party.
fn handed(from: u32, role: &To, reply: &WorldReply, answer: Answered) -> Option<Sent>
    ensures { result ≡ spec.handed from role.now reply.now answer }
{
    let To::Party(party) = role else {
        return None;
    };
    let ask = match reply {
        WorldReply::Party(RpReply::Exchange { pending, .. }) => WorldAsk::Tokens(*pending, answer),
        WorldReply::Party(RpReply::Fetch { pending, .. }) => WorldAsk::Info(*pending, answer),
        _ => return None,
    };
    Some(Sent {
        from,
        to: To::Party(*party),
        ask,
    })
}

/// Passes the reply of another role, as [`printed`], back to the role of a reply, as the answer to its token request or its
/// UserInfo request. The sender's number is that of the request (OpenID Connect Core 1.0, 3.1.3.3, 3.1.3.4 and 5.3.2). `None`
/// if the reply has no such request, if its role is not a party, or if the other reply is not one of the other role.
///
/// It may be any reply, whether or not it answers that request. The other role must be in the registry.
#[tactic(auto, unfolding(crate::specs::Handing::handed_back))]
pub fn handed_back(
    alloc: Global,
    registry: &Registry,
    from: u32,
    role: &To,
    reply: &WorldReply,
    other: &To,
    answer: &WorldReply,
) -> Result<Option<Sent>, NoMemory>
    requires { IsRole registry.now other.now }
    ensures { IfOk result (λ o. o ≡ spec.handed_back registry.now from role.now reply.now other.now answer.now) }
{
    match printed(alloc, registry, other, answer)? {
        Some(printed) => Ok(handed(from, role, reply, answer_in(printed))),
        None => Ok(None),
    }
}

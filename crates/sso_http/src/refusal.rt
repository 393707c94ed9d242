// Replies to refused requests.

ghost use Rattle.std.specs.Prelude.{◌≡◌, ◌≢◌, IfOk};
ghost use Rattle.sso_http.specs.Refusals as spec;

use crate::no::HttpNo;
use crate::reply::print_reply;
use http_reply::plain;
use sso_base::{Blob, NoMemory};
use std::alloc::Global;

// The status of the reply, if there is one.
fn status_of(why: &HttpNo) -> Option<u16>
    ensures { result ≡ spec.status_of why.now }
{
    match why {
        HttpNo::NoMemory | HttpNo::ReadFault | HttpNo::EndedEarly => None,
        HttpNo::HeadTooLong => Some(431),
        HttpNo::BadHead | HttpNo::BadTarget | HttpNo::CookieTwice => Some(400),
        HttpNo::Transfer => Some(501),
        HttpNo::NoLength => Some(411),
        HttpNo::BodyTooLong => Some(413),
    }
}

/// The bytes of the reply to a refused request: the line `request` with the refusal's status. `None` if and only if the source
/// failed or ended, and nothing is to be written.
#[tactic(auto, unfolding(crate::specs::Refusals::refusal_bytes))]
pub fn print_http_no(alloc: Global, why: &HttpNo) -> Result<Option<Blob>, NoMemory>
    requires { why.now ≢ HttpNo.NoMemory }
    ensures { IfOk result (λ o. o ≡ spec.refusal_bytes why.now) }
{
    let Some(status) = status_of(why) else {
        return Ok(None);
    };
    let reply = plain(alloc, status, "request")?;
    Ok(Some(print_reply(alloc, &reply)?))
}

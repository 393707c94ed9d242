// The number of places of a play with a reply of a kind.

ghost use Rattle.std.specs.Prelude.{◌≡◌};
ghost use Rattle.running_world.specs.Running.{world_of};
ghost use Rattle.oidc_replay.specs.Storm as spec;

use crate::play::Play;
use auth_request::PageNo;
use op_exchange::OpReply;
use rp_exchange::{RpNo, RpReply};
use sso_places::WorldReply;

/// The kinds of replies that are counted.
#[derive(Clone, Copy)]
pub(crate) enum Kind {
    /// A party accepts a login.
    Entered,
    /// A party refuses a response, since its login is not live (`StaleLogin`).
    Stale,
    /// A party refuses a response, since another browser began its login.
    WrongBrowser,
    /// The provider's error page for a form without a live turn.
    Turn,
}

// Whether a reply is of this kind.
fn is_of(kind: Kind, reply: &WorldReply) -> bool
    ensures { result ≡ spec.is_of kind reply.now }
{
    match kind {
        Kind::Entered => matches!(reply, WorldReply::Party(RpReply::Entered { .. })),
        Kind::Stale => matches!(
            reply,
            WorldReply::Party(RpReply::Refused {
                why: RpNo::StaleLogin,
            },)
        ),
        Kind::WrongBrowser => matches!(
            reply,
            WorldReply::Party(RpReply::Refused {
                why: RpNo::WrongBrowser,
            },)
        ),
        Kind::Turn => matches!(
            reply,
            WorldReply::Provider(OpReply::ErrorPage { why: PageNo::Turn })
        ),
    }
}

// Whether there is such a place, and its reply is of this kind.
fn is_at(play: &Play, kind: Kind, place: u64) -> bool
    ensures { result ≡ spec.is_at kind (world_of play.now.running) place }
{
    match play.reply(place) {
        Some(reply) => is_of(kind, reply),
        None => false,
    }
}

/// The number of places with a reply of this kind.
pub(crate) fn count_of(play: &Play, kind: Kind) -> u64
    ensures { result ≡ spec.count_of kind (world_of play.now.running) }
{
    let mut count = 0u64;
    for before in 0..play.places() {
        if is_at(play, kind, before + 1) {
            count += 1;
        }
    }
    count
}

// The bytes of the texts that rows hold because of a request or a response. Sums saturate at the greatest number of 64 bits.

ghost use Rattle.std.specs.Prelude.{◌≡◌};
ghost use Rattle.sso_base.specs.Weights.{told_weight};
ghost use Rattle.rp_exchange.specs.Held as spec;

use crate::ask::RpAsk;
use auth_answer::{AnswerNo, Heard};
use id_token::{IdClaims, IdNo};
use logout_token::{LogoutClaims, LogoutNo};
use sso_base::{MOST_HELD, text_bytes};

fn heard_held(heard: &Result<Heard, AnswerNo>) -> u64
    ensures { result ≡ told_weight (spec.heard_held heard.now) }
{
    match heard {
        Ok(heard) => text_bytes(&heard.code),
        Err(_) => 0,
    }
}

fn id_held(id: &Option<Result<IdClaims, IdNo>>) -> u64
    ensures { result ≡ told_weight (spec.id_held id.now) }
{
    match id {
        Some(Ok(claims)) => {
            (claims.sub.as_str().len() as u64).saturating_add(text_bytes(&claims.sid))
        }
        Some(Err(_)) => 0,
        None => 0,
    }
}

fn logout_held(claims: &Result<LogoutClaims, LogoutNo>) -> u64
    ensures { result ≡ told_weight (spec.logout_held claims.now) }
{
    match claims {
        Ok(claims) => (claims.jti.as_str().len() as u64).saturating_add(text_bytes(&claims.sid)),
        Err(_) => 0,
    }
}

fn held_bytes(ask: &RpAsk) -> u64
    ensures { result ≡ told_weight (spec.held_bytes ask.now) }
{
    match ask {
        RpAsk::Callback { heard, id, .. } => heard_held(heard).saturating_add(id_held(id)),
        RpAsk::Tokens { id, .. } => id_held(id),
        RpAsk::Logout { claims } => logout_held(claims),
        _ => 0,
    }
}

/// Whether the rows that hold texts of this request or response hold at most 1,536 bytes of them.
pub fn is_small(ask: &RpAsk) -> bool
    ensures { result ≡ spec.is_small ask.now }
{
    held_bytes(ask) <= MOST_HELD
}

// The cookies that a reply sets.

ghost use Rattle.std.specs.Prelude.{◌≡◌};
ghost use Rattle.op_response.specs.Told.{browser_given as op_browser_of};
ghost use Rattle.rp_response.specs.Told.{browser_given as rp_browser_of, session_given as rp_session_of};
ghost use Rattle.sso_places.specs.Cookies.{set_by};

use op_exchange::OpReply;
use rp_exchange::RpReply;
use sso_base::Word;
use sso_places::{Jar, WorldReply};

/// The cookies that a reply sets: the browser's word and the session's.
pub(crate) fn jar_set(reply: &WorldReply) -> Jar
    ensures { result ≡ set_by reply.now }
{
    match reply {
        WorldReply::Provider(reply) => Jar {
            first: op_browser(reply),
            second: reply.session_given(),
        },
        WorldReply::Party(reply) => Jar {
            first: rp_browser(reply),
            second: rp_session(reply),
        },
        WorldReply::Nothing => Jar {
            first: None,
            second: None,
        },
    }
}

// The browser cookie that a page of the provider sets.
fn op_browser(reply: &OpReply) -> Option<Word>
    ensures { result ≡ op_browser_of reply.now }
{
    match reply {
        OpReply::LoginPage { browser, .. } => Some(*browser),
        OpReply::ConsentPage { browser, .. } => Some(*browser),
        _ => None,
    }
}

// The browser cookie that a party sets when a login begins.
fn rp_browser(reply: &RpReply) -> Option<Word>
    ensures { result ≡ rp_browser_of reply.now }
{
    match reply {
        RpReply::Ask { browser, .. } => Some(*browser),
        _ => None,
    }
}

// The session cookie that a party sets when it accepts a login.
fn rp_session(reply: &RpReply) -> Option<Word>
    ensures { result ≡ rp_session_of reply.now }
{
    match reply {
        RpReply::Entered { session, .. } => Some(*session),
        _ => None,
    }
}

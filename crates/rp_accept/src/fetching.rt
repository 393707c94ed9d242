// Whether UserInfo is requested, and the reply to its response (OpenID Connect Core 1.0, 5.3).

ghost use Rattle.std.specs.Prelude.{◌≡◌, IfOk};
ghost use Rattle.std.specs.Option.{option_copied};
ghost use Rattle.sso_base.specs.Texts.{is_other as is_other_text};
ghost use Rattle.rp_answer.specs.Replies as spec;

use crate::responding::text_if;
use crate::setup::Setup;
use rp_exchange::{RpAsk, RpNo, RpReply};
use rp_login::PendingRow;
use sso_base::{Entry, NoMemory, Text, Word};
use std::alloc::Global;
use userinfo::print_info;

// Whether there is an earlier subject that differs.
pub(crate) fn is_other(before: &Option<Text>, sub: &Text) -> bool
    ensures { result ≡ is_other_text sub.now before.now }
{
    match before {
        Some(before) => before.as_str() != sub.as_str(),
        None => false,
    }
}

// A new session of the subject.
fn enter(alloc: Global, entry: &Entry<RpAsk>, sub: &Text) -> Result<RpReply, NoMemory>
    ensures { IfOk result (λ r. r ≡ spec.entered entry.now sub.now) }
{
    Ok(RpReply::Entered {
        session: entry.fresh[1],
        sub: sub.copy(alloc)?,
    })
}

// A UserInfo request with this access token, under this word.
fn fetch(alloc: Global, endpoint: &Text, access: &Text, pending: Word) -> Result<RpReply, NoMemory>
    ensures { IfOk result (λ r. r ≡ spec.fetched endpoint.now access.now pending) }
{
    Ok(RpReply::Fetch {
        pending,
        message: print_info(alloc, endpoint, access)?,
    })
}

impl Setup {
    // The UserInfo endpoint, if the party requests UserInfo and the provider has it.
    fn info_endpoint(&self) -> Option<&Text>
        ensures { option_copied result ≡ spec.info_endpoint self.now }
    {
        text_if(self.party().userinfo, &self.provider().userinfo)
    }

    // Requests UserInfo with the access token, under this word, or else begins a session of the subject.
    pub(crate) fn fetch_or_enter(
        &self,
        alloc: Global,
        entry: &Entry<RpAsk>,
        access: Option<&Text>,
        pending: Word,
        sub: &Text,
    ) -> Result<RpReply, NoMemory>
        ensures { IfOk result (λ r. r ≡ spec.fetch_or_enter entry.now (spec.info_endpoint self.now) (option_copied access.entry) pending sub.now) }
    {
        let Some(endpoint) = self.info_endpoint() else {
            return enter(alloc, entry, sub);
        };
        let Some(access) = access else {
            return enter(alloc, entry, sub);
        };
        fetch(alloc, endpoint, access, pending)
    }
}

/// The reply to the UserInfo subject of this live exchange. The subject must be that of the earlier ID Token (OpenID Connect
/// Core 1.0, 5.3.2).
pub fn reply_to_info(
    alloc: Global,
    entry: &Entry<RpAsk>,
    pending: &PendingRow,
    sub: &Text,
) -> Result<RpReply, NoMemory>
    ensures { IfOk result (λ r. r ≡ spec.info_came entry.now pending.now sub.now) }
{
    if is_other(&pending.sub, sub) {
        return Ok(RpReply::Refused {
            why: RpNo::SubjectDiffers,
        });
    }
    enter(alloc, entry, sub)
}

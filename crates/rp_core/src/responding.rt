// The replies to the start of a login and to an authorization response, if no table were full.

ghost use Rattle.std.specs.Prelude.{◌≡◌, ◌≤◌, IfOk};
ghost use Rattle.sso_base.specs.Legal.{last_moment};
ghost use Rattle.rp_answer.specs.Replies as spec;
ghost use Rattle.rp_core.specs.Relying.{past_of};

use crate::state::RpCore;
use auth_answer::{AnswerNo, Heard};
use id_token::{IdClaims, IdNo};
use rp_exchange::{RpAsk, RpNo, RpReply};
use sso_base::{Entry, NoMemory, Word};
use std::alloc::Global;

impl RpCore {
    // The browser word of a new login: the presented one if a live login has it.
    fn login_browser(&self, entry: &Entry<RpAsk>, presented: Option<Word>) -> Word
        requires { last_moment (past_of self.now) ≤ entry.now.at }
        ensures { result ≡ spec.login_browser (past_of self.now) entry.now presented }
    {
        let Some(browser) = presented else {
            return entry.fresh[0];
        };
        if self.has_login_browser(entry.at, browser) {
            browser
        } else {
            entry.fresh[0]
        }
    }

    // The reply to the start of a login.
    pub(crate) fn begin(
        &self,
        alloc: Global,
        entry: &Entry<RpAsk>,
        presented: Option<Word>,
    ) -> Result<RpReply, NoMemory>
        requires { last_moment (past_of self.now) ≤ entry.now.at }
        ensures { IfOk result (λ r. r ≡ spec.begin self.now.setup (past_of self.now) entry.now presented) }
    {
        let to = self
            .setup
            .login_location(alloc, &entry.fresh[1], &entry.fresh[2])?;
        Ok(RpReply::Ask {
            to,
            browser: self.login_browser(entry, presented),
        })
    }

    // The reply to an authorization response that can be read.
    fn response(
        &self,
        alloc: Global,
        entry: &Entry<RpAsk>,
        heard: &Heard,
        id: &Option<Result<IdClaims, IdNo>>,
        browser: Option<Word>,
    ) -> Result<RpReply, NoMemory>
        requires { last_moment (past_of self.now) ≤ entry.now.at }
        ensures { IfOk result (λ r. r ≡ spec.response_to self.now.setup (past_of self.now) entry.now heard.now id.now browser heard.now.state) }
    {
        if heard.state.is_none() {
            return Ok(RpReply::Refused { why: RpNo::NoState });
        }
        let Some(login) = self.live_login(entry.at, heard.state) else {
            return Ok(RpReply::Refused {
                why: RpNo::StaleLogin,
            });
        };
        if login.browser.is_presented(browser) {
            self.setup.reply_to_response(alloc, entry, login, heard, id)
        } else {
            Ok(RpReply::Refused {
                why: RpNo::WrongBrowser,
            })
        }
    }

    // The reply to an authorization response.
    pub(crate) fn callback(
        &self,
        alloc: Global,
        entry: &Entry<RpAsk>,
        heard: &Result<Heard, AnswerNo>,
        id: &Option<Result<IdClaims, IdNo>>,
        browser: Option<Word>,
    ) -> Result<RpReply, NoMemory>
        requires { last_moment (past_of self.now) ≤ entry.now.at }
        ensures { IfOk result (λ r. r ≡ spec.callback self.now.setup (past_of self.now) entry.now heard.now id.now browser) }
    {
        match heard {
            Ok(heard) => self.response(alloc, entry, heard, id, browser),
            Err(AnswerNo::Twice(name)) => Ok(RpReply::Refused {
                why: RpNo::Twice(name.copy(alloc)?),
            }),
            Err(AnswerNo::NoMemory) => Ok(RpReply::NotHere),
        }
    }
}

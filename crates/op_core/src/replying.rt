// The provider's replies, if no table were full.

ghost use Rattle.std.specs.Prelude.{◌≡◌, ◌<◌, ◌≤◌, true, false, IfOk, IfSome};
ghost use Rattle.std.specs.Option.{option_copied};
ghost use Rattle.sso_base.specs.Legal.{last_moment};
ghost use Rattle.op_exchange.specs.Asks.{is_prepared_wish, is_prepared_verdict};
ghost use Rattle.op_exchange.specs.declared.reply.OpReply.TheVariants as reply;
ghost use Rattle.client_registry.specs.Numbers.{is_user};
ghost use Rattle.op_tables.specs.Agreeing.{is_own_turn, is_own_session};
ghost use Rattle.op_core.specs.FormReplies.{consent_for};
ghost use Rattle.op_core.specs.Providing.{past_of};
ghost use Rattle.op_answer.specs.Replies as spec;
ghost use Rattle.op_answer.specs.Causes.{need_at_once};

use crate::authentications::authentication_of_session;
use crate::state::OpCore;
use auth_request::{PageNo, Verdict, Wish};
use code_grant::{SessionRow, TurnRow};
use oidc_words::{AuthError, Refusal};
use op_exchange::{OpAsk, OpReply};
use op_issue::issue;
use sso_base::{Entry, NoMemory, Word, copied_text};
use std::alloc::Global;
use user_interaction::{Need, Standing, decide, needed_scopes};

// Whether the presented session is the turn's.
fn is_turns(presented: Option<Word>, session: Option<Word>) -> bool
    ensures { result ≡ spec.is_turns presented session }
{
    match session {
        Some(word) => word.is_presented(presented),
        None => false,
    }
}

// The error response to a wish, with the session after a login.
fn refused(
    alloc: Global,
    wish: &Wish,
    code: AuthError,
    session: Option<Word>,
) -> Result<OpReply, NoMemory>
    ensures { IfOk result (λ r. r ≡ reply.Refused (spec.refusal_of wish.now code) session) }
{
    Ok(OpReply::Refused {
        refusal: Refusal {
            redirect: wish.redirect.copy(alloc)?,
            fragment: wish.types.is_in_fragment(),
            state: copied_text(alloc, &wish.state)?,
            code,
        },
        session,
    })
}

impl OpCore {
    // The successful response to a wish, for this session.
    fn answered(
        &self,
        alloc: Global,
        entry: &Entry<OpAsk>,
        wish: &Wish,
        session: &SessionRow,
        given: Option<Word>,
    ) -> Result<OpReply, NoMemory>
        requires wish { is_prepared_wish self.now.registry wish.now ≡ true }
        requires session { is_own_session self.now.registry session.now ≡ true }
        ensures { IfOk result (λ r. r ≡ spec.answered self.now.registry wish.now entry.now session.now given) }
    {
        let who = authentication_of_session(session);
        Ok(OpReply::Answered {
            answer: issue(alloc, &self.registry, wish, &who, entry.at, &entry.fresh)?,
            session: given,
        })
    }

    // The consent page of a wish.
    fn consent_page(
        &self,
        alloc: Global,
        wish: &Wish,
        turn: Word,
        browser: Word,
        given: Option<Word>,
    ) -> Result<OpReply, NoMemory>
        requires { is_prepared_wish self.now.registry wish.now ≡ true }
        ensures { IfOk result (λ r. r ≡ spec.consent_page self.now.registry wish.now turn browser given) }
    {
        Ok(OpReply::ConsentPage {
            turn,
            browser,
            session: given,
            client: self.registry.client(wish.client).id.copy(alloc)?,
            scopes: needed_scopes(wish),
        })
    }

    // The session that a wish comes with, and what its user has granted.
    fn standing(&self, wish: &Wish, in_turn: bool, session: &SessionRow) -> Standing
        requires wish { is_prepared_wish self.now.registry wish.now ≡ true }
        requires session { is_own_session self.now.registry session.now ≡ true }
        ensures { result ≡ spec.standing_of (past_of self.now) wish.now in_turn session.now }
    {
        Standing {
            user: session.user,
            auth_time: session.auth_time.seconds(),
            in_turn,
            agreed: false,
            granted: self.granted(session.user, wish.client),
        }
    }

    // What a wish needs from this session.
    fn needed(&self, entry: &Entry<OpAsk>, wish: &Wish, session: Option<&SessionRow>) -> Need
        requires wish { is_prepared_wish self.now.registry wish.now ≡ true }
        requires session { IfSome (option_copied session) (λ row. is_own_session self.now.registry row ≡ true) }
        ensures { result ≡ need_at_once self.now.registry (past_of self.now) entry.now wish.now (option_copied session.entry) }
    {
        match session {
            Some(session) => {
                let standing = self.standing(wish, false, session);
                decide(&self.registry, wish, Some(&standing), entry.at)
            }
            None => decide(&self.registry, wish, None, entry.at),
        }
    }

    // ---- an authorization request

    // The browser word of a new turn's page: the presented one if a live turn has it.
    fn page_browser(&self, entry: &Entry<OpAsk>, browser: Option<Word>) -> Word
        requires { last_moment (past_of self.now) ≤ entry.now.at }
        ensures { result ≡ spec.page_browser (past_of self.now) entry.now browser }
    {
        match browser {
            Some(browser) if self.has_turn_browser(entry.at, browser) => browser,
            _ => entry.fresh[0],
        }
    }

    // The reply to a wish with this need.
    fn authorize_by(
        &self,
        alloc: Global,
        entry: &Entry<OpAsk>,
        wish: &Wish,
        browser: Word,
        need: Need,
        session: Option<&SessionRow>,
    ) -> Result<OpReply, NoMemory>
        requires wish { is_prepared_wish self.now.registry wish.now ≡ true }
        requires session { IfSome (option_copied session) (λ row. is_own_session self.now.registry row ≡ true) }
        ensures { IfOk result (λ r. r ≡ spec.authorize_by self.now.registry entry.now wish.now browser need (option_copied session.entry)) }
    {
        match (need, session) {
            (Need::Error(code), _) => refused(alloc, wish, code, None),
            (Need::Consent, Some(_)) => {
                self.consent_page(alloc, wish, entry.fresh[1], browser, None)
            }
            (Need::Answer, Some(session)) => self.answered(alloc, entry, wish, session, None),
            _ => Ok(OpReply::LoginPage {
                turn: entry.fresh[1],
                browser,
                again: false,
            }),
        }
    }

    fn authorize_wish(
        &self,
        alloc: Global,
        entry: &Entry<OpAsk>,
        wish: &Wish,
        browser: Word,
        session: Option<&SessionRow>,
    ) -> Result<OpReply, NoMemory>
        requires wish { is_prepared_wish self.now.registry wish.now ≡ true }
        requires session { IfSome (option_copied session) (λ row. is_own_session self.now.registry row ≡ true) }
        ensures { IfOk result (λ r. r ≡ spec.authorize_wish self.now.registry (past_of self.now) entry.now wish.now browser (option_copied session.entry)) }
    {
        let need = self.needed(entry, wish, session);
        self.authorize_by(alloc, entry, wish, browser, need, session)
    }

    // The reply to an authorization request (OpenID Connect Core 1.0, 3.1.2).
    pub(crate) fn authorize(
        &self,
        alloc: Global,
        entry: &Entry<OpAsk>,
        verdict: &Verdict,
        browser: Option<Word>,
        session: Option<Word>,
    ) -> Result<OpReply, NoMemory>
        requires moment { last_moment (past_of self.now) ≤ entry.now.at }
        requires prepared { is_prepared_verdict self.now.registry verdict.now ≡ true }
        ensures { IfOk result (λ r. r ≡ spec.authorize self.now.registry (past_of self.now) entry.now verdict.now browser session) }
    {
        match verdict {
            Verdict::Page(why) => Ok(OpReply::ErrorPage { why: *why }),
            Verdict::Refuse(refusal) => Ok(OpReply::Refused {
                refusal: refusal.copy(alloc)?,
                session: None,
            }),
            Verdict::Grant(wish) => {
                let page_browser = self.page_browser(entry, browser);
                let session = self.live_session(entry.at, session);
                self.authorize_wish(alloc, entry, wish, page_browser, session)
            }
        }
    }

    // ---- a login form

    fn login_by(
        &self,
        alloc: Global,
        entry: &Entry<OpAsk>,
        turn: &TurnRow,
        session: &SessionRow,
        need: Need,
    ) -> Result<OpReply, NoMemory>
        requires turn { is_own_turn self.now.registry turn.now ≡ true }
        requires session { is_own_session self.now.registry session.now ≡ true }
        ensures { IfOk result (λ r. r ≡ spec.login_by self.now.registry entry.now turn.now session.now need) }
    {
        let wish = &turn.wish;
        let given = Some(session.word);
        match need {
            Need::Consent => self.consent_page(alloc, wish, turn.word, turn.browser, given),
            Need::Answer => self.answered(alloc, entry, wish, session, given),
            Need::Error(code) => refused(alloc, wish, code, given),
            Need::Login => refused(alloc, wish, AuthError::LoginRequired, given),
        }
    }

    fn login_session(
        &self,
        alloc: Global,
        entry: &Entry<OpAsk>,
        turn: &TurnRow,
        session: &SessionRow,
    ) -> Result<OpReply, NoMemory>
        requires turn { is_own_turn self.now.registry turn.now ≡ true }
        requires session { is_own_session self.now.registry session.now ≡ true }
        ensures { IfOk result (λ r. r ≡ spec.login_session self.now.registry (past_of self.now) entry.now turn.now session.now) }
    {
        let standing = self.standing(&turn.wish, true, session);
        let need = decide(&self.registry, &turn.wish, Some(&standing), entry.at);
        self.login_by(alloc, entry, turn, session, need)
    }

    // The reply to a login form.
    pub(crate) fn login(
        &self,
        alloc: Global,
        entry: &Entry<OpAsk>,
        turn: Option<&TurnRow>,
        signed: Option<u32>,
        browser: Option<Word>,
        presented: Option<Word>,
    ) -> Result<OpReply, NoMemory>
        requires moment { last_moment (past_of self.now) ≤ entry.now.at }
        requires turn { IfSome (option_copied turn) (λ row. is_own_turn self.now.registry row ≡ true) }
        requires signed { IfSome signed (λ user. is_user self.now.registry user ≡ true) }
        ensures { IfOk result (λ r. r ≡ spec.login self.now.registry (past_of self.now) entry.now (option_copied turn.entry) signed browser presented) }
    {
        let Some(turn) = turn else {
            return Ok(OpReply::ErrorPage { why: PageNo::Turn });
        };
        if !turn.browser.is_presented(browser) {
            return Ok(OpReply::ErrorPage {
                why: PageNo::Browser,
            });
        }
        let Some(user) = signed else {
            return Ok(OpReply::LoginPage {
                turn: turn.word,
                browser: turn.browser,
                again: true,
            });
        };
        let session = self.session_after(entry, user, presented);
        self.login_session(alloc, entry, turn, &session)
    }

    // ---- a consent form

    fn standing_agreed(&self, turn: &TurnRow, session: &SessionRow) -> Standing
        requires turn { is_own_turn self.now.registry turn.now ≡ true }
        requires session { is_own_session self.now.registry session.now ≡ true }
        ensures { result ≡ spec.standing_agreed (past_of self.now) turn.now session.now }
    {
        let granted = self.granted(session.user, turn.wish.client);
        Standing {
            user: session.user,
            auth_time: session.auth_time.seconds(),
            in_turn: turn.in_turn,
            agreed: true,
            granted: granted.joined(needed_scopes(&turn.wish)),
        }
    }

    fn consent_by(
        &self,
        alloc: Global,
        entry: &Entry<OpAsk>,
        turn: &TurnRow,
        session: &SessionRow,
        need: Need,
    ) -> Result<OpReply, NoMemory>
        requires turn { is_own_turn self.now.registry turn.now ≡ true }
        requires session { is_own_session self.now.registry session.now ≡ true }
        ensures { IfOk result (λ r. r ≡ spec.consent_by self.now.registry entry.now turn.now session.now need) }
    {
        let wish = &turn.wish;
        match need {
            Need::Answer => self.answered(alloc, entry, wish, session, None),
            Need::Error(code) => refused(alloc, wish, code, None),
            Need::Login => refused(alloc, wish, AuthError::LoginRequired, None),
            Need::Consent => refused(alloc, wish, AuthError::ConsentRequired, None),
        }
    }

    fn consent_agreed(
        &self,
        alloc: Global,
        entry: &Entry<OpAsk>,
        turn: &TurnRow,
        session: &SessionRow,
    ) -> Result<OpReply, NoMemory>
        requires turn { is_own_turn self.now.registry turn.now ≡ true }
        requires session { is_own_session self.now.registry session.now ≡ true }
        ensures { IfOk result (λ r. r ≡ spec.consent_agreed self.now.registry (past_of self.now) entry.now turn.now session.now) }
    {
        let standing = self.standing_agreed(turn, session);
        let need = decide(&self.registry, &turn.wish, Some(&standing), entry.at);
        self.consent_by(alloc, entry, turn, session, need)
    }

    // The reply to a consent form, from its turn and the live session of that turn.
    pub(crate) fn consent(
        &self,
        alloc: Global,
        entry: &Entry<OpAsk>,
        turn: Option<&TurnRow>,
        own: Option<&SessionRow>,
        agree: bool,
        browser: Option<Word>,
        presented: Option<Word>,
    ) -> Result<OpReply, NoMemory>
        requires turn { IfSome (option_copied turn) (λ row. is_own_turn self.now.registry row ≡ true) }
        requires own { IfSome (option_copied own) (λ row. is_own_session self.now.registry row ≡ true) }
        ensures { IfOk result (λ r. r
            ≡ consent_for self.now.registry (past_of self.now) entry.now (option_copied turn.entry) (option_copied own.entry) agree browser presented) }
    {
        let Some(turn) = turn else {
            return Ok(OpReply::ErrorPage { why: PageNo::Turn });
        };
        let Some(session) = own else {
            return Ok(OpReply::ErrorPage { why: PageNo::Turn });
        };
        if !turn.browser.is_presented(browser) || !is_turns(presented, turn.session) {
            return Ok(OpReply::ErrorPage {
                why: PageNo::Browser,
            });
        }
        if !agree {
            return refused(alloc, &turn.wish, AuthError::AccessDenied, None);
        }
        self.consent_agreed(alloc, entry, turn, session)
    }
}

// The rows that a reply makes. They need memory, so they are made before anything changes.

ghost use Rattle.std.specs.Prelude.{◌≡◌, ◌≤◌, IfOk, length, Some, option_and_then};
ghost use Rattle.std.specs.Option.{option_copied};
ghost use Rattle.sso_base.specs.Journal.{most_pairs};
ghost use Rattle.sso_base.specs.Legal.{last_moment};
ghost use Rattle.rp_login.specs.declared.rows.Stage.TheVariants as stage;
ghost use Rattle.rp_answer.specs.Answering.{rp_answer};
ghost use Rattle.rp_answer.specs.Asked as asked;
ghost use Rattle.rp_answer.specs.Logins as logins;
ghost use Rattle.rp_answer.specs.Pendings as pendings;
ghost use Rattle.rp_answer.specs.Deads as deads;
ghost use Rattle.rp_answer.specs.Seens as seens;
ghost use Rattle.rp_answer.specs.Visits as visits;
ghost use Rattle.rp_answer.specs.Setup.{party_of};
ghost use Rattle.rp_core.specs.Making as spec;
ghost use Rattle.rp_core.specs.Relying.{past_of, exchange_at};

use crate::state::RpCore;
use id_token::{IdClaims, IdNo};
use logout_token::LogoutClaims;
use oidc_words::Types;
use rp_exchange::{RpAsk, RpReply};
use rp_login::{DeadRow, LoginRow, PendingRow, SeenRow, SessionRow, Stage};
use sso_base::{Entry, Moment, NoMemory, Text, Word, copied_text};
use std::alloc::Global;

/// The rows that a reply makes: at most one of each kind.
#[derive(Drop)]
pub(crate) struct Made {
    pub login: Option<LoginRow>,
    pub pending: Option<PendingRow>,
    pub visit: Option<SessionRow>,
    pub seen: Option<SeenRow>,
    pub dead: Option<DeadRow>,
}

/// The state of an authorization response that can be read.
pub fn state_named(ask: &RpAsk) -> Option<Word>
    ensures { result ≡ asked.state_named ask.now }
{
    match ask {
        RpAsk::Callback {
            heard: Ok(heard),
            ..
        } => heard.state,
        _ => None,
    }
}

// The claims of the logout token that a reply accepts.
pub(crate) fn token_accepted<'a>(ask: &'a RpAsk, reply: &RpReply) -> Option<&'a LogoutClaims>
    ensures { option_copied result ≡ asked.token_accepted ask.now reply.now }
{
    match (ask, reply) {
        (RpAsk::Logout { claims: Ok(claims) }, RpReply::Ended { .. }) => Some(claims),
        _ => None,
    }
}

// A copy of the text, if it counts.
fn copied_if(alloc: Global, wanted: bool, text: &Option<Text>) -> Result<Option<Text>, NoMemory>
    ensures { IfOk result (λ t. t ≡ asked.if_wanted wanted text.now) }
{
    if wanted {
        copied_text(alloc, text)
    } else {
        Ok(None)
    }
}

// The code of an authorization response, if its type has one.
fn code_heard(alloc: Global, types: &Types, ask: &RpAsk) -> Result<Option<Text>, NoMemory>
    ensures { IfOk result (λ t. t ≡ asked.code_heard types.now ask.now) }
{
    match ask {
        RpAsk::Callback {
            heard: Ok(heard),
            ..
        } => copied_if(alloc, types.code, &heard.code),
        _ => Ok(None),
    }
}

// The claims of an ID Token, if it was read.
fn claims_read(id: &Option<Result<IdClaims, IdNo>>) -> Option<&IdClaims>
    ensures { option_copied result ≡ asked.claims_read id.now }
{
    match id {
        Some(Ok(claims)) => Some(claims),
        _ => None,
    }
}

// The claims of the ID Token that is verified.
pub(crate) fn claims_judged<'a>(types: &Types, ask: &'a RpAsk) -> Option<&'a IdClaims>
    ensures { option_copied result ≡ asked.claims_judged types.now ask.now }
{
    match ask {
        RpAsk::Callback { id, .. } => {
            if types.id_token {
                claims_read(id)
            } else {
                None
            }
        }
        RpAsk::Tokens { id, .. } => claims_read(id),
        _ => None,
    }
}

// The subject of claims.
fn sub_in(alloc: Global, claims: Option<&IdClaims>) -> Result<Option<Text>, NoMemory>
    ensures { IfOk result (λ t. t ≡ asked.sub_in (option_copied claims.entry)) }
{
    match claims {
        Some(claims) => Ok(Some(claims.sub.copy(alloc)?)),
        None => Ok(None),
    }
}

// The `sid` of claims.
fn sid_in(alloc: Global, claims: Option<&IdClaims>) -> Result<Option<Text>, NoMemory>
    ensures { IfOk result (λ t. t ≡ asked.sid_in (option_copied claims.entry)) }
{
    match claims {
        Some(claims) => copied_text(alloc, &claims.sid),
        None => Ok(None),
    }
}

// The pending exchange after the response of a login.
fn pending_started(
    alloc: Global,
    types: &Types,
    at: Moment,
    ask: &RpAsk,
    word: Word,
    waits: Stage,
    login: &LoginRow,
) -> Result<PendingRow, NoMemory>
    ensures { IfOk result (λ row. row ≡ pendings.pending_started types.now at ask.now word waits login.now) }
{
    let claims = claims_judged(types, ask);
    Ok(PendingRow {
        word,
        nonce: login.nonce,
        begun: login.begun,
        since: at,
        sub: sub_in(alloc, claims)?,
        sid: sid_in(alloc, claims)?,
        code: code_heard(alloc, types, ask)?,
        stage: waits,
        by: login.by,
    })
}

// The pending exchange after a token response: a UserInfo request, with the code of the earlier exchange.
fn pending_followed(
    alloc: Global,
    types: &Types,
    at: Moment,
    ask: &RpAsk,
    word: Word,
    before: &PendingRow,
) -> Result<PendingRow, NoMemory>
    ensures { IfOk result (λ row. row ≡ pendings.pending_followed types.now at ask.now word before.now) }
{
    let claims = claims_judged(types, ask);
    Ok(PendingRow {
        word,
        nonce: before.nonce,
        begun: before.begun,
        since: at,
        sub: sub_in(alloc, claims)?,
        sid: sid_in(alloc, claims)?,
        code: copied_text(alloc, &before.code)?,
        stage: Stage::Info,
        by: before.by,
    })
}

// The session for these claims.
fn visit_of(
    alloc: Global,
    at: Moment,
    word: Word,
    nonce: Word,
    claims: &IdClaims,
) -> Result<SessionRow, NoMemory>
    ensures { IfOk result (λ row. row ≡ visits.visit_of at word nonce claims.now) }
{
    Ok(SessionRow {
        word,
        nonce,
        sub: claims.sub.copy(alloc)?,
        sid: copied_text(alloc, &claims.sid)?,
        entered: at,
    })
}

// The session after UserInfo, with the subject and `sid` of the earlier ID Token.
fn visit_after(
    alloc: Global,
    at: Moment,
    word: Word,
    pending: &PendingRow,
) -> Result<Option<SessionRow>, NoMemory>
    ensures { IfOk result (λ row. row ≡ visits.visit_after at word pending.now) }
{
    match &pending.sub {
        Some(sub) => Ok(Some(SessionRow {
            word,
            nonce: pending.nonce,
            sub: sub.copy(alloc)?,
            sid: copied_text(alloc, &pending.sid)?,
            entered: at,
        })),
        None => Ok(None),
    }
}

// The record of a session identifier.
fn dead_at(alloc: Global, place: u64, at: Moment, sid: &Text) -> Result<DeadRow, NoMemory>
    ensures { IfOk result (λ row. row ≡ record { sid = sid.now; place = place; accepted = at }) }
{
    Ok(DeadRow {
        sid: sid.copy(alloc)?,
        place,
        accepted: at,
    })
}

impl RpCore {
    // The index of the next pair in the history, counted from 0.
    #[tactic(auto, using(crate::proofs::Places::as_long))]
    fn place(&self) -> u64
        ensures place { result ≡ length (past_of self.now) }
        ensures few { result ≤ most_pairs }
    {
        self.journal.count()
    }

    // The login that an authorization request begins.
    fn login_started(&self, entry: &Entry<RpAsk>, reply: &RpReply) -> Option<LoginRow>
        ensures { result ≡ logins.login_started (length (past_of self.now)) entry.now.at entry.now.fresh entry.now.ask reply.now }
    {
        match (&entry.ask, reply) {
            (RpAsk::Begin { .. }, RpReply::Ask { browser, .. }) => Some(LoginRow {
                state: entry.fresh[1],
                nonce: entry.fresh[2],
                browser: *browser,
                begun: entry.at,
                by: self.place(),
            }),
            _ => None,
        }
    }

    // The pending exchange after the response of the live login.
    fn started_found(
        &self,
        alloc: Global,
        entry: &Entry<RpAsk>,
        word: Word,
        waits: Stage,
    ) -> Result<Option<PendingRow>, NoMemory>
        requires { last_moment (past_of self.now) ≤ entry.now.at }
        ensures { IfOk result (λ row. row ≡ spec.started_found (party_of self.now.setup).types (past_of self.now) entry.now word waits) }
    {
        let Some(login) = self.live_login(entry.at, state_named(&entry.ask)) else {
            return Ok(None);
        };
        let types = &self.setup.party().types;
        let row = pending_started(alloc, types, entry.at, &entry.ask, word, waits, login)?;
        Ok(Some(row))
    }

    // The pending exchange after the token response to the live exchange with this word.
    fn followed_found(
        &self,
        alloc: Global,
        entry: &Entry<RpAsk>,
        answered: Word,
        word: Word,
    ) -> Result<Option<PendingRow>, NoMemory>
        requires { last_moment (past_of self.now) ≤ entry.now.at }
        ensures { IfOk result (λ row. row ≡ spec.followed_found (party_of self.now.setup).types (past_of self.now) entry.now answered word) }
    {
        let Some(before) = self.live_pending(entry.at, answered, Stage::Tokens) else {
            return Ok(None);
        };
        let types = &self.setup.party().types;
        let row = pending_followed(alloc, types, entry.at, &entry.ask, word, before)?;
        Ok(Some(row))
    }

    // The pending exchange of a UserInfo request.
    fn fetched_found(
        &self,
        alloc: Global,
        entry: &Entry<RpAsk>,
        word: Word,
    ) -> Result<Option<PendingRow>, NoMemory>
        requires { last_moment (past_of self.now) ≤ entry.now.at }
        ensures { IfOk result (λ row. row ≡ spec.fetched_found (party_of self.now.setup).types (past_of self.now) entry.now word entry.now.ask) }
    {
        match &entry.ask {
            RpAsk::Tokens { pending, .. } => self.followed_found(alloc, entry, *pending, word),
            _ => self.started_found(alloc, entry, word, Stage::Info),
        }
    }

    // The pending exchange that a reply makes.
    fn pending_found(
        &self,
        alloc: Global,
        entry: &Entry<RpAsk>,
        reply: &RpReply,
    ) -> Result<Option<PendingRow>, NoMemory>
        requires { last_moment (past_of self.now) ≤ entry.now.at }
        ensures { IfOk result (λ row. row ≡ spec.pending_found (party_of self.now.setup).types (past_of self.now) entry.now reply.now) }
    {
        match reply {
            RpReply::Exchange { pending, .. } => {
                self.started_found(alloc, entry, *pending, Stage::Tokens)
            }
            RpReply::Fetch { pending, .. } => self.fetched_found(alloc, entry, *pending),
            _ => Ok(None),
        }
    }

    // The nonce of the live login, or of the live exchange, that a request belongs to.
    fn nonce_found(&self, at: Moment, ask: &RpAsk) -> Option<Word>
        requires { last_moment (past_of self.now) ≤ at }
        ensures { (e : Entry RpAsk) → e.at ≡ at → result ≡ spec.nonce_found (party_of self.now.setup).types (past_of self.now) e ask.now }
    {
        match ask {
            RpAsk::Callback { .. } => match self.live_login(at, state_named(ask)) {
                Some(login) => Some(login.nonce),
                None => None,
            },
            RpAsk::Tokens { pending, .. } => match self.live_pending(at, *pending, Stage::Tokens) {
                Some(row) => Some(row.nonce),
                None => None,
            },
            _ => None,
        }
    }

    // The session that begins after UserInfo.
    fn visit_of_info(
        &self,
        alloc: Global,
        at: Moment,
        word: Word,
        answered: Word,
    ) -> Result<Option<SessionRow>, NoMemory>
        requires { last_moment (past_of self.now) ≤ at }
        ensures { IfOk result (λ row. row ≡ option_and_then (visits.visit_after at word) (exchange_at self.now at answered stage.Info)) }
    {
        match self.live_pending(at, answered, Stage::Info) {
            Some(pending) => visit_after(alloc, at, word, pending),
            None => Ok(None),
        }
    }

    // The session that begins with the claims of its request.
    fn visit_of_claims(
        &self,
        alloc: Global,
        entry: &Entry<RpAsk>,
        word: Word,
    ) -> Result<Option<SessionRow>, NoMemory>
        requires { last_moment (past_of self.now) ≤ entry.now.at }
        ensures { IfOk result (λ row. row ≡ spec.visit_judged (party_of self.now.setup).types (past_of self.now) entry.now word entry.now.ask) }
    {
        let Some(nonce) = self.nonce_found(entry.at, &entry.ask) else {
            return Ok(None);
        };
        let Some(claims) = claims_judged(&self.setup.party().types, &entry.ask) else {
            return Ok(None);
        };
        Ok(Some(visit_of(alloc, entry.at, word, nonce, claims)?))
    }

    // The session that a request begins.
    fn visit_in(
        &self,
        alloc: Global,
        entry: &Entry<RpAsk>,
        word: Word,
    ) -> Result<Option<SessionRow>, NoMemory>
        requires { last_moment (past_of self.now) ≤ entry.now.at }
        ensures { IfOk result (λ row. row ≡ spec.visit_in (party_of self.now.setup).types (past_of self.now) entry.now word entry.now.ask) }
    {
        match &entry.ask {
            RpAsk::Info { pending, .. } => self.visit_of_info(alloc, entry.at, word, *pending),
            _ => self.visit_of_claims(alloc, entry, word),
        }
    }

    // The session that begins with this reply.
    fn visit_found(
        &self,
        alloc: Global,
        entry: &Entry<RpAsk>,
        reply: &RpReply,
    ) -> Result<Option<SessionRow>, NoMemory>
        requires { last_moment (past_of self.now) ≤ entry.now.at }
        ensures { IfOk result (λ row. row ≡ spec.visit_found (party_of self.now.setup).types (past_of self.now) entry.now reply.now) }
    {
        match reply {
            RpReply::Entered { session, .. } => self.visit_in(alloc, entry, *session),
            _ => Ok(None),
        }
    }

    // The record of a logout token that is accepted.
    fn seen_accepted(
        &self,
        alloc: Global,
        entry: &Entry<RpAsk>,
        reply: &RpReply,
    ) -> Result<Option<SeenRow>, NoMemory>
        ensures { IfOk result (λ row. row ≡ seens.seen_by (length (past_of self.now)) entry.now.at entry.now.ask reply.now) }
    {
        match token_accepted(&entry.ask, reply) {
            Some(claims) => Ok(Some(SeenRow {
                jti: claims.jti.copy(alloc)?,
                place: self.place() + 1,
                accepted: entry.at,
            })),
            None => Ok(None),
        }
    }

    // The record of the session identifier that an accepted logout token has.
    fn dead_named(
        &self,
        alloc: Global,
        entry: &Entry<RpAsk>,
        reply: &RpReply,
    ) -> Result<Option<DeadRow>, NoMemory>
        ensures { IfOk result (λ row. row ≡ deads.dead_by (length (past_of self.now)) entry.now.at entry.now.ask reply.now) }
    {
        let Some(claims) = token_accepted(&entry.ask, reply) else {
            return Ok(None);
        };
        match &claims.sid {
            Some(sid) => Ok(Some(dead_at(alloc, self.place() + 1, entry.at, sid)?)),
            None => Ok(None),
        }
    }

    /// The rows that a reply makes, if it is the party's answer.
    pub(crate) fn made(
        &self,
        alloc: Global,
        entry: &Entry<RpAsk>,
        reply: &RpReply,
    ) -> Result<Made, NoMemory>
        requires moment { last_moment (past_of self.now) ≤ entry.now.at }
        requires answer { reply.now ≡ rp_answer self.now.setup (past_of self.now) entry.now }
        ensures { IfOk result (λ m. spec.AreMade (party_of self.now.setup).types (past_of self.now) (record { entry = entry.now; reply = reply.now }) m) }
    {
        Ok(Made {
            login: self.login_started(entry, reply),
            pending: self.pending_found(alloc, entry, reply)?,
            visit: self.visit_found(alloc, entry, reply)?,
            seen: self.seen_accepted(alloc, entry, reply)?,
            dead: self.dead_named(alloc, entry, reply)?,
        })
    }
}

// The rows that a request and its reply make. They need memory, so they are made before anything changes.

ghost use Rattle.std.specs.Prelude.{◌≡◌, ◌<◌, ◌≤◌, true, false, length, IfOk, IfSome, option_map};
ghost use Rattle.std.specs.Option.{option_copied};
ghost use Rattle.sso_base.specs.Legal.{last_moment};
ghost use Rattle.code_grant.specs.declared.rows.TurnRow.{TurnRow};
ghost use Rattle.op_exchange.specs.Asks.{is_prepared, is_prepared_wish};
ghost use Rattle.op_exchange.specs.Replied.{code_in};
ghost use Rattle.client_registry.specs.Numbers.{is_user};
ghost use Rattle.op_core.specs.Providing.{past_of};
ghost use Rattle.op_tables.specs.Agreeing.{is_own_turn, is_own_session, is_own_code, is_own_token};
ghost use Rattle.op_core.specs.Making as spec;
ghost use Rattle.op_answer.specs.Turns as turns;
ghost use Rattle.op_answer.specs.Sessions as sessions;
ghost use Rattle.op_answer.specs.Codes as codes;
ghost use Rattle.op_answer.specs.AccessTokens as tokens;
ghost use Rattle.op_answer.specs.Replies.{session_after};

use crate::state::OpCore;
use auth_request::{Verdict, Wish};
use client_registry::ClientSet;
use code_grant::{CodeRow, SessionRow, TokenRow, TurnRow};
use op_exchange::{OpAsk, OpReply};
use op_tables::{Made, session_set};
use sso_base::{Entry, Moment, NoMemory, Word};
use std::alloc::Global;
use token_endpoint::Grant;

// A turn that begins with a page.
fn turn_begun(
    alloc: Global,
    at: Moment,
    word: Word,
    browser: Word,
    wish: &Wish,
    session: Option<Word>,
) -> Result<TurnRow, NoMemory>
    ensures { IfOk result (λ row. row ≡ record { word = word; browser = browser; wish = wish.now; session = session; in_turn = false; begun = at }) }
{
    Ok(TurnRow {
        word,
        browser,
        wish: wish.copy(alloc)?,
        session,
        in_turn: false,
        begun: at,
    })
}

// The session, with the client that the reply answers.
fn session_with(client: Option<u32>, session: &SessionRow) -> SessionRow
    requires { IfSome client (λ n. n < 128) }
    ensures { result ≡ spec.session_with client session.now }
{
    let mut row = *session;
    if let Some(client) = client {
        row.clients.add(client);
    }
    row
}

// A code for this wish and session.
fn code_issued(
    alloc: Global,
    by: u64,
    at: Moment,
    word: Word,
    wish: &Wish,
    session: &SessionRow,
) -> Result<CodeRow, NoMemory>
    ensures { IfOk result (λ row. row ≡ codes.code_issued by at word wish.now session.now) }
{
    Ok(CodeRow {
        word,
        wish: wish.copy(alloc)?,
        user: session.user,
        sid: session.sid,
        auth_time: session.auth_time,
        issued: at,
        spent: false,
        by,
    })
}

// An access token for this wish and user.
fn access_issued(
    alloc: Global,
    by: u64,
    at: Moment,
    word: Word,
    code: Option<Word>,
    wish: &Wish,
    user: u32,
) -> Result<TokenRow, NoMemory>
    ensures { IfOk result (λ row. row ≡ tokens.access_issued by at word code wish.now user) }
{
    Ok(TokenRow {
        word,
        client: wish.client,
        user,
        scopes: wish.scopes,
        asked: wish.info_asked.copy(alloc)?,
        code,
        issued: at,
        by,
    })
}

impl OpCore {
    // The index of the next pair in the history.
    #[tactic(auto, using(crate::proofs::Places::as_long))]
    fn place(&self) -> u64
        ensures { result ≡ length (past_of self.now) }
    {
        self.journal.count()
    }

    // Each registry has at most 128 clients and 512 users.
    #[tactic(auto, using(crate::proofs::Ranges::client_in_range))]
    fn bound_client(&self, wish: &Wish)
        requires { is_prepared_wish self.now.registry wish.now ≡ true }
        ensures { wish.now.client < 128 }
    {
        // The contract of `clients` states the invariant of every registry.
        let _clients = self.registry.clients();
    }

    #[tactic(auto, using(crate::proofs::Ranges::user_in_range))]
    fn bound_user(&self, user: u32)
        requires { is_user self.now.registry user ≡ true }
        ensures { user < 512 }
    {
        let _users = self.registry.users();
    }

    // ---- the wish, the session and the client of a reply

    // The live turn of a login form or a consent form.
    pub(crate) fn turn_found(&self, entry: &Entry<OpAsk>) -> Option<&TurnRow>
        requires { last_moment (past_of self.now) ≤ entry.now.at }
        ensures row { option_copied result ≡ spec.turn_found (past_of self.now) entry.now.at entry.now.ask }
        ensures own { IfSome (option_copied result) (λ row. is_own_turn self.now.registry row ≡ true) }
    {
        match &entry.ask {
            OpAsk::Login { turn, .. } => self.live_turn(entry.at, *turn),
            OpAsk::Consent { turn, .. } => self.live_turn(entry.at, *turn),
            _ => None,
        }
    }

    // The live session of a turn.
    pub(crate) fn session_of_turn(&self, at: Moment, turn: Option<&TurnRow>) -> Option<&SessionRow>
        requires { last_moment (past_of self.now) ≤ at }
        ensures row { option_copied result ≡ spec.session_of_turn (past_of self.now) at (option_copied turn.entry) }
        ensures own { IfSome (option_copied result) (λ row. is_own_session self.now.registry row ≡ true) }
    {
        let Some(turn) = turn else {
            return None;
        };
        self.live_session(at, turn.session)
    }

    // The wish of a turn.
    fn turn_wish<'a>(&self, turn: Option<&'a TurnRow>) -> Option<&'a Wish>
        requires { IfSome (option_copied turn) (λ row. is_own_turn self.now.registry row ≡ true) }
        ensures wish { option_copied result ≡ option_map (λ (row : TurnRow). row.wish) (option_copied turn.entry) }
        ensures own { IfSome (option_copied result) (λ wish. is_prepared_wish self.now.registry wish ≡ true) }
    {
        match turn {
            Some(row) => Some(&row.wish),
            None => None,
        }
    }

    // The wish of the request, or of the turn of its form.
    pub(crate) fn wish_for<'a>(&self, ask: &'a OpAsk, turn: Option<&'a TurnRow>) -> Option<&'a Wish>
        requires prepared { is_prepared self.now.registry ask.now ≡ true }
        requires turn { IfSome (option_copied turn) (λ row. is_own_turn self.now.registry row ≡ true) }
        ensures wish { option_copied result ≡ spec.wish_for ask.now (option_copied turn.entry) }
        ensures own { IfSome (option_copied result) (λ wish. is_prepared_wish self.now.registry wish ≡ true) }
    {
        match ask {
            OpAsk::Authorize {
                verdict: Verdict::Grant(wish),
                ..
            } => Some(wish),
            OpAsk::Login { .. } => self.turn_wish(turn),
            OpAsk::Consent { .. } => self.turn_wish(turn),
            _ => None,
        }
    }

    // The presented session with a new time, if it is live and of this user; otherwise a new one.
    pub(crate) fn session_after(
        &self,
        entry: &Entry<OpAsk>,
        user: u32,
        presented: Option<Word>,
    ) -> SessionRow
        requires moment { last_moment (past_of self.now) ≤ entry.now.at }
        requires user { is_user self.now.registry user ≡ true }
        ensures row { result ≡ session_after (past_of self.now) entry.now user presented }
        ensures own { is_own_session self.now.registry result ≡ true }
    {
        match self.live_session(entry.at, presented) {
            Some(session) if session.user == user => SessionRow {
                auth_time: entry.at,
                ..*session
            },
            _ => SessionRow {
                word: entry.fresh[0],
                sid: entry.fresh[1],
                user,
                auth_time: entry.at,
                clients: ClientSet::new(),
            },
        }
    }

    // The live session that was presented, the one after a correct password, or that of the turn of the form.
    pub(crate) fn session_for(
        &self,
        entry: &Entry<OpAsk>,
        own: Option<&SessionRow>,
    ) -> Option<SessionRow>
        requires moment { last_moment (past_of self.now) ≤ entry.now.at }
        requires prepared { is_prepared self.now.registry entry.now.ask ≡ true }
        requires own { IfSome (option_copied own) (λ row. is_own_session self.now.registry row ≡ true) }
        ensures row { result ≡ spec.session_for (past_of self.now) entry.now entry.now.ask (option_copied own.entry) }
        ensures own { IfSome result (λ row. is_own_session self.now.registry row ≡ true) }
    {
        match &entry.ask {
            OpAsk::Authorize { session, .. } => self.live_session(entry.at, *session).copied(),
            OpAsk::Login {
                signed: Some(user),
                session,
                ..
            } => Some(self.session_after(entry, *user, *session)),
            OpAsk::Consent { .. } => own.copied(),
            _ => None,
        }
    }

    // The client that the reply answers, with this wish.
    pub(crate) fn client_for(&self, reply: &OpReply, wish: Option<&Wish>) -> Option<u32>
        requires { IfSome (option_copied wish) (λ w. is_prepared_wish self.now.registry w ≡ true) }
        ensures client { result ≡ sessions.client_of_wish (sessions.is_answered reply.now) (option_copied wish.entry) }
        ensures in_range { IfSome result (λ client. client < 128) }
    {
        let OpReply::Answered { .. } = reply else {
            return None;
        };
        let wish = wish?;
        self.bound_client(wish);
        Some(wish.client)
    }

    // ---- the rows

    // The turn of an authorization request that gets a page.
    fn turn_put(
        &self,
        alloc: Global,
        entry: &Entry<OpAsk>,
        reply: &OpReply,
    ) -> Result<Option<TurnRow>, NoMemory>
        requires { is_prepared self.now.registry entry.now.ask ≡ true }
        ensures row { IfOk result (λ row. row ≡ turns.turn_started entry.now.at entry.now.ask reply.now) }
        ensures own { IfOk result (λ row. IfSome row (λ turn. is_own_turn self.now.registry turn ≡ true)) }
        ensures client { IfOk result (λ row. IfSome row (λ turn. turn.wish.client < 128)) }
    {
        let OpAsk::Authorize {
            verdict: Verdict::Grant(wish),
            session: presented,
            ..
        } = &entry.ask
        else {
            return Ok(None);
        };
        let (word, browser, session) = match reply {
            OpReply::LoginPage { turn, browser, .. } => (*turn, *browser, None),
            OpReply::ConsentPage { turn, browser, .. } => (*turn, *browser, *presented),
            _ => return Ok(None),
        };
        self.bound_client(wish);
        let turn = turn_begun(alloc, entry.at, word, browser, wish, session)?;
        Ok(Some(turn))
    }

    // The session after a login whose reply sets a session word, with the client that the reply answers.
    fn session_put(
        &self,
        entry: &Entry<OpAsk>,
        reply: &OpReply,
        client: Option<u32>,
    ) -> Option<SessionRow>
        requires moment { last_moment (past_of self.now) ≤ entry.now.at }
        requires prepared { is_prepared self.now.registry entry.now.ask ≡ true }
        requires client { IfSome client (λ n. n < 128) }
        ensures row { result ≡ spec.session_put_by (past_of self.now) entry.now client entry.now.ask (sessions.session_set entry.now.ask reply.now) }
        ensures own { IfSome result (λ row. is_own_session self.now.registry row ≡ true) }
        ensures in_range { IfSome result (λ row. row.user < 512) }
    {
        let OpAsk::Login {
            signed: Some(user),
            session: presented,
            ..
        } = &entry.ask
        else {
            return None;
        };
        session_set(&entry.ask, reply)?;
        let session = self.session_after(entry, *user, *presented);
        self.bound_user(session.user);
        Some(session_with(client, &session))
    }

    // The code of a response, for this wish and session.
    fn code_put(
        &self,
        alloc: Global,
        at: Moment,
        reply: &OpReply,
        wish: Option<&Wish>,
        session: &Option<SessionRow>,
    ) -> Result<Option<CodeRow>, NoMemory>
        requires wish { IfSome (option_copied wish) (λ w. is_prepared_wish self.now.registry w ≡ true) }
        requires session { IfSome session.now (λ row. is_own_session self.now.registry row ≡ true) }
        ensures row { IfOk result (λ row. row ≡ codes.code_made_by (length (past_of self.now)) at (code_in reply.now) (option_copied wish.entry) session.now) }
        ensures own { IfOk result (λ row. IfSome row (λ code. is_own_code self.now.registry code ≡ true)) }
        ensures user { IfOk result (λ row. IfSome row (λ code. code.user < 512)) }
        ensures client { IfOk result (λ row. IfSome row (λ code. code.wish.client < 128)) }
    {
        let Some(word) = reply.code() else {
            return Ok(None);
        };
        let Some(wish) = wish else {
            return Ok(None);
        };
        let Some(session) = session else {
            return Ok(None);
        };
        self.bound_client(wish);
        self.bound_user(session.user);
        let code = code_issued(alloc, self.place(), at, word, wish, session)?;
        Ok(Some(code))
    }

    // An access token for this wish and user of the registry.
    #[tactic(auto, using(crate::proofs::Ranges::token_is_own))]
    fn access_made(
        &self,
        alloc: Global,
        at: Moment,
        word: Word,
        code: Option<Word>,
        wish: &Wish,
        user: u32,
    ) -> Result<TokenRow, NoMemory>
        requires wish { is_prepared_wish self.now.registry wish.now ≡ true }
        requires user { is_user self.now.registry user ≡ true }
        ensures row { IfOk result (λ row. row ≡ tokens.access_issued (length (past_of self.now)) at word code wish.now user) }
        ensures own { IfOk result (λ row. is_own_token self.now.registry row ≡ true) }
        ensures user { IfOk result (λ row. row.user < 512) }
        ensures client { IfOk result (λ row. row.client < 128) }
    {
        self.bound_client(wish);
        self.bound_user(user);
        access_issued(alloc, self.place(), at, word, code, wish, user)
    }

    // The access token issued for a code.
    fn access_redeemed(
        &self,
        alloc: Global,
        at: Moment,
        word: Word,
        grant: &Grant,
    ) -> Result<Option<TokenRow>, NoMemory>
        requires { last_moment (past_of self.now) ≤ at }
        ensures row { IfOk result (λ row. row ≡ spec.access_for_code (past_of self.now) at word grant.now.code) }
        ensures own { IfOk result (λ row. IfSome row (λ token. is_own_token self.now.registry token ≡ true)) }
        ensures user { IfOk result (λ row. IfSome row (λ token. token.user < 512)) }
        ensures client { IfOk result (λ row. IfSome row (λ token. token.client < 128)) }
    {
        let Some(code) = self.held_code(at, Word::read(grant.code.as_str().as_bytes())) else {
            return Ok(None);
        };
        let from = Some(code.word);
        let token = self.access_made(alloc, at, word, from, &code.wish, code.user)?;
        Ok(Some(token))
    }

    // The access token of an authorization response, for this wish and session.
    fn access_answered(
        &self,
        alloc: Global,
        at: Moment,
        word: Option<Word>,
        wish: Option<&Wish>,
        session: &Option<SessionRow>,
    ) -> Result<Option<TokenRow>, NoMemory>
        requires wish { IfSome (option_copied wish) (λ w. is_prepared_wish self.now.registry w ≡ true) }
        requires session { IfSome session.now (λ row. is_own_session self.now.registry row ≡ true) }
        ensures row { IfOk result (λ row. row ≡ tokens.access_answered (length (past_of self.now)) at word (option_copied wish.entry) session.now) }
        ensures own { IfOk result (λ row. IfSome row (λ token. is_own_token self.now.registry token ≡ true)) }
        ensures user { IfOk result (λ row. IfSome row (λ token. token.user < 512)) }
        ensures client { IfOk result (λ row. IfSome row (λ token. token.client < 128)) }
    {
        let Some(word) = word else {
            return Ok(None);
        };
        let Some(wish) = wish else {
            return Ok(None);
        };
        let Some(session) = session else {
            return Ok(None);
        };
        let token = self.access_made(alloc, at, word, None, wish, session.user)?;
        Ok(Some(token))
    }

    // The access token of an authorization response or of a token response.
    fn access_put(
        &self,
        alloc: Global,
        entry: &Entry<OpAsk>,
        reply: &OpReply,
        wish: Option<&Wish>,
        session: &Option<SessionRow>,
    ) -> Result<Option<TokenRow>, NoMemory>
        requires moment { last_moment (past_of self.now) ≤ entry.now.at }
        requires wish { IfSome (option_copied wish) (λ w. is_prepared_wish self.now.registry w ≡ true) }
        requires session { IfSome session.now (λ row. is_own_session self.now.registry row ≡ true) }
        ensures row { IfOk result (λ row. row
            ≡ spec.access_put_by (past_of self.now) entry.now entry.now.ask reply.now (option_copied wish.entry) session.now) }
        ensures own { IfOk result (λ row. IfSome row (λ token. is_own_token self.now.registry token ≡ true)) }
        ensures user { IfOk result (λ row. IfSome row (λ token. token.user < 512)) }
        ensures client { IfOk result (λ row. IfSome row (λ token. token.client < 128)) }
    {
        match reply {
            OpReply::Tokens { access, .. } => match &entry.ask {
                OpAsk::Token { grant: Ok(grant) } => {
                    self.access_redeemed(alloc, entry.at, *access, grant)
                }
                _ => Ok(None),
            },
            OpReply::Answered { answer, .. } => {
                self.access_answered(alloc, entry.at, answer.access, wish, session)
            }
            _ => Ok(None),
        }
    }

    /// The rows that a possible request and its reply make, from the wish and the session that were found and the client that
    /// the reply answers.
    pub(crate) fn made(
        &self,
        alloc: Global,
        entry: &Entry<OpAsk>,
        reply: &OpReply,
        wish: Option<&Wish>,
        session: &Option<SessionRow>,
        client: Option<u32>,
    ) -> Result<Made, NoMemory>
        requires moment { last_moment (past_of self.now) ≤ entry.now.at }
        requires prepared { is_prepared self.now.registry entry.now.ask ≡ true }
        requires wish { IfSome (option_copied wish) (λ w. is_prepared_wish self.now.registry w ≡ true) }
        requires session { IfSome session.now (λ row. is_own_session self.now.registry row ≡ true) }
        requires client { IfSome client (λ n. n < 128) }
        ensures turn { IfOk result (λ m. m.turn ≡ turns.turn_started entry.now.at entry.now.ask reply.now) }
        ensures session { IfOk result (λ m. m.session
            ≡ spec.session_put_by (past_of self.now) entry.now client entry.now.ask (sessions.session_set entry.now.ask reply.now)) }
        ensures code { IfOk result (λ m. m.code
            ≡ codes.code_made_by (length (past_of self.now)) entry.now.at (code_in reply.now) (option_copied wish.entry) session.now) }
        ensures token { IfOk result (λ m. m.token
            ≡ spec.access_put_by (past_of self.now) entry.now entry.now.ask reply.now (option_copied wish.entry) session.now) }
        ensures own_turn { IfOk result (λ m. IfSome m.turn (λ row. is_own_turn self.now.registry row ≡ true)) }
        ensures own_session { IfOk result (λ m. IfSome m.session (λ row. is_own_session self.now.registry row ≡ true)) }
        ensures own_code { IfOk result (λ m. IfSome m.code (λ row. is_own_code self.now.registry row ≡ true)) }
        ensures own_token { IfOk result (λ m. IfSome m.token (λ row. is_own_token self.now.registry row ≡ true)) }
        ensures turn_client { IfOk result (λ m. IfSome m.turn (λ row. row.wish.client < 128)) }
        ensures session_user { IfOk result (λ m. IfSome m.session (λ row. row.user < 512)) }
        ensures code_user { IfOk result (λ m. IfSome m.code (λ row. row.user < 512)) }
        ensures code_client { IfOk result (λ m. IfSome m.code (λ row. row.wish.client < 128)) }
        ensures token_user { IfOk result (λ m. IfSome m.token (λ row. row.user < 512)) }
        ensures token_client { IfOk result (λ m. IfSome m.token (λ row. row.client < 128)) }
    {
        Ok(Made {
            turn: self.turn_put(alloc, entry, reply)?,
            session: self.session_put(entry, reply, client),
            code: self.code_put(alloc, entry.at, reply, wish, session)?,
            token: self.access_put(alloc, entry, reply, wish, session)?,
        })
    }
}

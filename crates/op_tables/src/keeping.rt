// The changes of a pair to the tables, so that they stay in agreement with the past. They allocate nothing.

ghost use Rattle.std.specs.Prelude.{◌≡◌, ◌<◌, filter_map, Some, IfSome};
ghost use Rattle.std.specs.Option.{option_copied};
ghost use Rattle.sso_base.specs.Words.{Word, word_of_text};
ghost use Rattle.sso_base.specs.Rows.{put};
ghost use Rattle.held_rows.specs.Held.{MayAddRow};
ghost use Rattle.code_grant.specs.Rows.{turn_name, turn_begun, session_name, session_begun, code_name, code_begun, access_name, access_begun};
ghost use Rattle.op_answer.specs.Past.{OpPast};
ghost use Rattle.op_answer.specs.Turns as turns;
ghost use Rattle.op_answer.specs.Sessions as sessions;
ghost use Rattle.op_tables.specs.Keeping as spec;

use code_grant::{CodeRow, Grants, SessionRow, TokenRow, TurnRow};
use oidc_words::Scopes;
use op_exchange::{OpAsk, OpReply};
use sso_base::{Moment, Pair, Word};
use token_endpoint::Grant;
use user_interaction::needed_scopes;

// ---- turns

// The turn that a form was posted for.
fn turn_named(ask: &OpAsk) -> Option<Word>
    ensures { result ≡ turns.turn_named ask.now }
{
    match ask {
        OpAsk::Login { turn, .. } | OpAsk::Consent { turn, .. } => *turn,
        _ => None,
    }
}

// The session that a consent page after a login gives to its turn.
fn session_taken(ask: &OpAsk, reply: &OpReply) -> Option<Word>
    ensures { result ≡ spec.session_taken ask.now reply.now }
{
    match (ask, reply) {
        (OpAsk::Login { .. }, OpReply::ConsentPage { session, .. }) => *session,
        _ => None,
    }
}

fn move_turn(grants: &mut Grants, turn: Option<Word>, ends: bool, taken: Option<Word>)
    ensures { grants.new ≡ spec.turn_moved turn ends taken grants.old }
{
    let Some(turn) = turn else {
        return;
    };
    if ends {
        grants.end_turn(turn);
    } else if let Some(session) = taken {
        grants.set_turn(turn, session, true);
    }
}

/// Updates the turns with the pair. The turn of a form ends if the form got an authorization response. After a consent page it
/// has the session of the login.
pub(crate) fn keep_turns(grants: &mut Grants, pair: &Pair<OpAsk, OpReply>)
    ensures { (past : OpPast) → grants.new ≡ record grants.old { turns = filter_map (turns.turn_kept past pair.now) grants.old.turns } }
{
    let turn = turn_named(&pair.entry.ask);
    let taken = session_taken(&pair.entry.ask, &pair.reply);
    move_turn(grants, turn, pair.reply.ends_turn(), taken);
}

// ---- sessions

/// The word of the session after a login with a correct password.
pub fn session_set(ask: &OpAsk, reply: &OpReply) -> Option<Word>
    ensures { result ≡ sessions.session_set ask.now reply.now }
{
    match ask {
        OpAsk::Login { .. } => reply.session_given(),
        _ => None,
    }
}

// The presented session, if the login gives another.
fn session_replaced(presented: &Option<Word>, left: &Option<Word>) -> Option<Word>
    ensures { result ≡ spec.session_replaced presented.now left.now }
{
    let (Some(presented), Some(left)) = (presented, left) else {
        return None;
    };
    if presented == left {
        return None;
    }
    Some(*presented)
}

// The session that a sign-out or a login ends.
fn session_ended(ask: &OpAsk, reply: &OpReply) -> Option<Word>
    ensures { result ≡ spec.session_ended ask.now reply.now }
{
    match ask {
        OpAsk::SignOut { session } => match reply {
            OpReply::SignedOut { .. } => *session,
            _ => None,
        },
        OpAsk::Login { session, .. } => session_replaced(session, &session_set(ask, reply)),
        _ => None,
    }
}

fn end_if(grants: &mut Grants, word: Option<Word>)
    ensures { grants.new ≡ spec.ended_if word grants.old }
{
    if let Some(word) = word {
        grants.end_session(word);
    }
}

fn visit_if(grants: &mut Grants, used: Option<Word>, client: Option<u32>)
    requires { IfSome client (λ n. n < 128) }
    ensures { grants.new ≡ spec.visited_if used client grants.old }
{
    if let (Some(used), Some(client)) = (used, client) {
        grants.visit(used, client);
    }
}

/// Updates the sessions with the pair. The presented session ends if a login gives another, or by a sign-out. The session that
/// the pair used gets the client that it answered.
pub(crate) fn keep_sessions(
    grants: &mut Grants,
    pair: &Pair<OpAsk, OpReply>,
    used: Option<Word>,
    client: Option<u32>,
)
    requires { IfSome client (λ n. n < 128) }
    ensures { spec.KeepsSessions grants.old grants.new pair.now used client }
{
    end_if(grants, session_ended(&pair.entry.ask, &pair.reply));
    visit_if(grants, used, client);
}

// ---- codes

// The token request that got tokens or an error response.
fn grant_answered<'a>(ask: &'a OpAsk, reply: &OpReply) -> Option<&'a Grant>
    ensures { option_copied result ≡ spec.grant_answered ask.now reply.now }
{
    let OpAsk::Token { grant: Ok(grant) } = ask else {
        return None;
    };
    match reply {
        OpReply::Tokens { .. } | OpReply::TokenRefused { .. } => Some(grant),
        _ => None,
    }
}

// Redeems a code. A text that is not a word's, or a client number that no code can have, changes nothing.
fn ask_code(grants: &mut Grants, grant: &Grant, at: Moment)
    ensures { grants.new ≡ spec.code_asked (word_of_text grant.now.code) grant.now at grants.old }
{
    let Some(code) = Word::read(grant.code.as_str().as_bytes()) else {
        return;
    };
    let _held = grants.code(code);
    if grant.client < 128 {
        let _ = grants.redeem(code, grant.client, grant.redirect.as_str().as_bytes(), at);
    }
}

/// Updates the codes and the access tokens with the pair. A token request that got tokens marks its code spent. One that found
/// its code spent removes the access tokens issued for it (RFC 6749, 4.1.2).
pub(crate) fn keep_codes(grants: &mut Grants, pair: &Pair<OpAsk, OpReply>)
    ensures { spec.KeepsCodes grants.old grants.new pair.now }
{
    if let Some(grant) = grant_answered(&pair.entry.ask, &pair.reply) {
        ask_code(grants, grant, pair.entry.at);
    }
}

// ---- new rows

fn put_turn(grants: &mut Grants, row: Option<TurnRow>)
    requires { IfSome row (λ r. MayAddRow turn_name turn_begun grants.old.reserved.turns grants.old.turns r × (r.wish.client < 128)) }
    ensures { grants.new ≡ spec.turn_put row grants.old }
{
    if let Some(row) = row {
        grants.start_turn(row);
    }
}

// The session with that word ends first.
fn put_session(grants: &mut Grants, row: Option<SessionRow>)
    requires { IfSome row (λ r. spec.MayPut session_name session_begun grants.old.reserved.sessions grants.old.sessions r × (r.user < 512)) }
    ensures { grants.new ≡ spec.session_put row grants.old }
{
    if let Some(row) = row {
        grants.end_session(row.word);
        grants.start_session(row);
    }
}

fn put_code(grants: &mut Grants, row: Option<CodeRow>)
    requires { IfSome row (λ r. MayAddRow code_name code_begun grants.old.reserved.codes grants.old.codes r × (r.user < 512) × (r.wish.client < 128)) }
    ensures { grants.new ≡ spec.code_put row grants.old }
{
    if let Some(row) = row {
        grants.issue_code(row);
    }
}

fn put_token(grants: &mut Grants, row: Option<TokenRow>)
    requires { IfSome row (λ r. MayAddRow access_name access_begun grants.old.reserved.tokens grants.old.tokens r × (r.user < 512) × (r.client < 128)) }
    ensures { grants.new ≡ spec.token_put row grants.old }
{
    if let Some(row) = row {
        grants.issue_token(row);
    }
}

/// Adds at most one row to each table. A session replaces the one with its word.
pub(crate) fn put_rows(
    grants: &mut Grants,
    turn: Option<TurnRow>,
    session: Option<SessionRow>,
    code: Option<CodeRow>,
    token: Option<TokenRow>,
)
    requires turn { IfSome turn (λ r. MayAddRow turn_name turn_begun grants.old.reserved.turns grants.old.turns r × (r.wish.client < 128)) }
    requires session { IfSome session (λ r. spec.MayPut session_name session_begun grants.old.reserved.sessions grants.old.sessions r × (r.user < 512)) }
    requires code { IfSome code (λ r. MayAddRow code_name code_begun grants.old.reserved.codes grants.old.codes r × (r.user < 512) × (r.wish.client < 128)) }
    requires token { IfSome token (λ r. MayAddRow access_name access_begun grants.old.reserved.tokens grants.old.tokens r × (r.user < 512) × (r.client < 128)) }
    ensures turns { grants.new.turns ≡ put turn_name turn grants.old.turns }
    ensures sessions { grants.new.sessions ≡ put session_name session grants.old.sessions }
    ensures codes { grants.new.codes ≡ put code_name code grants.old.codes }
    ensures tokens { grants.new.tokens ≡ put access_name token grants.old.tokens }
    ensures consents { grants.new.consents ≡ grants.old.consents }
{
    put_turn(grants, turn);
    put_session(grants, session);
    put_code(grants, code);
    put_token(grants, token);
}

// ---- what users have granted

/// The granted scopes, with the client and the user.
#[derive(Clone, Copy)]
pub(crate) struct Agreement {
    user: u32,
    client: u32,
    scopes: Scopes,
}

// The turn of a consent form in which the user consented, if it got an authorization response.
fn agreed_turn(ask: &OpAsk, reply: &OpReply) -> Option<Word>
    ensures { result ≡ spec.agreed_turn ask.now reply.now }
{
    match ask {
        OpAsk::Consent {
            turn,
            agree: true,
            ..
        } if reply.ends_turn() => *turn,
        _ => None,
    }
}

// The grant by the user of the turn's session of the scopes of the turn's consent page.
fn agreement_of(grants: &Grants, turn: Option<Word>) -> Option<Agreement>
    ensures agreement { result ≡ spec.agreement_of grants.now (spec.turn_in grants.now turn) }
    ensures in_range { IfSome result (λ a. (a.user < 512) × (a.client < 128)) }
{
    let turn = grants.turn(turn?)?;
    let session = grants.session(turn.session?)?;
    Some(Agreement {
        user: session.user,
        client: turn.wish.client,
        scopes: needed_scopes(&turn.wish),
    })
}

/// Grants the scopes of the consent that a form gave.
pub(crate) fn grant_agreed(grants: &mut Grants, pair: &Pair<OpAsk, OpReply>)
    ensures granted { spec.GrantsAgreement grants.old grants.new pair.now }
    ensures others { grants.new ≡ record grants.old { consents = grants.new.consents } }
{
    let agreed = agreement_of(grants, agreed_turn(&pair.entry.ask, &pair.reply));
    if let Some(agreed) = agreed {
        let _before = grants.granted(agreed.user, agreed.client);
        grants.grant(agreed.user, agreed.client, agreed.scopes);
    }
}

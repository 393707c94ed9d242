// Updating the tables with a pair. It allocates nothing.

ghost use Rattle.std.specs.Prelude.{◌≡◌, true, false, filter_map, IfSome, None};
ghost use Rattle.sso_base.specs.Rows.{without};
ghost use Rattle.held_rows.specs.Held.{MayAddRow};
ghost use Rattle.rp_login.specs.Tables.{ArePendings, dead_ended};
ghost use Rattle.rp_login.specs.Rows.{login_name, login_begun, pending_name, pending_begun, visit_name, visit_begun};
ghost use Rattle.rp_login.specs.Rows.{seen_name, seen_begun, dead_name, dead_begun};
ghost use Rattle.rp_answer.specs.Past.{RpPast};
ghost use Rattle.rp_answer.specs.Asked as asked;
ghost use Rattle.rp_answer.specs.Logins as logins;
ghost use Rattle.rp_answer.specs.Pendings as pendings;
ghost use Rattle.rp_answer.specs.Visits as visits;
ghost use Rattle.rp_core.specs.Keeping as spec;

use crate::making::{Made, state_named, token_accepted};
use crate::questions::is_stage;
use rp_exchange::{RpAsk, RpNo, RpReply};
use rp_login::{DeadRow, LoginRow, Logins, PendingRow, SeenRow, SessionRow, Stage};
use sso_base::{Pair, Word, bytes_if};

fn leaves_login(why: &RpNo) -> bool
    ensures { result ≡ logins.leaves_login why.now }
{
    matches!(
        why,
        RpNo::Twice(_) | RpNo::NoState | RpNo::StaleLogin | RpNo::WrongBrowser | RpNo::Full(_)
    )
}

/// Whether a reply ends the login that its authorization response belongs to. It does not if the response belongs to no login,
/// or to that of another browser, or if a table is full.
pub fn ends_login(reply: &RpReply) -> bool
    ensures { result ≡ logins.ends_login reply.now }
{
    match reply {
        RpReply::NotHere => false,
        RpReply::Refused { why } => !leaves_login(why),
        _ => true,
    }
}

fn ends_pending(reply: &RpReply) -> bool
    ensures { result ≡ pendings.ends_pending reply.now }
{
    !matches!(
        reply,
        RpReply::NotHere | RpReply::Refused { why: RpNo::Full(_) }
    )
}

// The word of the exchange that a response belongs to, and the kind of that response.
fn answer_named(ask: &RpAsk) -> Option<(Word, Stage)>
    ensures { result ≡ pendings.answer_named ask.now }
{
    match ask {
        RpAsk::Tokens { pending, .. } => Some((*pending, Stage::Tokens)),
        RpAsk::Info { pending, .. } => Some((*pending, Stage::Info)),
        _ => None,
    }
}

// Whether the exchange with this word is waiting for this response.
fn is_waiting(tables: &Logins, word: Word, waits: Stage) -> bool
    ensures row { result ≡ spec.is_waiting word waits tables.now.pendings }
    ensures held { ArePendings tables.now.pendings }
{
    match tables.pending(word) {
        Some(row) => is_stage(waits, row.stage),
        None => false,
    }
}

// Ends the exchange with this word, if it is waiting for this response.
fn end_answered(tables: &mut Logins, word: Word, waits: Stage)
    ensures { tables.new ≡ record tables.old { pendings = spec.without_answered word waits tables.old.pendings } }
{
    if is_waiting(tables, word, waits) {
        tables.end_pending(word);
    }
}

// Updates the logins with the pair. The login of a response from its own browser ends.
fn keep_logins(tables: &mut Logins, pair: &Pair<RpAsk, RpReply>)
    ensures { (past : RpPast) → tables.new ≡ record tables.old { logins = filter_map (logins.login_kept past pair.now) tables.old.logins } }
{
    if !ends_login(&pair.reply) {
        return;
    }
    if let Some(state) = state_named(&pair.entry.ask) {
        tables.end_login(state);
    }
}

// Updates the pending exchanges with the pair. The exchange of a response ends.
fn keep_pendings(tables: &mut Logins, pair: &Pair<RpAsk, RpReply>)
    ensures { (past : RpPast) → tables.new ≡ record tables.old { pendings = filter_map (pendings.pending_kept past pair.now) tables.old.pendings } }
{
    if !ends_pending(&pair.reply) {
        return;
    }
    if let Some(named) = answer_named(&pair.entry.ask) {
        end_answered(tables, named.0, named.1);
    }
}

// The word of the session that the browser leaves.
fn session_left(ask: &RpAsk, reply: &RpReply) -> Option<Word>
    ensures { result ≡ visits.session_left ask.now reply.now }
{
    match (ask, reply) {
        (RpAsk::Leave { session }, RpReply::Left { .. }) => *session,
        _ => None,
    }
}

// Ends the sessions that an accepted logout token names.
fn end_accepted(tables: &mut Logins, pair: &Pair<RpAsk, RpReply>)
    requires none { visits.session_left pair.now.entry.ask pair.now.reply ≡ None }
    requires names { IfSome (asked.token_accepted pair.now.entry.ask pair.now.reply) spec.NamesSomebody }
    ensures { (past : RpPast) → tables.new ≡ record tables.old { visits = filter_map (visits.visit_kept past pair.now) tables.old.visits } }
{
    if let Some(claims) = token_accepted(&pair.entry.ask, &pair.reply) {
        let sub = bytes_if(&claims.sub);
        let sid = bytes_if(&claims.sid);
        tables.end_named(sub, sid);
    }
}

// Updates the sessions with the pair. The session that the browser leaves ends, and so do those that an accepted logout token
// names.
fn keep_visits(tables: &mut Logins, pair: &Pair<RpAsk, RpReply>)
    requires { IfSome (asked.token_accepted pair.now.entry.ask pair.now.reply) spec.NamesSomebody }
    ensures { (past : RpPast) → tables.new ≡ record tables.old { visits = filter_map (visits.visit_kept past pair.now) tables.old.visits } }
{
    match session_left(&pair.entry.ask, &pair.reply) {
        Some(word) => {
            tables.end_session(word);
        }
        None => end_accepted(tables, pair),
    }
}

fn add_login(tables: &mut Logins, row: Option<LoginRow>)
    requires may { IfSome row (λ r. MayAddRow login_name login_begun tables.old.reserved.logins tables.old.logins r) }
    ensures { tables.new ≡ spec.login_put row tables.old }
{
    if let Some(row) = row {
        tables.add_login(row);
    }
}

fn add_pending(tables: &mut Logins, row: Option<PendingRow>)
    requires may { IfSome row (λ r. MayAddRow pending_name pending_begun tables.old.reserved.pendings tables.old.pendings r) }
    ensures { tables.new ≡ spec.pending_put row tables.old }
{
    if let Some(row) = row {
        tables.add_pending(row);
    }
}

fn add_visit(tables: &mut Logins, row: Option<SessionRow>)
    requires may { IfSome row (λ r. MayAddRow visit_name visit_begun tables.old.reserved.visits tables.old.visits r) }
    ensures { tables.new ≡ spec.visit_put row tables.old }
{
    if let Some(row) = row {
        tables.add_session(row);
    }
}

fn add_seen(tables: &mut Logins, row: Option<SeenRow>)
    requires may { IfSome row (λ r. MayAddRow seen_name seen_begun tables.old.reserved.seens tables.old.seens r) }
    ensures { tables.new ≡ spec.seen_put row tables.old }
{
    if let Some(row) = row {
        tables.add_seen(row);
    }
}

// Removes the earlier record of a session identifier, if there is one.
fn end_earlier(tables: &mut Logins, row: &DeadRow)
    ensures { tables.new ≡ dead_ended row.now.sid tables.old }
{
    tables.end_dead(row.sid.as_str().as_bytes());
}

// Adds the record of a session identifier, in place of an earlier one of the same identifier.
fn add_dead(tables: &mut Logins, row: Option<DeadRow>)
    requires may { IfSome row (λ r. MayAddRow dead_name dead_begun tables.old.reserved.deads (without dead_name r.sid tables.old.deads) r) }
    ensures { tables.new ≡ spec.dead_put row tables.old }
{
    if let Some(row) = row {
        end_earlier(tables, &row);
        tables.add_dead(row);
    }
}

/// Updates the tables with a pair: expired rows are removed, the pair changes the other rows, and its new rows are added.
pub(crate) fn update_tables(tables: &mut Logins, pair: &Pair<RpAsk, RpReply>, made: Made)
    requires may { spec.MayUpdateTables tables.old pair.now made }
    requires reserved { tables.old.reserved ≡ record { logins = true; pendings = true; visits = true; seens = true; deads = true } }
    ensures { spec.UpdatesTables tables.old tables.new pair.now made }
{
    tables.purge(pair.entry.at);
    keep_logins(tables, pair);
    keep_pendings(tables, pair);
    keep_visits(tables, pair);
    add_login(tables, made.login);
    add_pending(tables, made.pending);
    add_visit(tables, made.visit);
    add_seen(tables, made.seen);
    add_dead(tables, made.dead);
}

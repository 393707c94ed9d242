// What is found of a code, of a turn, and of an access token.

ghost use Rattle.std.specs.Prelude.{◌≡◌, ◌≤◌, true, false, reverse, Some, IfOk};
ghost use Rattle.std.specs.Option.{option_copied};
ghost use Rattle.sso_base.specs.Legal.{last_moment};
ghost use Rattle.code_grant.specs.declared.rows.CodeRow.{CodeRow as code_row_of};
ghost use Rattle.core_stack.specs.Marks.{mark_in_turn, mark_in_code, marked_turn, answer_mark};
ghost use Rattle.refresh_answer.specs.Around.{outer_plain, outer_given, offline_mark};
ghost use Rattle.refresh_answer.specs.Families as families;
ghost use Rattle.refresh_answer.specs.declared.rows.FamilyRow.{FamilyRow as family_row_of};
ghost use Rattle.refresh_answer.specs.Answering as spec;
ghost use Rattle.refresh_book.specs.Keeps as keeps;

use crate::refresh_core::RefreshCore;
use claim_set::write_claims;
use client_registry::Registry;
use code_grant::CodeRow;
use core_stack::{CodeMark, Provides, TurnMark, kept_code, live_turn};
use op_exchange::OpAsk;
use refresh_answer::{FamilyRow, OwnReply, RefreshAsk};
use sso_base::{Moment, NoMemory, Word};
use std::alloc::Global;
use userinfo::{Bearer, info_claims};

fn mark_of_turn(row: Option<&TurnMark<bool>>) -> bool
    ensures { result ≡ mark_in_turn false (option_copied row.entry) }
{
    match row {
        Some(row) => row.mark,
        None => false,
    }
}

fn mark_of_code(row: Option<&CodeMark<bool>>) -> bool
    ensures { result ≡ mark_in_code false (option_copied row.entry) }
{
    match row {
        Some(row) => row.mark,
        None => false,
    }
}

/// Whether a request is an authorization request for offline access.
pub(crate) fn offline_of<A: Drop>(ask: &RefreshAsk<A>) -> bool
    ensures { result ≡ offline_mark ask.now }
{
    match ask {
        RefreshAsk::Through { offline, .. } => *offline,
        RefreshAsk::Refresh { .. } => false,
    }
}

/// The provider's request in a request.
pub(crate) fn plain_of<P: Provides>(ask: &RefreshAsk<P::Ask>) -> Option<&OpAsk>
    ensures { option_copied result ≡ outer_plain P.plain_ask ask.now }
{
    match ask {
        RefreshAsk::Through { inner, .. } => P::plain(inner),
        RefreshAsk::Refresh { .. } => None,
    }
}

// The claims of a family's user for its client.
#[tactic(auto, using(crate::proofs::Owning::client_low, crate::proofs::Owning::user_low))]
fn family_info(alloc: Global, registry: &Registry, family: &FamilyRow) -> Result<OwnReply, NoMemory>
    requires { keeps.is_own_family registry.now family.now ≡ true }
    ensures { IfOk result (λ r. r ≡ spec.family_info registry.now family.now) }
{
    let claims = info_claims(
        alloc,
        registry,
        family.client,
        family.user,
        &family.scopes,
        &family.asked,
    )?;
    Ok(OwnReply::Info {
        claims: write_claims(&claims)?,
    })
}

// The access token of a UserInfo request.
fn bearer_of(ask: Option<&OpAsk>) -> Option<Word>
    ensures { result ≡ keeps.bearer_in (option_copied ask.entry) }
{
    match ask {
        Some(
            OpAsk::Info {
                bearer: Bearer::Given(word),
            },
        ) => Some(*word),
        _ => None,
    }
}

impl<P: Provides> RefreshCore<P> {
    // Whether the authorization request that began a live turn was for offline access.
    fn turn_offline(&self, at: Moment, turn: Option<Word>) -> bool
        requires { last_moment (reverse self.now.history) ≤ at }
        ensures { result ≡ mark_in_turn false
            (marked_turn (outer_plain P.plain_ask) (outer_given P.given_reply) offline_mark (reverse self.now.history) at turn) }
    {
        let Some(turn) = turn else {
            return false;
        };
        mark_of_turn(live_turn(&self.turns, turn, at))
    }

    /// Whether the authorization request that a code answers was for offline access.
    pub(crate) fn code_offline(&self, at: Moment, code: Option<Word>) -> bool
        requires { last_moment (reverse self.now.history) ≤ at }
        ensures { result ≡ families.code_offline P.plain_ask P.given_reply P.provided (reverse self.now.history) at code }
    {
        let Some(code) = code else {
            return false;
        };
        mark_of_code(kept_code(&self.codes, code, at))
    }

    /// Whether the authorization request that a response to this request answers was for offline access.
    pub(crate) fn answer_offline(&self, at: Moment, ask: &RefreshAsk<P::Ask>) -> bool
        requires { last_moment (reverse self.now.history) ≤ at }
        ensures { result ≡ answer_mark (outer_plain P.plain_ask) (outer_given P.given_reply) offline_mark false
            (reverse self.now.history) at (offline_mark ask.now) (outer_plain P.plain_ask ask.now) }
    {
        match plain_of::<P>(ask) {
            Some(OpAsk::Authorize { .. }) => offline_of(ask),
            Some(OpAsk::Login { turn, .. }) => self.turn_offline(at, *turn),
            Some(OpAsk::Consent { turn, .. }) => self.turn_offline(at, *turn),
            _ => false,
        }
    }

    // The code of a word, if the provider holds it.
    fn code_of(&self, at: Moment, word: Word) -> Option<&CodeRow>
        requires { last_moment (reverse self.now.history) ≤ at }
        ensures held { option_copied result ≡ keeps.code_held P.provided (reverse self.now.history) at (Some word) }
        ensures own { (code : code_row_of) → option_copied result ≡ Some code → keeps.is_own_code self.now.registry code ≡ true }
    {
        self.inner.code(word, at)
    }

    /// The code of a word that may be absent, if the provider holds it.
    pub(crate) fn code_held(&self, at: Moment, word: Option<Word>) -> Option<&CodeRow>
        requires { last_moment (reverse self.now.history) ≤ at }
        ensures held { option_copied result ≡ keeps.code_held P.provided (reverse self.now.history) at word }
        ensures own { (code : code_row_of) → option_copied result ≡ Some code → keeps.is_own_code self.now.registry code ≡ true }
    {
        match word {
            Some(word) => self.code_of(at, word),
            None => None,
        }
    }

    // The family of an access token, if both live.
    fn access_family(&self, at: Moment, word: Word) -> Option<&FamilyRow>
        requires { last_moment (reverse self.now.history) ≤ at }
        ensures found { option_copied result ≡ families.access_family P.plain_ask P.given_reply P.provided (reverse self.now.history) at word }
        ensures own { (f : family_row_of) → option_copied result ≡ Some f → keeps.is_own_family self.now.registry f ≡ true }
    {
        self.book.family_of_access(word, at)
    }

    /// The core's own reply to a UserInfo request with an access token of a family; `None` if and only if it is another request.
    #[tactic(auto, using(crate::proofs::Looking::info_by_bearer))]
    pub(crate) fn info(
        &self,
        alloc: Global,
        at: Moment,
        ask: &RefreshAsk<P::Ask>,
    ) -> Result<Option<OwnReply>, NoMemory>
        requires { last_moment (reverse self.now.history) ≤ at }
        ensures { IfOk result (λ r. r ≡ spec.info_reply P.plain_ask P.given_reply P.provided self.now.registry (reverse self.now.history) at
            (outer_plain P.plain_ask ask.now)) }
    {
        let Some(word) = bearer_of(plain_of::<P>(ask)) else {
            return Ok(None);
        };
        match self.access_family(at, word) {
            Some(family) => Ok(Some(family_info(alloc, &self.registry, family)?)),
            None => Ok(None),
        }
    }
}

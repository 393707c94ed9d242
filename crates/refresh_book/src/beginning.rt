// Which family begins with tokens for a code, and which families its code ends.

ghost use Rattle.std.specs.Prelude.{◌≡◌, ◌≤◌, true, not, ◌&&◌, filter, length, reverse, Some, Ok, IfOk};
ghost use Rattle.std.specs.Option.{option_copied};
ghost use Rattle.sso_base.specs.Legal.{last_moment};
ghost use Rattle.sso_base.specs.Rows.{put};
ghost use Rattle.refresh_answer.specs.declared.rows.FamilyRow.{FamilyRow as family_of};
ghost use Rattle.refresh_answer.specs.Rows.{token_name};
ghost use Rattle.refresh_answer.specs.Families as families;
ghost use Rattle.refresh_rows.specs.Booked.{HasMemory};
ghost use Rattle.refresh_book.specs.Keeps as keeps;
ghost use Rattle.refresh_book.specs.Renewing.{AreRows, tokens_left, accesses_left};
ghost use Rattle.refresh_book.specs.Beginning as spec;

use crate::finding::{offline_of, plain_of};
use crate::refresh_core::RefreshCore;
use code_grant::CodeRow;
use core_stack::{Provides, is_wish, turn_named};
use op_exchange::{OpAsk, OpReply};
use refresh_answer::{FamilyRow, Place, RefreshAsk};
use refresh_rows::Book;
use sso_base::{Moment, NoMemory, Word};
use std::alloc::Global;

// ---- before the inner core's step

/// A code that was redeemed, and a client that requests tokens for it.
#[derive(Clone, Copy)]
pub(crate) struct Spent {
    pub(crate) code: Word,
    pub(crate) client: u32,
}

/// What is known of an entry before the inner core's step.
#[derive(Drop)]
pub(crate) struct Pending {
    pub(crate) wish: bool,
    pub(crate) sent: bool,
    pub(crate) answer: bool,
    pub(crate) turn: Option<Word>,
    pub(crate) spent: Option<Spent>,
    pub(crate) family: Option<FamilyRow>,
}

// The code of a token request.
fn token_code(ask: Option<&OpAsk>) -> Option<Word>
    ensures { result ≡ families.token_code (option_copied ask.entry) }
{
    match ask {
        Some(OpAsk::Token { grant: Ok(grant) }) => Word::read(grant.code.as_str().as_bytes()),
        _ => None,
    }
}

// The family that begins with tokens for a code.
fn family_for(alloc: Global, place: u64, at: Moment, code: &CodeRow) -> Result<FamilyRow, NoMemory>
    ensures { IfOk result (λ f. f ≡ families.family_for place at code.now) }
{
    Ok(FamilyRow {
        by: Place::new(place),
        code: code.word,
        client: code.wish.client,
        user: code.user,
        scopes: code.wish.scopes,
        asked: code.wish.info_asked.copy(alloc)?,
        begun: at,
    })
}

// The spent code of a token request.
fn spent_by(ask: Option<&OpAsk>, code: Option<&CodeRow>) -> Option<Spent>
    ensures { (f : family_of) → spec.is_spent result f ≡ families.is_code_replay (option_copied code.entry) (option_copied ask.entry) f }
{
    match (ask, code) {
        (Some(OpAsk::Token { grant: Ok(grant) }), Some(code)) if code.spent => Some(Spent {
            code: code.word,
            client: grant.client,
        }),
        _ => None,
    }
}

impl<P: Provides> RefreshCore<P> {
    // The place of the next pair in the history.
    fn place(&self) -> u64
        ensures { result ≡ length (reverse self.now.history) }
    {
        self.kept.count()
    }

    // The family that begins with tokens for the code of this word, if there is room.
    fn family_asked(
        &self,
        alloc: Global,
        at: Moment,
        code: Option<Word>,
    ) -> Result<Option<FamilyRow>, NoMemory>
        requires { last_moment (reverse self.now.history) ≤ at }
        ensures family { IfOk result (λ f. f ≡ spec.family_asked P.plain_ask P.given_reply P.provided (reverse self.now.history) at code) }
        ensures own { IfOk result (λ o. (f : family_of) → o ≡ Some f → keeps.is_own_family self.now.registry f ≡ true) }
    {
        if !self.code_offline(at, code) {
            return Ok(None);
        }
        match self.code_held(at, code) {
            Some(code) => Ok(Some(family_for(alloc, self.place(), at, code)?)),
            None => Ok(None),
        }
    }

    /// What is known of an entry before it is passed on.
    pub(crate) fn pending(
        &self,
        alloc: Global,
        at: Moment,
        ask: &RefreshAsk<P::Ask>,
    ) -> Result<Pending, NoMemory>
        requires { last_moment (reverse self.now.history) ≤ at }
        ensures { IfOk result (λ p. spec.IsPending P.plain_ask P.given_reply P.provided self.now.registry (reverse self.now.history) at ask.now p) }
    {
        let code = token_code(plain_of::<P>(ask));
        Ok(Pending {
            wish: is_wish(plain_of::<P>(ask)),
            sent: offline_of(ask),
            answer: self.answer_offline(at, ask),
            turn: turn_named(plain_of::<P>(ask)),
            spent: spent_by(plain_of::<P>(ask), self.code_held(at, code)),
            family: self.family_asked(alloc, at, code)?,
        })
    }
}

// ---- after it

fn gives_tokens(given: Option<&OpReply>) -> bool
    ensures { result ≡ spec.gives_tokens (option_copied given.entry) }
{
    matches!(given, Some(OpReply::Tokens { .. }))
}

fn both(one: bool, other: bool) -> bool
    ensures { result ≡ (one && other) }
{
    one && other
}

// Ends the families of a spent code.
fn end_spent(book: &mut Book, spent: Option<Spent>)
    requires memory { HasMemory book.old }
    ensures families { book.new.families ≡ filter (λ f. not (spec.is_spent spent f)) book.old.families }
    ensures tokens { book.new.tokens ≡ tokens_left book.new.families book.old.tokens }
    ensures accesses { book.new.accesses ≡ accesses_left book.new.families book.old.accesses }
    ensures last { book.new.last ≡ book.old.last }
    ensures memory { HasMemory book.new }
{
    match spent {
        Some(spent) => book.end_code(spent.code, spent.client),
        None => book.keep_all(),
    }
}

// Begins a family, if it does.
fn begin(book: &mut Book, begins: bool, family: Option<FamilyRow>, word: Word) -> Option<Word>
    requires memory { HasMemory book.old }
    requires may { spec.MayBegin book.old family }
    requires room { begins ≡ true → families.has_room book.old.tokens word ≡ true }
    ensures first { result ≡ spec.first_of (families.if_true begins family) word }
    ensures rows { AreRows book.new (families.appended book.old.families (families.if_true begins family))
        (put token_name (spec.token_of (families.if_true begins family) word) book.old.tokens) book.old.accesses book.old.last }
{
    if !begins {
        return None;
    }
    match family {
        Some(family) => {
            book.begin(family, word);
            Some(word)
        }
        None => None,
    }
}

/// Notes an entry that was passed on, with the reply that the provider gave: the families of a spent code end, and a family begins with
/// tokens if there is room. Its first token is returned.
pub(crate) fn note_passed(
    book: &mut Book,
    spent: Option<Spent>,
    family: Option<FamilyRow>,
    given: Option<&OpReply>,
    word: Word,
) -> Option<Word>
    requires memory { HasMemory book.old }
    requires may { spec.MayBegin book.old family }
    ensures first { result ≡ spec.first_of
        (families.if_true (families.has_room book.old.tokens word && spec.gives_tokens (option_copied given.entry)) family) word }
    ensures families { book.new.families ≡ families.appended (filter (λ f. not (spec.is_spent spent f)) book.old.families)
        (families.if_true (families.has_room book.old.tokens word && spec.gives_tokens (option_copied given.entry)) family) }
    ensures tokens { book.new.tokens ≡ put token_name
        (spec.token_of (families.if_true (families.has_room book.old.tokens word && spec.gives_tokens (option_copied given.entry)) family) word)
        (tokens_left (filter (λ f. not (spec.is_spent spent f)) book.old.families) book.old.tokens) }
    ensures accesses { book.new.accesses ≡ accesses_left (filter (λ f. not (spec.is_spent spent f)) book.old.families) book.old.accesses }
    ensures last { book.new.last ≡ book.old.last }
{
    let room = book.has_room(word);
    let begins = both(room, gives_tokens(given));
    end_spent(book, spent);
    begin(book, begins, family, word)
}

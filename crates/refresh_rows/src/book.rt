// The three tables of the book.

ghost use Rattle.std.specs.Prelude.{◌≡◌, ◌≤◌, true, not, [], ◌∷◌, ◌++◌, filter, Some, None, option_and_then, option_map, is_some, OnOk, nat_lt, ◌&&◌};
ghost use Rattle.std.specs.Option.{option_copied};
ghost use Rattle.sso_base.specs.Rows.{put, row_of, if_lives, live_rows};
ghost use Rattle.sso_base.specs.Stands.{IsDistinct};
ghost use Rattle.oidc_words.specs.Lives.{access_life, family_life};
ghost use Rattle.refresh_answer.specs.Rows.{most_tokens, family_begun, token_name, access_name, access_begun, new_token, old_token};
ghost use Rattle.refresh_answer.specs.Families.{family_at, living_in, has_room};
ghost use Rattle.refresh_rows.specs.TokenRows.{held_name, refresh_row, is_of};
ghost use Rattle.refresh_rows.specs.Booked.{ArePlaces, HasMemory, is_of_place, is_of_code};

use crate::adding::{issue, put_access, retire};
use crate::dropping::{drop_expired, drop_over, drop_passing};
use crate::matching::{OfCode, OfPlace};
use crate::token_row::TokenRow;
use held_rows::Held;
use oidc_words::FAMILY_LIFE;
use refresh_answer::{AccessRow, FamilyRow, Place, RefreshRow};
use sso_base::{Moment, NoMemory, Word, is_live, know_number};
use std::alloc::Global;
use std::marker::Model;

// The greatest number of refresh tokens that are held.
const MOST_TOKENS: usize = 65_536;

/// The families that live, their refresh tokens and their access tokens. The model is the rows of the three tables, the moment up to which
/// they are purged, and the number of rows that each has memory for.
#[derive(Drop)]
pub struct Book {
    families: Held<FamilyRow>,
    tokens: Held<TokenRow>,
    accesses: Held<AccessRow>,
    last: Moment,
}

impl Model for Book {
    ghost use Rattle.refresh_rows.specs.TokenRows.{refresh_rows};
    ghost use Rattle.refresh_rows.specs.Booked.{Booked, IsBook};

    ghost Value = { Booked };

    ghost view = { λ b. record {
      families = b.families.rows;
      tokens = refresh_rows b.tokens.rows;
      accesses = b.accesses.rows;
      last = b.last;
      family_room = b.families.capacity;
      token_room = b.tokens.capacity;
      access_room = b.accesses.capacity;
    } };

    ghost invariant = { λ b. IsBook b.families.rows b.tokens.rows b.accesses.rows b.last };
}

// ---- lookups

// The refresh token of a row.
fn shown(row: Option<&TokenRow>) -> Option<RefreshRow>
    ensures { result ≡ option_map refresh_row (option_copied row.entry) }
{
    match row {
        Some(row) => Some(RefreshRow {
            word: row.word,
            family: row.family.number(),
            current: row.current,
        }),
        None => None,
    }
}

fn is_absent(row: Option<&TokenRow>) -> bool
    ensures { result ≡ not (is_some (option_copied row.entry)) }
{
    row.is_none()
}

fn are_few(tokens: usize) -> bool
    ensures { result ≡ nat_lt tokens most_tokens }
{
    tokens < MOST_TOKENS
}

fn both(one: bool, other: bool) -> bool
    ensures { result ≡ (one && other) }
{
    one && other
}

// No two tokens have the same word. The call does nothing.
fn know_tokens(tokens: &Held<TokenRow>)
    ensures { IsDistinct held_name tokens.now.rows }
{
    let _row = tokens.find(&[]);
}

// The places of families are numbers of 64 bits. The call does nothing.
fn know_families(families: &Held<FamilyRow>)
    ensures { ArePlaces families.now.rows }
{
    let _row = families.find(&[]);
}

impl Book {
    /// An empty book.
    pub fn new(alloc: Global) -> Book
        ensures families { result.families ≡ [] }
        ensures tokens { result.tokens ≡ [] }
        ensures accesses { result.accesses ≡ [] }
        ensures last { result.last ≡ 0 }
    {
        let families = Held::new(alloc);
        let tokens = Held::new(alloc);
        let accesses = Held::new(alloc);
        let last = Moment::first();
        Book {
            families,
            tokens,
            accesses,
            last,
        }
    }

    /// Makes room for one more row in each table. No other call allocates. On `NoMemory` the rows are unchanged.
    pub fn reserve(&mut self) -> Result<(), NoMemory>
        ensures families { self.new.families ≡ self.old.families }
        ensures tokens { self.new.tokens ≡ self.old.tokens }
        ensures accesses { self.new.accesses ≡ self.old.accesses }
        ensures last { self.new.last ≡ self.old.last }
        ensures memory { OnOk result (HasMemory self.new) }
    {
        self.families.reserve()?;
        self.tokens.reserve()?;
        self.accesses.reserve()
    }

    /// The refresh token of a word; `None` if and only if no family in the book has it.
    pub fn token(&self, word: Option<Word>) -> Option<RefreshRow>
        ensures { result ≡ option_and_then (λ w. row_of token_name w self.now.tokens) word }
    {
        let Some(word) = word else {
            return None;
        };
        shown(self.tokens.find(word.as_bytes()))
    }

    /// The family that began at this place.
    pub fn family(&self, number: u64) -> Option<&FamilyRow>
        ensures { option_copied result ≡ family_at number self.now.families }
    {
        know_number(number);
        let place = Place::new(number);
        self.families.find(place.as_bytes())
    }

    /// The family that began at this place, if it lives at the moment.
    pub fn living(&self, number: u64, at: Moment) -> Option<&FamilyRow>
        ensures { option_copied result ≡ living_in self.now.families at number }
    {
        match self.family(number) {
            Some(family) if is_live(FAMILY_LIFE, family.begun, at) => Some(family),
            _ => None,
        }
    }

    /// The family of an access token, if both live at the moment.
    pub fn family_of_access(&self, word: Word, at: Moment) -> Option<&FamilyRow>
        ensures { option_copied result ≡ option_and_then (λ row. living_in self.now.families at row.family)
            (option_and_then (if_lives access_life access_begun at) (row_of access_name word self.now.accesses)) }
    {
        match self.accesses.living(word.as_bytes(), at) {
            Some(access) => self.living(access.family.number(), at),
            None => None,
        }
    }

    /// Whether fewer than 65,536 refresh tokens are held and none of them is this word.
    pub fn has_room(&self, word: Word) -> bool
        ensures { result ≡ has_room self.now.tokens word }
    {
        let few = are_few(self.tokens.len());
        let new = is_absent(self.tokens.find(word.as_bytes()));
        both(few, new)
    }
}

// ---- changes

impl Book {
    /// Removes the families whose life is over at the moment, with their tokens, and the access tokens whose life is over.
    pub fn turn_to(&mut self, at: Moment)
        requires order { self.old.last ≤ at }
        requires memory { HasMemory self.old }
        ensures families { self.new.families ≡ live_rows family_life family_begun at self.old.families }
        ensures tokens { self.new.tokens ≡ filter (λ t. is_of self.new.families t.family) self.old.tokens }
        ensures accesses { self.new.accesses ≡ live_rows access_life access_begun at (filter (λ x. is_of self.new.families x.family) self.old.accesses) }
        ensures last { self.new.last ≡ at }
        ensures memory { HasMemory self.new }
    {
        drop_over(&mut self.families, &mut self.tokens, &mut self.accesses, at);
        drop_expired(&mut self.accesses, at);
        self.last = at;
    }

    /// Ends the family that began at this place, if it is this client's.
    pub fn end_place(&mut self, place: u64, client: u32)
        requires memory { HasMemory self.old }
        ensures families { self.new.families ≡ filter (λ f. not (is_of_place place client f)) self.old.families }
        ensures tokens { self.new.tokens ≡ filter (λ t. is_of self.new.families t.family) self.old.tokens }
        ensures accesses { self.new.accesses ≡ filter (λ x. is_of self.new.families x.family) self.old.accesses }
        ensures last { self.new.last ≡ self.old.last }
        ensures memory { HasMemory self.new }
    {
        let test = OfPlace {
            place: Place::new(place),
            client,
        };
        drop_passing(
            &mut self.families,
            &mut self.tokens,
            &mut self.accesses,
            &test,
        );
    }

    /// Ends the families that began for this code of this client.
    pub fn end_code(&mut self, code: Word, client: u32)
        requires memory { HasMemory self.old }
        ensures families { self.new.families ≡ filter (λ f. not (is_of_code code client f)) self.old.families }
        ensures tokens { self.new.tokens ≡ filter (λ t. is_of self.new.families t.family) self.old.tokens }
        ensures accesses { self.new.accesses ≡ filter (λ x. is_of self.new.families x.family) self.old.accesses }
        ensures last { self.new.last ≡ self.old.last }
        ensures memory { HasMemory self.new }
    {
        let test = OfCode { code, client };
        drop_passing(
            &mut self.families,
            &mut self.tokens,
            &mut self.accesses,
            &test,
        );
    }

    /// Ends no family. All tokens are of families in the book. A lemma for the proofs; the call does nothing.
    pub fn keep_all(&mut self)
        ensures families { self.new.families ≡ filter (λ f. true) self.old.families }
        ensures same { self.new ≡ self.old }
        ensures tokens { self.new.tokens ≡ filter (λ t. is_of self.new.families t.family) self.old.tokens }
        ensures accesses { self.new.accesses ≡ filter (λ x. is_of self.new.families x.family) self.old.accesses }
    {
        let _last = self.last;
    }

    /// Begins a family with its first token. Its place and its token are new.
    pub fn begin(&mut self, family: FamilyRow, word: Word)
        requires memory { HasMemory self.old }
        requires begun { family.begun ≡ self.old.last }
        requires unnamed { family_at family.by self.old.families ≡ None }
        requires room { has_room self.old.tokens word ≡ true }
        ensures families { self.new.families ≡ self.old.families ++ family ∷ [] }
        ensures tokens { self.new.tokens ≡ put token_name (Some (new_token family.by word)) self.old.tokens }
        ensures accesses { self.new.accesses ≡ self.old.accesses }
        ensures last { self.new.last ≡ self.old.last }
    {
        know_families(&self.families);
        let place = family.by.number();
        self.families.add(family);
        issue(&mut self.tokens, word, place, self.last);
    }

    /// Makes a refresh token old, and adds a new one and an access token of its family.
    pub fn rotate(&mut self, row: RefreshRow, refresh: Word, access: Word)
        requires memory { HasMemory self.old }
        requires there { row_of token_name row.word self.old.tokens ≡ Some row }
        requires room { has_room self.old.tokens refresh ≡ true }
        ensures families { self.new.families ≡ self.old.families }
        ensures tokens { self.new.tokens ≡ put token_name (Some (new_token row.family refresh)) (put token_name (Some (old_token row)) self.old.tokens) }
        ensures accesses { self.new.accesses ≡
            put access_name (Some (record { word = access; family = row.family; issued = self.old.last })) self.old.accesses }
        ensures last { self.new.last ≡ self.old.last }
    {
        know_tokens(&self.tokens);
        retire(&mut self.tokens, row.word, row.family, self.last);
        issue(&mut self.tokens, refresh, row.family, self.last);
        let issued = AccessRow {
            word: access,
            family: Place::new(row.family),
            issued: self.last,
        };
        put_access(&mut self.accesses, issued);
    }
}

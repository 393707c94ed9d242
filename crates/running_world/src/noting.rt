// What later places look up of a place: the cookies that it sets, the tokens that it writes, and the words that it issues.

ghost use Rattle.std.specs.Prelude.{◌≡◌, ℕ, false, length, reverse, Some, None, IfSome, IfOk, OnOk, OnErr};
ghost use Rattle.std.specs.List.{AllByRecursion};
ghost use Rattle.std.specs.Option.{option_or};
ghost use Rattle.sso_base.specs.Words.{Word as WordOf, Text as TextOf};
ghost use Rattle.world_index.specs.Setting.{set_for_other};
ghost use Rattle.world_index.specs.Writing.{is_written_for};
ghost use Rattle.world_index.specs.Issuing.{issued_of};
ghost use Rattle.running_world.specs.Foreknowing.{IsKnown};
ghost use Rattle.running_world.specs.Indexed.{IsIndexed, IsBehind};
ghost use Rattle.running_world.specs.Noting as spec;
ghost use Rattle.running_world.specs.Running.{places_of};
ghost use Rattle.sso_places.specs.Legal.{IsRole};
ghost use Rattle.running_world.specs.Whole.{IsWhole, IsOfRole};

use crate::foreknown::Foreknown;
use crate::kept::{Asked, Kept};
use crate::told::jar_set;
use crate::writing::{note_op_written, note_rp_written};
use client_registry::Registry;
use sso_base::{NoMemory, Word};
use sso_places::{Jar, To, WorldReply};
use std::alloc::Global;
use world_index::{Halves, Setters, Written};

/// The index of the places so far.
#[derive(Drop)]
pub(crate) struct Index {
    pub(crate) setters: Setters,
    pub(crate) written: Written,
    pub(crate) halves: Halves,
}

impl Index {
    /// The index of no places, for `clients` clients.
    pub(crate) fn new(alloc: Global, clients: u32) -> Result<Index, NoMemory>
        ensures count { IfOk result (λ index. length index.written ≡ clients) }
        ensures set { IfOk result (λ index. (w : WordOf) (from : ℕ) → set_for_other index.setters w from ≡ false) }
        ensures wrote { IfOk result (λ index. (t : TextOf) (client : ℕ) → is_written_for index.written t client ≡ false) }
        ensures issued { IfOk result (λ index. (half : TextOf) → issued_of index.halves half ≡ None) }
    {
        Ok(Index {
            setters: Setters::new(alloc),
            written: Written::new(alloc, clients)?,
            halves: Halves::new(alloc),
        })
    }
}

// Notes that the word, if there is one, is set under a number.
fn note_word(setters: &mut Setters, word: &Option<Word>, from: u32) -> Result<(), NoMemory>
    ensures ok { OnOk result (spec.IsWordSet setters.old setters.new from word.now) }
    ensures err { OnErr result (setters.new ≡ setters.old) }
{
    match word {
        Some(word) => setters.note(word, from),
        None => Ok(()),
    }
}

// Notes that the cookies of a jar are set under a number.
fn note_set(setters: &mut Setters, set: &Jar, from: u32) -> Result<(), NoMemory>
    ensures ok { OnOk result (spec.AreWordsSet setters.old setters.new from set.now) }
    ensures either { spec.AreWordsPartlySet setters.old setters.new from set.now }
{
    note_word(setters, &set.first, from)?;
    note_word(setters, &set.second, from)
}

// Notes that the word, if there is one, is issued at a place.
fn note_half(halves: &mut Halves, word: &Option<Word>, place: u64) -> Result<(), NoMemory>
    ensures ok { OnOk result ((half : TextOf) → issued_of halves.new half ≡ option_or (issued_of halves.old half) (spec.issued_if half place word.now)) }
    ensures err { OnErr result (halves.new ≡ halves.old) }
{
    match word {
        Some(word) => halves.note(word, place),
        None => Ok(()),
    }
}

// Notes the code and the access token that a reply issues at a place.
fn note_issued(halves: &mut Halves, reply: &WorldReply, place: u64) -> Result<(), NoMemory>
    ensures ok { OnOk result (spec.AreIssued halves.old halves.new place reply.now) }
    ensures either { spec.ArePartlyIssued halves.old halves.new place reply.now }
{
    let WorldReply::Provider(reply) = reply else {
        return Ok(());
    };
    note_half(halves, &reply.code(), place)?;
    note_half(halves, &reply.access(), place)
}

// Notes the tokens that a place writes.
fn note_written(
    written: &mut Written,
    alloc: Global,
    registry: &Registry,
    asked: &Asked,
    reply: &WorldReply,
    fore: &Foreknown,
) -> Result<(), NoMemory>
    requires count { length written.old ≡ length registry.now.clients }
    requires role { IsRole registry.now asked.now.to }
    requires known { IsKnown registry.now fore.now }
    ensures count { length written.new ≡ length written.old }
    ensures ok { OnOk result (spec.AreNoted written.old written.new (spec.writes_by registry.now asked.now fore.now asked.now.to reply.now)) }
    ensures either { spec.ArePartlyNoted written.old written.new (spec.writes_by registry.now asked.now fore.now asked.now.to reply.now) }
{
    match (asked.to, reply) {
        (To::Provider, WorldReply::Provider(reply)) => {
            note_op_written(written, alloc, registry, asked, reply, fore)
        }
        (To::Party(party), WorldReply::Party(reply)) => {
            note_rp_written(written, alloc, registry, party, asked, reply)
        }
        _ => Ok(()),
    }
}

// Indexes the place. If memory runs out, parts of it may be indexed.
fn note_place(
    index: &mut Index,
    alloc: Global,
    registry: &Registry,
    kept: &Kept,
    place: u64,
    fore: &Foreknown,
) -> Result<(), NoMemory>
    requires count { length index.old.written ≡ length registry.now.clients }
    requires whole { IsWhole kept.now }
    requires role { IsOfRole registry.now kept.now }
    requires known { IsKnown registry.now fore.now }
    ensures count { length index.new.written ≡ length index.old.written }
    ensures ok { OnOk result (spec.IsNoted registry.now index.old index.new kept.now place fore.now) }
    ensures partly { spec.IsPartlyNoted registry.now index.old index.new kept.now place fore.now }
{
    let Some(asked) = &kept.asked else {
        return Ok(());
    };
    note_set(&mut index.setters, &jar_set(&kept.reply), asked.from)?;
    note_issued(&mut index.halves, &kept.reply, place)?;
    note_written(
        &mut index.written,
        alloc,
        registry,
        asked,
        &kept.reply,
        fore,
    )
}

// Indexes the newest place. If memory runs out, parts of it may be indexed.
fn note_newest(
    index: &mut Index,
    alloc: Global,
    registry: &Registry,
    kept: &[Kept],
    fore: &Foreknown,
) -> Result<(), NoMemory>
    requires count { length index.old.written ≡ length registry.now.clients }
    requires whole { AllByRecursion IsWhole (reverse kept.now) }
    requires roles { AllByRecursion (IsOfRole registry.now) (reverse kept.now) }
    requires known { IsKnown registry.now fore.now }
    requires newest { IsBehind registry.now (Some fore.now) (reverse kept.now) }
    requires indexed { IsIndexed registry.now index.old (Some fore.now) (places_of registry.now (reverse kept.now)) }
    ensures count { length index.new.written ≡ length index.old.written }
    ensures ok { OnOk result (IsIndexed registry.now index.new None (places_of registry.now (reverse kept.now))) }
    ensures partly { IsIndexed registry.now index.new (Some fore.now) (places_of registry.now (reverse kept.now)) }
{
    match kept.last() {
        Some(newest) => note_place(index, alloc, registry, newest, kept.len() as u64, fore),
        None => Ok(()),
    }
}

/// Indexes the newest place, if that was not done.
pub(crate) fn settle(
    index: &mut Index,
    behind: &mut Option<Foreknown>,
    alloc: Global,
    registry: &Registry,
    kept: &[Kept],
) -> Result<(), NoMemory>
    requires count { length index.old.written ≡ length registry.now.clients }
    requires whole { AllByRecursion IsWhole (reverse kept.now) }
    requires roles { AllByRecursion (IsOfRole registry.now) (reverse kept.now) }
    requires known { IfSome behind.old (IsKnown registry.now) }
    requires newest { IsBehind registry.now behind.old (reverse kept.now) }
    requires indexed { IsIndexed registry.now index.old behind.old (places_of registry.now (reverse kept.now)) }
    ensures count { length index.new.written ≡ length index.old.written }
    ensures indexed { IsIndexed registry.now index.new behind.new (places_of registry.now (reverse kept.now)) }
    ensures ok { OnOk result (behind.new ≡ None) }
    ensures err { OnErr result (behind.new ≡ behind.old) }
{
    if let Some(fore) = &*behind {
        note_newest(index, alloc, registry, kept, fore)?;
    }
    *behind = None;
    Ok(())
}

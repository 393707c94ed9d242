//! The top call.

ghost use Rattle.std.specs.Prelude.{◌≡◌, ◌⊎◌, ◌^◌, ◌≤◌, ◌<◌, ℕ, true, false, List, length, Some};
ghost use Rattle.std.specs.List.{All};
ghost use Rattle.sso_base.specs.Outside.{Content};
ghost use Rattle.command_line.specs.declared.command.Command.TheVariants.{Storm};
ghost use Rattle.command_line.specs.Commands.{command_of, is_command, asks_replay, asks_storm, asks_token, asks_op, asks_rp};
ghost use Rattle.command_line.specs.Commands.{asks_op_plus, asks_rp_plus};
ghost use Rattle.sso.specs.Answer.{storm_answer};
ghost use Rattle.sso.specs.Ends.{ShowsUsage, ReportsShelf, RefusesConfiguration, RefusesTrace, OpensToken, RunsProvider, RunsServer, RefusesTokenOrMetadata};
ghost use Rattle.sso.specs.Ends.{RunsProviderPlus, RunsPartyPlus};
ghost use Rattle.sso.specs.Ends.{RunsParty, StopsWriting, status_for, IsStatus, IsStatusOf, is_refusal, asks_play, is_serving};
ghost use Rattle.sso.specs.SignOn.{Replays, Storms};
ghost use Rattle.sso.specs.Outcomes.{IsWritten};
ghost use Rattle.sso.specs.Statuses.{Ended};

use crate::command::answer_words;
use crate::outcome::Outcome;
use server_desk::{Clock, Desk, Door, Draw, Link};
use serving::Tells;
use sso_base::{Shelf, Sink, Text, write_whole};
use std::alloc::Global;
use std::sync::Wait;
use std::thread::Threads;

/// Writes the text of an outcome, and returns the exit status.
fn write_outcome<K: Sink>(out: &mut K, outcome: &Outcome) -> u8
    ensures written { IsWritten (K.taken out.old) (K.taken out.new) (K.faults out.old) (K.faults out.new) outcome.now result }
    ensures later { K.faults out.old ≤ K.faults out.new }
{
    match write_whole(out, outcome.text.as_bytes()) {
        Ok(()) => outcome.status,
        Err(_) => 6,
    }
}

// The program, with its contract as one statement about how it ends.
fn run<R: Threads + Wait + Sync, H: Shelf, K: Sink, D: Door, L: Link, C: Clock, W: Draw>(
    rt: &R,
    alloc: Global,
    words: &[Text],
    shelf: &mut H,
    out: &mut K,
    desks: &mut Vec<Desk<D, L, C, W>>,
) -> u8
    requires few { length desks.old.items ≤ 64 }
    requires desks { All (λ desk. (desk.turns ≤ 2 ^ 56) × ((D.state desk.door).given < 2 ^ 63)) desks.old.items }
    ensures ended { Ended (record {
      tells = ⟦<Desk<D, L, C, W> as Tells>⟧.telling;
      olds = desks.old.items;
      news = desks.new.items;
      contents = H.contents shelf.old;
      shelf_before = H.faults shelf.old;
      shelf_after = H.faults shelf.new;
      words = words.now;
      before = K.faults out.old;
      after = K.faults out.new;
      old = K.taken out.old;
      new = K.taken out.new;
    }) result }
    ensures words { is_command words.now ≡ false → IsStatus 2 result }
    ensures storm { (number count : ℕ) → command_of words.now ≡ Some (Storm number count) → IsStatus (storm_answer number count).status result }
    ensures contents { (contents : List Content) → H.contents shelf.old ≡ Some contents → IsStatusOf (status_for contents (command_of words.now)) result }
    ensures idle { is_serving (command_of words.now) ≡ false → desks.new.items ≡ desks.old.items }
    ensures kept { H.contents shelf.new ≡ H.contents shelf.old }
    ensures shelf_later { H.faults shelf.old ≤ H.faults shelf.new }
    ensures sink_later { K.faults out.old ≤ K.faults out.new }
{
    match answer_words(rt, alloc, words, shelf, desks) {
        Ok(outcome) => write_outcome(out, &outcome),
        Err(_) => 1,
    }
}

/// Runs the program and returns its exit status. The words are those after the program's name. Files are fetched from the
/// shelf, the text is written to the sink, and connections are served at the desks.
///
/// | Status | Meaning | Text |
/// |---|---|---|
/// | 0 | `replay`: the trace was played to its end, and no premise failed | the text of its play |
/// | | `storm`: its play went to its end, and no premise failed | the summary of its play |
/// | | `token`: the token is sealed under the secret | its payload and a line feed |
/// | | `op`, `rp`, `op-plus`, `rp-plus`: each desk served its turns or has a closed door | `served` and the connections, `entries` and those of the history |
/// | 1 | out of memory | none |
/// | 2 | the words are not a command | the usage |
/// | 3 | CONFIG is rejected, by `op-plus` also for URIs, or has no party NAME | `configuration`, the refusal's name and values, or `configuration NoParty` |
/// | 4 | TRACE is not an accepted trace | `trace`, the refusal's name and the number of its line |
/// | 5 | the shelf's fault count rose | `shelf` |
/// | 6 | the sink's fault count rose | a prefix of one of these texts |
/// | 7 | the trace was played to its end, and a premise failed | the text or the summary of its play, with the first place at which one fails |
/// | 8 | a history would have exceeded its limit before the end of the trace | the text or the summary so far, and `journal` with the place |
/// | 9 | a door's fault count rose | `door` |
/// | 10 | the secret is empty or longer than 128 bytes, or the token is not sealed under it | `token Secret`, or `token` and the refusal's name |
/// | | DISCOVERY has more than 65,536 bytes, or is not the metadata of the configuration's issuer | `discovery Size`, or `discovery` and the refusal's name |
///
/// With the statuses 0, 7 and 8 the whole text was written.
///
/// The words and the contents of the shelf determine the status, unless memory ran out, the shelf or the sink failed, or desks
/// served. The statuses are tried in the order 2, 5, 3, 10 for DISCOVERY, 4, 8, 7, 10, 9, 0. A secret and a token are the
/// contents of their files, each without one line feed at its end, if there is one.
///
/// Needs at most 64 desks, each of at most 2^56 turns, whose doors have given fewer than 2^63 connections.
pub fn sso<R: Threads + Wait + Sync, H: Shelf, K: Sink, D: Door, L: Link, C: Clock, W: Draw>(
    rt: &R,
    alloc: Global,
    words: &[Text],
    shelf: &mut H,
    out: &mut K,
    desks: &mut Vec<Desk<D, L, C, W>>,
) -> u8
    requires few { length desks.old.items ≤ 64 }
    requires desks { All (λ desk. (desk.turns ≤ 2 ^ 56) × ((D.state desk.door).given < 2 ^ 63)) desks.old.items }

    // The sign-on theorem, and that honest logins succeed, are parts of these six clauses. They are about the same play whose
    // text was written.
    ensures replayed { result ≡ 0 → asks_replay (command_of words.now) ≡ true
        → Replays (H.contents shelf.old) words.now 0 (K.taken out.old) (K.taken out.new) }
    ensures broken { result ≡ 7 → asks_replay (command_of words.now) ≡ true
        → Replays (H.contents shelf.old) words.now 7 (K.taken out.old) (K.taken out.new) }
    ensures full { result ≡ 8 → asks_replay (command_of words.now) ≡ true
        → Replays (H.contents shelf.old) words.now 8 (K.taken out.old) (K.taken out.new) }
    ensures stormed { result ≡ 0 → asks_storm (command_of words.now) ≡ true → Storms words.now 0 (K.taken out.old) (K.taken out.new) }
    ensures storm_broken { result ≡ 7 → asks_storm (command_of words.now) ≡ true → Storms words.now 7 (K.taken out.old) (K.taken out.new) }
    ensures storm_full { result ≡ 8 → asks_storm (command_of words.now) ≡ true → Storms words.now 8 (K.taken out.old) (K.taken out.new) }
    ensures play { (result ≡ 7) ⊎ (result ≡ 8) → asks_play (command_of words.now) ≡ true }
    ensures opened { result ≡ 0 → asks_token (command_of words.now) ≡ true → OpensToken (H.contents shelf.old) words.now (K.taken out.old) (K.taken out.new) }
    ensures provider { result ≡ 0 → asks_op (command_of words.now) ≡ true
        → RunsProvider ⟦<Desk<D, L, C, W> as Tells>⟧.telling desks.old.items desks.new.items
        (H.contents shelf.old) words.now false (K.taken out.old) (K.taken out.new) }
    ensures party { result ≡ 0 → asks_rp (command_of words.now) ≡ true
        → RunsParty ⟦<Desk<D, L, C, W> as Tells>⟧.telling desks.old.items desks.new.items
        (H.contents shelf.old) words.now false (K.taken out.old) (K.taken out.new) }
    ensures provider_plus { result ≡ 0 → asks_op_plus (command_of words.now) ≡ true
        → RunsProviderPlus ⟦<Desk<D, L, C, W> as Tells>⟧.telling desks.old.items desks.new.items
        (H.contents shelf.old) words.now false (K.taken out.old) (K.taken out.new) }
    ensures party_plus { result ≡ 0 → asks_rp_plus (command_of words.now) ≡ true
        → RunsPartyPlus ⟦<Desk<D, L, C, W> as Tells>⟧.telling desks.old.items desks.new.items
        (H.contents shelf.old) words.now false (K.taken out.old) (K.taken out.new) }
    ensures command { result ≡ 0 → is_command words.now ≡ true }

    ensures memory { result ≡ 1 → K.taken out.new ≡ K.taken out.old }
    ensures usage { result ≡ 2 → ShowsUsage words.now (K.taken out.old) (K.taken out.new) }
    ensures configuration { result ≡ 3 → RefusesConfiguration (H.contents shelf.old) words.now (K.taken out.old) (K.taken out.new) }
    ensures configured { result ≡ 3 → asks_storm (command_of words.now) ≡ false }
    ensures trace { result ≡ 4 → RefusesTrace (H.contents shelf.old) words.now (K.taken out.old) (K.taken out.new) }
    ensures accepted { result ≡ 4 → asks_storm (command_of words.now) ≡ false }
    ensures shelf { result ≡ 5 → ReportsShelf (H.faults shelf.old) (H.faults shelf.new) words.now (K.taken out.old) (K.taken out.new) }
    ensures sink { result ≡ 6
        → StopsWriting ⟦<Desk<D, L, C, W> as Tells>⟧.telling desks.old.items desks.new.items (H.contents shelf.old)
        (H.faults shelf.old) (H.faults shelf.new) words.now (K.faults out.old) (K.faults out.new) (K.taken out.old) (K.taken out.new) }
    ensures door { result ≡ 9
        → RunsServer ⟦<Desk<D, L, C, W> as Tells>⟧.telling desks.old.items desks.new.items
        (H.contents shelf.old) words.now true (K.taken out.old) (K.taken out.new) }
    ensures refused { result ≡ 10 → RefusesTokenOrMetadata (H.contents shelf.old) words.now (K.taken out.old) (K.taken out.new) }

    // Which status is returned: by the words alone, and by the contents of a shelf, if they are known.
    ensures range { result ≤ 10 }
    ensures words { is_command words.now ≡ false → IsStatus 2 result }
    ensures storm { (number count : ℕ) → command_of words.now ≡ Some (Storm number count) → IsStatus (storm_answer number count).status result }
    ensures contents { (contents : List Content) → H.contents shelf.old ≡ Some contents → IsStatusOf (status_for contents (command_of words.now)) result }

    // The desks are unchanged if nothing is served. The shelf keeps its contents, and no fault count falls.
    ensures idle { is_serving (command_of words.now) ≡ false → desks.new.items ≡ desks.old.items }
    ensures unserved { is_refusal result ≡ true → desks.new.items ≡ desks.old.items }
    ensures kept { H.contents shelf.new ≡ H.contents shelf.old }
    ensures shelf_later { H.faults shelf.old ≤ H.faults shelf.new }
    ensures sink_later { K.faults out.old ≤ K.faults out.new }
{
    run(rt, alloc, words, shelf, out, desks)
}

//! Runs the command of the words, with contents fetched from the shelf.

ghost use Rattle.std.specs.Prelude.{◌≡◌, ◌^◌, ◌≤◌, ◌<◌, false, length, Err, IfOk};
ghost use Rattle.std.specs.List.{All};
ghost use Rattle.sso_base.specs.Faults.{Rose};
ghost use Rattle.command_line.specs.Commands.{command_of};
ghost use Rattle.sso.specs.Ends.{is_serving};
ghost use Rattle.sso.specs.Outcomes.{IsFetched, IsFetchedIf, AnswersStorm, MayReplay, MayOpen, MayServeOp, MayServeRp, MayServeOpPlus};
ghost use Rattle.sso.specs.Outcomes.{MayServeRpPlus, MayAnswer};

use crate::outcome::{Outcome, answer_shelf, answer_usage};
use crate::replaying::answer_replay;
use crate::servers::{answer_op, answer_op_plus, answer_rp, answer_rp_plus};
use crate::storms::answer_storm;
use crate::token::answer_token;
use command_line::{Command, read_command};
use server_desk::{Clock, Desk, Door, Draw, Link};
use serving::Tells;
use sso_base::{Blob, NoMemory, Shelf, ShelfNo, Text};
use std::alloc::Global;
use std::sync::Wait;
use std::thread::Threads;

/// The most bytes fetched of a configuration: one more than its limit, so that a longer one is noticed.
const MOST_CONFIG: usize = 1_048_577;

/// The same for a trace.
const MOST_TRACE: usize = 4_194_305;

/// The same for a provider's metadata.
const MOST_METADATA: usize = 65_537;

/// The same for a secret with a line feed at its end.
const MOST_SECRET_FILE: usize = 130;

/// The same for a token with a line feed at its end.
const MOST_TOKEN_FILE: usize = 8_194;

/// Fetches two contents by their names, each up to its most bytes. The first failure is returned.
fn fetch_both<H: Shelf>(
    alloc: Global,
    shelf: &mut H,
    first: &Text,
    most_first: usize,
    second: &Text,
    most_second: usize,
) -> Result<(Blob, Blob), ShelfNo>
    ensures first { IfOk result (λ both. IsFetched (H.contents shelf.old) first.now most_first both.0) }
    ensures second { IfOk result (λ both. IsFetched (H.contents shelf.old) second.now most_second both.1) }
    ensures failed { result ≡ Err ShelfNo.Failed → Rose (H.faults shelf.old) (H.faults shelf.new) }
    ensures kept { H.contents shelf.new ≡ H.contents shelf.old }
    ensures later { H.faults shelf.old ≤ H.faults shelf.new }
{
    let first = shelf.fetch(alloc, first, most_first)?;
    let second = shelf.fetch(alloc, second, most_second)?;
    Ok((first, second))
}

/// Fetches a configuration, and a provider's metadata if they are named. The first failure is returned.
fn fetch_party<H: Shelf>(
    alloc: Global,
    shelf: &mut H,
    config: &Text,
    metadata: &Option<Text>,
) -> Result<(Blob, Option<Blob>), ShelfNo>
    ensures config { IfOk result (λ both. IsFetched (H.contents shelf.old) config.now 1048577 both.0) }
    ensures metadata { IfOk result (λ both. IsFetchedIf (H.contents shelf.old) metadata.now 65537 both.1) }
    ensures failed { result ≡ Err ShelfNo.Failed → Rose (H.faults shelf.old) (H.faults shelf.new) }
    ensures kept { H.contents shelf.new ≡ H.contents shelf.old }
    ensures later { H.faults shelf.old ≤ H.faults shelf.new }
{
    let config = shelf.fetch(alloc, config, MOST_CONFIG)?;
    match metadata {
        Some(name) => Ok((config, Some(shelf.fetch(alloc, name, MOST_METADATA)?))),
        None => Ok((config, None)),
    }
}

/// The outcome for the contents of a configuration and a trace.
fn replay_words<H: Shelf>(
    alloc: Global,
    shelf: &mut H,
    config: &Text,
    trace: &Text,
) -> Result<Outcome, NoMemory>
    ensures may { IfOk result (λ outcome. MayReplay (H.contents shelf.old) (H.faults shelf.old) (H.faults shelf.new) config.now trace.now outcome) }
    ensures kept { H.contents shelf.new ≡ H.contents shelf.old }
    ensures later { H.faults shelf.old ≤ H.faults shelf.new }
{
    match fetch_both(alloc, shelf, config, MOST_CONFIG, trace, MOST_TRACE) {
        Ok((config, trace)) => answer_replay(alloc, config, trace),
        Err(ShelfNo::NoMemory) => Err(NoMemory),
        Err(ShelfNo::Failed) => answer_shelf(alloc),
    }
}

/// The outcome for the contents of a secret's file and a token's file.
fn token_words<H: Shelf>(
    alloc: Global,
    shelf: &mut H,
    secret: &Text,
    token: &Text,
) -> Result<Outcome, NoMemory>
    ensures may { IfOk result (λ outcome. MayOpen (H.contents shelf.old) (H.faults shelf.old) (H.faults shelf.new) secret.now token.now outcome) }
    ensures kept { H.contents shelf.new ≡ H.contents shelf.old }
    ensures later { H.faults shelf.old ≤ H.faults shelf.new }
{
    match fetch_both(
        alloc,
        shelf,
        secret,
        MOST_SECRET_FILE,
        token,
        MOST_TOKEN_FILE,
    ) {
        Ok((secret, token)) => answer_token(alloc, secret.as_bytes(), token.as_bytes()),
        Err(ShelfNo::NoMemory) => Err(NoMemory),
        Err(ShelfNo::Failed) => answer_shelf(alloc),
    }
}

/// The outcome of a storm, given its numbers.
fn storm_words(alloc: Global, number: u32, count: u32) -> Result<Outcome, NoMemory>
    requires { count ≤ 10000 }
    ensures { IfOk result (AnswersStorm number count) }
{
    answer_storm(alloc, number, count)
}

/// Serves the provider of the configuration with this name.
fn op_words<R: Threads + Wait + Sync, H: Shelf, D: Door, L: Link, C: Clock, W: Draw>(
    rt: &R,
    alloc: Global,
    shelf: &mut H,
    config: &Text,
    desks: &mut Vec<Desk<D, L, C, W>>,
) -> Result<Outcome, NoMemory>
    requires few { length desks.old.items ≤ 64 }
    requires desks { All (λ desk. (desk.turns ≤ 2 ^ 56) × ((D.state desk.door).given < 2 ^ 63)) desks.old.items }
    ensures may { IfOk result (λ outcome. MayServeOp ⟦<Desk<D, L, C, W> as Tells>⟧.telling desks.old.items desks.new.items
        (H.contents shelf.old) (H.faults shelf.old) (H.faults shelf.new) config.now outcome) }
    ensures kept { H.contents shelf.new ≡ H.contents shelf.old }
    ensures later { H.faults shelf.old ≤ H.faults shelf.new }
{
    match shelf.fetch(alloc, config, MOST_CONFIG) {
        Ok(config) => answer_op(rt, alloc, config.as_bytes(), desks),
        Err(ShelfNo::NoMemory) => Err(NoMemory),
        Err(ShelfNo::Failed) => answer_shelf(alloc),
    }
}

/// Serves the party `name` of the configuration `config`. It trusts the provider of the metadata, if they are named.
fn rp_words<R: Threads + Wait + Sync, H: Shelf, D: Door, L: Link, C: Clock, W: Draw>(
    rt: &R,
    alloc: Global,
    shelf: &mut H,
    config: &Text,
    name: &Text,
    metadata: &Option<Text>,
    desks: &mut Vec<Desk<D, L, C, W>>,
) -> Result<Outcome, NoMemory>
    requires few { length desks.old.items ≤ 64 }
    requires desks { All (λ desk. (desk.turns ≤ 2 ^ 56) × ((D.state desk.door).given < 2 ^ 63)) desks.old.items }
    ensures may { IfOk result (λ outcome. MayServeRp ⟦<Desk<D, L, C, W> as Tells>⟧.telling desks.old.items desks.new.items
        (H.contents shelf.old) (H.faults shelf.old) (H.faults shelf.new) config.now name.now metadata.now outcome) }
    ensures kept { H.contents shelf.new ≡ H.contents shelf.old }
    ensures later { H.faults shelf.old ≤ H.faults shelf.new }
{
    match fetch_party(alloc, shelf, config, metadata) {
        Ok((config, metadata)) => {
            answer_rp(rt, alloc, config.as_bytes(), name, &metadata, desks)
        }
        Err(ShelfNo::NoMemory) => Err(NoMemory),
        Err(ShelfNo::Failed) => answer_shelf(alloc),
    }
}

/// Serves the provider of the configuration with this name with proof keys, refresh tokens and questions before a sign-out.
fn op_plus_words<R: Threads + Wait + Sync, H: Shelf, D: Door, L: Link, C: Clock, W: Draw>(
    rt: &R,
    alloc: Global,
    shelf: &mut H,
    config: &Text,
    desks: &mut Vec<Desk<D, L, C, W>>,
) -> Result<Outcome, NoMemory>
    requires few { length desks.old.items ≤ 64 }
    requires desks { All (λ desk. (desk.turns ≤ 2 ^ 56) × ((D.state desk.door).given < 2 ^ 63)) desks.old.items }
    ensures may { IfOk result (λ outcome. MayServeOpPlus ⟦<Desk<D, L, C, W> as Tells>⟧.telling desks.old.items desks.new.items
        (H.contents shelf.old) (H.faults shelf.old) (H.faults shelf.new) config.now outcome) }
    ensures kept { H.contents shelf.new ≡ H.contents shelf.old }
    ensures later { H.faults shelf.old ≤ H.faults shelf.new }
{
    match shelf.fetch(alloc, config, MOST_CONFIG) {
        Ok(config) => answer_op_plus(rt, alloc, config.as_bytes(), desks),
        Err(ShelfNo::NoMemory) => Err(NoMemory),
        Err(ShelfNo::Failed) => answer_shelf(alloc),
    }
}

/// Serves the party `name` of the configuration `config` with proof keys.
fn rp_plus_words<R: Threads + Wait + Sync, H: Shelf, D: Door, L: Link, C: Clock, W: Draw>(
    rt: &R,
    alloc: Global,
    shelf: &mut H,
    config: &Text,
    name: &Text,
    desks: &mut Vec<Desk<D, L, C, W>>,
) -> Result<Outcome, NoMemory>
    requires few { length desks.old.items ≤ 64 }
    requires desks { All (λ desk. (desk.turns ≤ 2 ^ 56) × ((D.state desk.door).given < 2 ^ 63)) desks.old.items }
    ensures may { IfOk result (λ outcome. MayServeRpPlus ⟦<Desk<D, L, C, W> as Tells>⟧.telling desks.old.items desks.new.items
        (H.contents shelf.old) (H.faults shelf.old) (H.faults shelf.new) config.now name.now outcome) }
    ensures kept { H.contents shelf.new ≡ H.contents shelf.old }
    ensures later { H.faults shelf.old ≤ H.faults shelf.new }
{
    match shelf.fetch(alloc, config, MOST_CONFIG) {
        Ok(config) => answer_rp_plus(rt, alloc, config.as_bytes(), name, desks),
        Err(ShelfNo::NoMemory) => Err(NoMemory),
        Err(ShelfNo::Failed) => answer_shelf(alloc),
    }
}

/// The outcome for the words after the program's name.
pub fn answer_words<R: Threads + Wait + Sync, H: Shelf, D: Door, L: Link, C: Clock, W: Draw>(
    rt: &R,
    alloc: Global,
    words: &[Text],
    shelf: &mut H,
    desks: &mut Vec<Desk<D, L, C, W>>,
) -> Result<Outcome, NoMemory>
    requires few { length desks.old.items ≤ 64 }
    requires desks { All (λ desk. (desk.turns ≤ 2 ^ 56) × ((D.state desk.door).given < 2 ^ 63)) desks.old.items }
    ensures may { IfOk result (λ outcome. MayAnswer ⟦<Desk<D, L, C, W> as Tells>⟧.telling desks.old.items desks.new.items
        (H.contents shelf.old) (H.faults shelf.old) (H.faults shelf.new) (command_of words.now) outcome) }
    ensures idle { is_serving (command_of words.now) ≡ false → desks.new.items ≡ desks.old.items }
    ensures kept { H.contents shelf.new ≡ H.contents shelf.old }
    ensures later { H.faults shelf.old ≤ H.faults shelf.new }
{
    match read_command(alloc, words)? {
        None => answer_usage(alloc),
        Some(Command::Replay { config, trace }) => replay_words(alloc, shelf, &config, &trace),
        Some(Command::Storm { number, count }) => storm_words(alloc, number, count),
        Some(Command::Token { secret, token }) => token_words(alloc, shelf, &secret, &token),
        Some(Command::Op { config }) => op_words(rt, alloc, shelf, &config, desks),
        Some(Command::OpPlus { config }) => op_plus_words(rt, alloc, shelf, &config, desks),
        Some(Command::RpPlus { config, name }) => {
            rp_plus_words(rt, alloc, shelf, &config, &name, desks)
        }
        Some(
            Command::Rp {
                config,
                name,
                discovery,
            },
        ) => rp_words(rt, alloc, shelf, &config, &name, &discovery, desks),
    }
}

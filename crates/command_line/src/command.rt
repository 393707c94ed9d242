// Commands, and parsing them.

ghost use Rattle.std.specs.Prelude.{◌≡◌, ◌≤◌, true, length, map, IfOk};
ghost use Rattle.std.specs.List.{list_all};
ghost use Rattle.command_line.specs.Commands as spec;
ghost use Rattle.command_line.specs.Commands.{command_of};
ghost use Rattle.command_line.specs.Numbers.{number_in};
ghost use Rattle.command_line.specs.Positionals.{command_by_place};

use crate::number::read_number;
use crate::positionals::{Positionals, read_positionals};
use sso_base::{NoMemory, Text};
use std::alloc::Global;

/// The most logins of a storm.
const MOST_LOGINS: u32 = 10_000;

/// A command of the program.
#[derive(Drop)]
pub enum Command {
    /// `replay CONFIG TRACE`: replays a trace.
    Replay {
        /// The name of the configuration's file.
        config: Text,
        /// The name of the trace's file.
        trace: Text,
    },
    /// `op CONFIG`: serves the provider.
    Op {
        /// The name of the configuration's file.
        config: Text,
    },
    /// `rp CONFIG NAME` or `rp CONFIG NAME DISCOVERY`: serves a relying party.
    Rp {
        /// The name of the configuration's file.
        config: Text,
        /// The relying party's name in the configuration.
        name: Text,
        /// The name of the file with the provider's discovery document, if one is given.
        discovery: Option<Text>,
    },
    /// `op-plus CONFIG`: serves the provider with proof keys (RFC 7636) and refresh tokens (RFC 6749, 6).
    OpPlus {
        /// The name of the configuration's file.
        config: Text,
    },
    /// `rp-plus CONFIG NAME`: serves a relying party with proof keys (RFC 7636).
    RpPlus {
        /// The name of the configuration's file.
        config: Text,
        /// The relying party's name in the configuration.
        name: Text,
    },
    /// `storm NUMBER COUNT`: plays many logins, which are generated from two numbers.
    Storm {
        /// The seed that chooses the users, at most 4,294,967,295.
        number: u32,
        /// The number of logins, from 1 to 10,000.
        count: u32,
    },
    /// `token SECRETFILE TOKENFILE`: verifies a token and prints its payload.
    Token {
        /// The name of the secret's file.
        secret: Text,
        /// The name of the token's file.
        token: Text,
    },
}

// Whether the word is not empty, and does not begin with `-`.
fn is_plain(word: &Text) -> bool
    ensures { result ≡ spec.is_plain word.now }
{
    let word = word.as_str();
    !word.is_empty() && !word.starts_with('-')
}

// Whether each word is plain.
fn are_plain(words: &[Text]) -> bool
    ensures { result ≡ list_all spec.is_plain words.now }
{
    for word in words {
        if !is_plain(word) {
            return false;
        }
    }
    true
}

// The words, borrowed.
fn borrowed(alloc: Global, words: &[Text]) -> Result<Vec<&str>, NoMemory>
    ensures { IfOk result (λ v. map (λ w. w.now) v.items ≡ words.now) }
{
    let mut texts = Vec::new(alloc);
    for word in words {
        texts.push(word.as_str())?;
    }
    Ok(texts)
}

// The command of two words.
fn of_two(alloc: Global, name: &str, config: &str) -> Result<Option<Command>, NoMemory>
    ensures { IfOk result (λ c. c ≡ spec.of_two name.now config.now) }
{
    let config = Text::new(alloc, config)?;
    Ok(match name {
        "op" => Some(Command::Op { config }),
        "op-plus" => Some(Command::OpPlus { config }),
        _ => None,
    })
}

// The command `storm` with these two arguments.
fn storm_of(alloc: Global, number: &str, count: &str) -> Result<Option<Command>, NoMemory>
    ensures { IfOk result (λ c. c ≡ spec.storm_of (number_in 0 4294967295 number.now) (number_in 1 10000 count.now)) }
{
    let Some(number) = read_number(alloc, number, 0, u32::MAX)? else {
        return Ok(None);
    };
    let Some(count) = read_number(alloc, count, 1, MOST_LOGINS)? else {
        return Ok(None);
    };
    Ok(Some(Command::Storm { number, count }))
}

// The command of three words.
fn of_three(
    alloc: Global,
    name: &str,
    first: &str,
    second: &str,
) -> Result<Option<Command>, NoMemory>
    ensures { IfOk result (λ c. c ≡ spec.of_three name.now first.now second.now) }
{
    if name == "storm" {
        return storm_of(alloc, first, second);
    }
    let first = Text::new(alloc, first)?;
    let second = Text::new(alloc, second)?;
    Ok(match name {
        "replay" => Some(Command::Replay {
            config: first,
            trace: second,
        }),
        "rp" => Some(Command::Rp {
            config: first,
            name: second,
            discovery: None,
        }),
        "rp-plus" => Some(Command::RpPlus {
            config: first,
            name: second,
        }),
        "token" => Some(Command::Token {
            secret: first,
            token: second,
        }),
        _ => None,
    })
}

// The command of four words.
fn of_four(
    alloc: Global,
    name: &str,
    config: &str,
    party: &str,
    discovery: &str,
) -> Result<Option<Command>, NoMemory>
    ensures { IfOk result (λ c. c ≡ spec.of_four name.now config.now party.now discovery.now) }
{
    if name != "rp" {
        return Ok(None);
    }
    Ok(Some(Command::Rp {
        config: Text::new(alloc, config)?,
        name: Text::new(alloc, party)?,
        discovery: Some(Text::new(alloc, discovery)?),
    }))
}

// The command with these words at these positions.
fn choose(alloc: Global, words: &Positionals<'_>) -> Result<Option<Command>, NoMemory>
    ensures { IfOk result (λ c. c ≡ command_by_place words.now) }
{
    let (Some(name), Some(first)) = (words.name, words.first) else {
        return Ok(None);
    };
    match (words.second, words.third) {
        (None, None) => of_two(alloc, name, first),
        (Some(second), None) => of_three(alloc, name, first, second),
        (Some(second), Some(third)) => of_four(alloc, name, first, second, third),
        (None, Some(_)) => Ok(None),
    }
}

// The command of two to four plain words, as `clap` parses them.
#[tactic(auto, using(crate::proofs::Laws::of_places))]
fn read_plain(alloc: Global, words: &[Text]) -> Result<Option<Command>, NoMemory>
    requires least { 2 ≤ length words.now }
    requires most { length words.now ≤ 4 }
    requires plain { list_all spec.is_plain words.now ≡ true }
    ensures { IfOk result (λ c. c ≡ command_of words.now) }
{
    let texts = borrowed(alloc, words)?;
    match read_positionals(alloc, texts.as_slice()) {
        Ok(words) => choose(alloc, &words),
        // `clap` accepts such words, so memory ran out.
        Err(_) => Err(NoMemory),
    }
}

/// The command of the words after the program's name, or `None` if they are not one. No command has a word that is empty or
/// begins with `-`, or a number of `storm` that is out of range or has leading zeros.
#[tactic(auto, using(crate::proofs::Laws::too_few, crate::proofs::Laws::too_many, crate::proofs::Laws::not_plain))]
pub fn read_command(alloc: Global, words: &[Text]) -> Result<Option<Command>, NoMemory>
    ensures { IfOk result (λ c. c ≡ command_of words.now) }
{
    if (2..=4).contains(&words.len()) && are_plain(words) {
        read_plain(alloc, words)
    } else {
        Ok(None)
    }
}

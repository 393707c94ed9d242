// The words by position, as `clap` parses them.

ghost use Rattle.std.specs.Prelude.{◌≡◌, ◌≤◌, true, length, map, IfOk, IfErr};
ghost use Rattle.std.specs.List.{list_all};
ghost use Rattle.clap.specs.Words.{app_of, kind_of};
ghost use Rattle.command_line.specs.Commands.{is_plain};
ghost use Rattle.command_line.specs.Positionals.{HasPlaces, flat};

use clap::error::ErrorKind;
use clap::{Arg, Command, Error};
use std::alloc::{AllocError, Global};

// The words by position: the command's name, and up to three after it.
#[derive(Clone, Copy)]
pub(crate) struct Positionals<'a> {
    pub(crate) name: Option<&'a str>,
    pub(crate) first: Option<&'a str>,
    pub(crate) second: Option<&'a str>,
    pub(crate) third: Option<&'a str>,
}

// The grammar for `clap`: two required positionals and two optional ones. The words have no program name before them, and no
// `--help`.
fn flat_command<'a>(alloc: Global) -> Result<Command<'a>, AllocError>
    ensures { IfOk result (λ command. app_of command ≡ flat) }
{
    let name = Arg::new(alloc, "name").required(true);
    let first = Arg::new(alloc, "first").required(true);
    let second = Arg::new(alloc, "second");
    let third = Arg::new(alloc, "third");
    Command::new(alloc, "sso")
        .no_binary_name(true)
        .disable_help_flag(true)
        .arg(name)?
        .arg(first)?
        .arg(second)?
        .arg(third)
}

// The words by position. `clap` accepts any two to four plain words, so this fails only if memory runs out.
pub(crate) fn read_positionals<'a>(
    alloc: Global,
    words: &'a [&'a str],
) -> Result<Positionals<'a>, Error>
    requires least { 2 ≤ length words.now }
    requires most { length words.now ≤ 4 }
    requires plain { list_all is_plain (map (λ w. w.now) words.now) ≡ true }
    ensures places { IfOk result (λ p. HasPlaces p (map (λ w. w.now) words.now)) }
    ensures memory { IfErr result (λ e. kind_of e ≡ ErrorKind.OutOfMemory) }
{
    let matches = flat_command(alloc)?.try_get_matches_from(words)?;
    Ok(Positionals {
        name: matches.get_str("name"),
        first: matches.get_str("first"),
        second: matches.get_str("second"),
        third: matches.get_str("third"),
    })
}

// The values of single words of a line.

ghost use Rattle.std.specs.Prelude.{◌≡◌, IfOk};
ghost use Rattle.sso_base.specs.RequestLine.{method_of as method_named};
ghost use Rattle.trace_lines.specs.Values as spec;

use crate::line::Shown;
use crate::number::{read_number, read_within};
use client_registry::Registry;
use sso_base::{LATEST_MOMENT, Method, Moment, NoMemory, Text, Word};
use sso_places::To;
use std::alloc::Global;

// A moment.
pub(crate) fn read_moment(word: &str) -> Option<Moment>
    ensures { result ≡ spec.moment_of word.now }
{
    Moment::new(read_within(word, 0, LATEST_MOMENT)?)
}

// The number of a browser.
pub(crate) fn read_browser(word: &str) -> Option<u32>
    ensures { result ≡ spec.browser_of word.now }
{
    let browser = read_within(word, 1, 65_535)?;
    Some(browser as u32)
}

// The number of a browser, or 0 for a server.
pub(crate) fn read_sender(word: &str) -> Option<u32>
    ensures { result ≡ spec.sender_of word.now }
{
    let sender = read_within(word, 0, 65_535)?;
    Some(sender as u32)
}

// A place, from 1.
pub(crate) fn read_place(word: &str) -> Option<u64>
    ensures { result ≡ spec.place_of word.now }
{
    read_within(word, 1, u64::MAX)
}

// The number of a message, from 0.
pub(crate) fn read_message(word: &str) -> Option<u64>
    ensures { result ≡ spec.message_of word.now }
{
    read_number(word)
}

// The number of the party with this name.
pub(crate) fn read_party(registry: &Registry, word: &str) -> Option<u32>
    ensures { result ≡ spec.party_of registry.now word.now }
{
    registry.find_party(word.as_bytes())
}

// The provider for `op`, or the party with this name.
pub(crate) fn read_role(registry: &Registry, word: &str) -> Option<To>
    ensures { result ≡ spec.role_of registry.now word.now }
{
    if word == "op" {
        return Some(To::Provider);
    }
    let party = read_party(registry, word)?;
    Some(To::Party(party))
}

// True for `yes`, false for `no`.
pub(crate) fn read_choice(word: &str) -> Option<bool>
    ensures { result ≡ spec.choice_of word.now }
{
    if word == "yes" {
        return Some(true);
    }
    (word == "no").then_some(false)
}

// A method.
pub(crate) fn method_of(word: &str) -> Method
    ensures { result ≡ method_named word.now }
{
    Method::of_name(word.as_bytes())
}

// A part, absent if it is `-`.
pub(crate) fn part_of(alloc: Global, word: &str) -> Result<Option<Text>, NoMemory>
    ensures { IfOk result (λ part. part ≡ spec.part_of word.now) }
{
    if word == "-" {
        return Ok(None);
    }
    Ok(Some(Text::new(alloc, word)?))
}

// A cookie.
pub(crate) fn cookie_of(word: &str) -> Shown
    ensures { result ≡ spec.cookie_of word.now }
{
    if word == "-" {
        return Shown::Absent;
    }
    if word == "jar" {
        return Shown::Jar;
    }
    match Word::read(word.as_bytes()) {
        None => Shown::Absent,
        Some(word) => Shown::Given(word),
    }
}

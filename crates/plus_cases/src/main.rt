//! Cases of `op-plus`, each a line that a person can read: a provider with proof keys (RFC 7636), refresh tokens (RFC 6749, 6) and
//! sign-outs that a relying party starts (RP-Initiated Logout 1.0).
//!
//! The file `stdin` has the cases, and `stdout` has them with their answers. The crate `case_lines` documents how a line is read. The
//! comments in the table name the source of the expected answers. A line is parsed as a request, which is processed as in a server, by
//! reading and `step`, and its reply is printed.
//!
//! | Call | Effect or answer |
//! |---|---|
//! | `challenge|VERIFIER` | the challenge of this verifier |
//! | `read challenge|FORM`, `read verifier|FORM` | the challenge or the verifier in a form, `absent` or `bad` |
//! | `returns|LINES` | whether where browsers may be sent is accepted in the configuration with these lines in the client of the shop, or why not |
//! | `has|LINES|CLIENT|URI` | whether the URI is registered by them for the client with this number |
//! | `provider|LINES` | begins the provider of the configuration with these lines |
//! | `ask|MOMENT|METHOD|TARGET|BODY|BROWSER|SESSION|AUTHORIZATION` | the line of the reply |
//! | `send|..`, with the same fields | the line, the reply in HTTP, and the messages in it |
//! | `times|COUNT|ask|..` | the first line of so many calls, and how many lines are equal to it |
//! | `rotate|COUNT|MOMENT` | the same for requests of the shop, each with the refresh token of the reply before it |
//! | `keep` | the ID Token in the last reply is `$hint$` from now on, and `$other hint$` is one with another last character |
//!
//! LINES are separated by ` / `, and the configuration is `sample` of `sample_configuration`. The request at place p, from 1, draws the
//! words 4p - 3 to 4p. Besides the texts of words, the names are those of `texts` and of the last reply, and `COUNT*TEXT`, a text
//! that is repeated.
//!
//! | Module | What it has |
//! |---|---|
//! | `configured` | the configuration with lines in it |
//! | `reading` | the calls on challenges and verifiers |
//! | `sending` | the calls `returns` and `has` |
//! | `provider` | the provider of a run |
//! | `lines` | the lines of replies |
//! | `texts` | the named texts |
//!
//! A call here has a contract only if the calls below it need one.
#![tactic(auto)]

mod configured;
mod lines;
mod provider;
mod reading;
mod sending;
mod texts;

use crate::provider::{Begins, Lined, PlusCore, Provider};
use case_lines::{Cases, Run, moment, number, print_cases, times, told, written};
use sso_base::{Moment, NoMemory, Text, Word};
use std::alloc::Global;
use std::{io, mem};

// The provider, its run, the second word that its last request drew, and the ID Token that was kept.
#[derive(Drop)]
struct PlusCases<P: Begins> {
    provider: Option<Provider<P>>,
    run: Run,
    second: Word,
    hint: Option<Text>,
}

impl<P: Begins> PlusCases<P>
where
    P::Reply: Lined,
{
    fn new(alloc: Global) -> PlusCases<P> {
        PlusCases {
            provider: None,
            run: Run::new(alloc),
            second: Word::new([0; 32]),
            hint: None,
        }
    }

    // Sets the provider, and begins its run. (The old one is dropped by a call, and not in place: the proof of that is long.)
    fn begin(&mut self, alloc: Global, lines: &str) -> Result<String, NoMemory> {
        let provider = Provider::begin(alloc, lines)?;
        let begins = provider.is_some();
        drop(mem::replace(&mut self.provider, provider));
        self.run = Run::new(alloc);
        told(alloc, if begins { "begun" } else { "no such provider" })
    }

    fn ask(
        &mut self,
        alloc: Global,
        call: &str,
        at: Moment,
        fields: &[&str],
    ) -> Result<String, NoMemory> {
        self.second = self.run.words()[1];
        match &mut self.provider {
            Some(provider) => provider.ask(alloc, &mut self.run, call, at, fields),
            None => told(alloc, "no provider"),
        }
    }

    fn ask_at(
        &mut self,
        alloc: Global,
        call: &str,
        at: &str,
        fields: &[&str],
    ) -> Result<String, NoMemory> {
        match moment(at) {
            Some(at) => self.ask(alloc, call, at, fields),
            None => told(alloc, "no such moment"),
        }
    }

    // The first answer to a request that is made so many times, and how many answers are equal to it.
    fn ask_often(
        &mut self,
        alloc: Global,
        count: u32,
        at: &str,
        fields: &[&str],
    ) -> Result<String, NoMemory> {
        let first = self.ask_at(alloc, "ask", at, fields)?;
        let mut same: u32 = 1;
        for _ in 1..count {
            if self.ask_at(alloc, "ask", at, fields)?.as_str() == first.as_str() {
                same = same.wrapping_add(1);
            }
        }
        Ok(format!(in alloc; "{}, {same} times", first.as_str())?)
    }

    // The answer to a refresh request of the shop with the second word of the last request.
    fn refresh(&mut self, alloc: Global, at: &str) -> Result<String, NoMemory> {
        let token = self.second.to_text(alloc)?;
        let request = texts::named("refresh").unwrap_or_default();
        let body = [request, token.as_str()].concat(alloc)?;
        self.ask_at(alloc, "ask", at, &["POST", "/token", body.as_str()])
    }

    // The first answer to so many refresh requests, each with the token of the reply before it, and how many answers are equal to it.
    fn rotate(&mut self, alloc: Global, count: u32, at: &str) -> Result<String, NoMemory> {
        let first = self.refresh(alloc, at)?;
        let mut same: u32 = 1;
        for _ in 1..count {
            if self.refresh(alloc, at)?.as_str() == first.as_str() {
                same = same.wrapping_add(1);
            }
        }
        Ok(format!(in alloc; "{}, {same} times", first.as_str())?)
    }

    fn keep(&mut self, alloc: Global) -> Result<String, NoMemory> {
        match self.run.text("ID Token") {
            Some(token) => {
                self.hint = Some(Text::new(alloc, token)?);
                told(alloc, "kept")
            }
            None => told(alloc, "no ID Token"),
        }
    }
}

// The text with another last character.
fn with_another_end(alloc: Global, text: &str) -> Result<Text, NoMemory> {
    let last = text.chars().next_back().unwrap_or(' ');
    let rest = text.strip_suffix(last).unwrap_or(text);
    let end = if last == 'A' { "E" } else { "A" };
    let other = [rest, end].concat(alloc)?;
    Text::new(alloc, other.as_str())
}

// The text of `COUNT*TEXT`, which is the text repeated.
fn repeated(alloc: Global, name: &str) -> Result<Option<Text>, NoMemory> {
    if times(name).is_none() {
        return Ok(None);
    }
    let text = written(alloc, name)?;
    Ok(Some(Text::new(alloc, text.as_str())?))
}

impl<P: Begins> Cases for PlusCases<P>
where
    P::Reply: Lined,
{
    fn answer(&mut self, alloc: Global, fields: &[&str]) -> Result<String, NoMemory> {
        match fields {
            ["challenge", verifier] => reading::challenge(alloc, verifier),
            ["read challenge", form] => reading::challenge_in(alloc, form),
            ["read verifier", form] => reading::verifier_in(alloc, form),
            ["returns", lines] => sending::returns(alloc, lines),
            ["has", lines, client, uri] => sending::has(alloc, lines, number(client), uri),
            ["provider", lines] => self.begin(alloc, lines),
            [call @ ("ask" | "send"), at, request @ ..] => self.ask_at(alloc, call, at, request),
            ["times", count, "ask", at, request @ ..] => {
                self.ask_often(alloc, number(count), at, request)
            }
            ["rotate", count, at] => self.rotate(alloc, number(count), at),
            ["keep"] => self.keep(alloc),
            _ => told(alloc, "no such call"),
        }
    }

    fn text(&self, name: &str) -> Option<&str> {
        match name {
            "hint" => Some(self.hint.as_ref()?.as_str()),
            _ => match texts::named(name) {
                Some(text) => Some(text),
                None => self.run.text(name),
            },
        }
    }

    fn made(&self, alloc: Global, name: &str) -> Result<Option<Text>, NoMemory> {
        match (name, &self.hint) {
            ("other hint", Some(hint)) => Ok(Some(with_another_end(alloc, hint.as_str())?)),
            _ => repeated(alloc, name),
        }
    }
}

fn main(rt: HostRuntime) -> io::Result<()> {
    let mut cases: PlusCases<PlusCore> = PlusCases::new(rt.alloc());
    let printed = print_cases(&rt, &mut cases);
    // (dropped by a call, and not in place: the proof of that is long)
    drop(cases);
    printed
}

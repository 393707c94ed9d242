ghost use Rattle.std.specs.Prelude.{◌≡◌, ◌≢◌, ◌≤◌, ◌==◌, true, false, [], length, take, drop, Err, IfOk, OnOk, OnErr, IsErr};
ghost use Rattle.std.specs.List.{list_any};
ghost use Rattle.server_desk.specs.Doors.{grown};
ghost use Rattle.server_desk.specs.Links.{next_answer, TookCall, told_link, told_faulty_link, has_exchanged};

use crate::link::{Link, LinkNo};
use sso_base::{Blob, NoMemory, Text};
use std::alloc::Global;
use std::marker::Model;

/// The bytes that were sent over a link, and those that came back.
#[derive(Drop)]
pub struct Exchanged {
    /// The recipient, `HOST:PORT`.
    pub to: Text,
    /// The bytes that were sent.
    pub asked: Blob,
    /// The bytes that came back, or `None` if the exchange failed.
    pub back: Option<Blob>,
}

impl Model for Exchanged {
    ghost use Rattle.server_desk.specs.Links.{Exchange};

    ghost Value = { Exchange };

    ghost view = { λ e. record { to = e.to; asked = e.asked; back = e.back } };
}

/// A link in memory. It returns its answers in their order, and then empty bytes. It keeps all exchanges, and never fails,
/// except that memory may run out.
#[derive(Drop)]
pub struct MemoryLink {
    answers: Vec<Blob>,
    place: usize,
    exchanges: Vec<Exchanged>,
    calls: u64,
}

impl Model for MemoryLink {
    ghost use Rattle.std.specs.Prelude.{◌≤◌, length, drop};
    ghost use Rattle.server_desk.specs.Links.{LinkMemory};

    ghost Value = { LinkMemory };

    ghost view = { λ l. record { answers = drop l.place l.answers.items; exchanges = l.exchanges.items; calls = l.calls } };

    ghost invariant = { λ l. l.place ≤ length l.answers.items };
}

// The first of the answers, or no bytes if there is none.
fn first_of(answers: &[Blob]) -> &[u8]
    ensures { result.now ≡ next_answer answers.now }
{
    match answers {
        [] => &[],
        [answer, ..] => answer.as_bytes(),
    }
}

// The first `most` bytes, or all if there are fewer.
fn front(bytes: &[u8], most: usize) -> &[u8]
    ensures value { result.now ≡ take most bytes.now }
    ensures bound { length result.now ≤ most }
{
    if bytes.len() <= most {
        bytes
    } else {
        &bytes[..most]
    }
}

impl MemoryLink {
    /// A link without calls yet, which will return these answers, in this order.
    pub fn new(alloc: Global, answers: Vec<Blob>) -> MemoryLink
        ensures { result ≡ record { answers = answers.items; exchanges = []; calls = 0 } }
    {
        MemoryLink {
            answers,
            place: 0,
            exchanges: Vec::new(alloc),
            calls: 0,
        }
    }

    /// The exchanges, in their order.
    pub fn exchanges(&self) -> &[Exchanged]
        ensures { result.now ≡ self.now.exchanges }
    {
        self.exchanges.as_slice()
    }

    // A copy of the first `most` bytes of the next answer, which is not removed.
    fn answer(&self, alloc: Global, most: usize) -> Result<Blob, NoMemory>
        ensures { IfOk result (λ back. back ≡ take most (next_answer self.now.answers)) }
    {
        Blob::new(alloc, front(first_of(&self.answers[self.place..]), most))
    }

    // Keeps an exchange: a copy of the bytes that were sent, and those that came back.
    fn keep(
        &mut self,
        alloc: Global,
        to: &Text,
        asked: &[u8],
        back: Option<Blob>,
    ) -> Result<(), NoMemory>
        ensures ok { OnOk result (self.new ≡ has_exchanged self.old to.now asked.now back) }
        ensures err { OnErr result (self.new ≡ self.old) }
    {
        let exchanged = Exchanged {
            to: to.copy(alloc)?,
            asked: Blob::new(alloc, asked)?,
            back,
        };
        self.exchanges.push(exchanged)?;
        Ok(())
    }

    // Removes the next answer.
    fn advance(&mut self)
        ensures { self.new ≡ record self.old { answers = drop 1 self.old.answers } }
    {
        if self.place < self.answers.len() {
            self.place += 1;
        }
    }
}

impl Link for MemoryLink {
    ghost state = { told_link };

    fn exchange(
        &mut self,
        alloc: Global,
        to: &Text,
        asked: &[u8],
        most: usize,
    ) -> Result<Blob, LinkNo>
        ensures called { TookCall (told_link self.old) (told_link self.new) to.now asked.now result }
        ensures bound { IfOk result (λ back. length back ≤ most) }
        ensures answer { IfOk result (λ back. back ≡ take most (next_answer self.old.answers)) }
        ensures answers { OnOk result (self.new.answers ≡ drop 1 self.old.answers) }
        ensures kept { OnErr result (self.new ≡ record self.old { calls = grown self.old.calls }) }
        ensures sure { result ≢ Err LinkNo.Failed }
    {
        self.calls = self.calls.saturating_add(1);
        let back = self.answer(alloc, most)?;
        let kept = back.copy(alloc)?;
        self.keep(alloc, to, asked, Some(kept))?;
        self.advance();
        Ok(back)
    }
}

/// A link in memory whose calls with these numbers fail, from 1, and no others. A call that fails keeps its exchange, with
/// nothing that came back, and removes no answer.
#[derive(Drop)]
pub struct FaultyLink {
    link: MemoryLink,
    failing: Vec<u64>,
    calls: u64,
    faults: u64,
}

impl Model for FaultyLink {
    ghost use Rattle.server_desk.specs.Links.{FaultyLinkMemory};

    ghost Value = { FaultyLinkMemory };

    ghost view = { λ l. record { link = l.link; failing = l.failing.items; calls = l.calls; faults = l.faults } };
}

impl FaultyLink {
    /// This link, whose calls with these numbers will fail.
    pub fn new(link: MemoryLink, failing: Vec<u64>) -> FaultyLink
        ensures { result ≡ record { link = link; failing = failing.items; calls = 0; faults = 0 } }
    {
        FaultyLink {
            link,
            failing,
            calls: 0,
            faults: 0,
        }
    }

    /// The link in memory, which has the exchanges.
    pub fn link(&self) -> &MemoryLink
        ensures { result.now ≡ self.now.link }
    {
        &self.link
    }
}

impl Link for FaultyLink {
    ghost state = { told_faulty_link };

    fn exchange(
        &mut self,
        alloc: Global,
        to: &Text,
        asked: &[u8],
        most: usize,
    ) -> Result<Blob, LinkNo>
        ensures called { TookCall (told_faulty_link self.old) (told_faulty_link self.new) to.now asked.now result }
        ensures bound { IfOk result (λ back. length back ≤ most) }
        ensures answer { IfOk result (λ back. back ≡ take most (next_answer self.old.link.answers)) }
        ensures answers { OnOk result (self.new.link.answers ≡ drop 1 self.old.link.answers) }
        ensures kept { OnErr result (self.new.link.answers ≡ self.old.link.answers) }
        ensures quiet { result ≢ Err LinkNo.Failed → self.new.faults ≡ self.old.faults }
        ensures risen { result ≡ Err LinkNo.Failed → self.new.faults ≡ grown self.old.faults }
        ensures same { self.new.failing ≡ self.old.failing }
        ensures fails { list_any (λ call. call == self.new.calls) self.old.failing ≡ true → IsErr result }
        ensures gives { list_any (λ call. call == self.new.calls) self.old.failing ≡ false → result ≢ Err LinkNo.Failed }
    {
        self.calls = self.calls.saturating_add(1);
        let calls = self.calls;
        if self.failing.contains(&calls) {
            self.link.keep(alloc, to, asked, None)?;
            self.faults = self.faults.saturating_add(1);
            return Err(LinkNo::Failed);
        }
        self.link.exchange(alloc, to, asked, most)
    }
}

// Messages are sent over a link, and the notices of a page before it can be written.

ghost use Rattle.std.specs.Prelude.{◌≡◌, List, map, IfOk};
ghost use Rattle.server_desk.specs.Links.{TookCall};
ghost use Rattle.serving.specs.LinkCalls.{LinkCall, sending_of, sent_by, TookCalls};

use server_desk::{Link, LinkNo};
use sso_base::{Blob, Message, Messages, NoMemory, Text};
use sso_http::{message_place, print_message};
use std::alloc::Global;

/// The most bytes that are taken of an answer (our choice).
const MOST_ANSWER: usize = 65_536;

/// A message as it is sent.
#[derive(Drop)]
pub struct Sending {
    /// `HOST:PORT`
    pub to: Text,
    /// Its bytes.
    pub bytes: Blob,
}

/// A message, printed.
pub fn printed(alloc: Global, message: &Message) -> Result<Sending, NoMemory>
    ensures { IfOk result (λ s. s ≡ sending_of message.now) }
{
    Ok(Sending {
        to: message_place(alloc, message)?,
        bytes: print_message(alloc, message)?,
    })
}

/// Messages, printed, in their order.
pub fn printed_all(alloc: Global, messages: &Messages) -> Result<Vec<Sending>, NoMemory>
    ensures { IfOk result (λ v. v.items ≡ map sending_of messages.now) }
{
    let mut all = Vec::new(alloc);
    for i in 0..messages.count() {
        all.push(printed(alloc, messages.at(i))?)?;
    }
    Ok(all)
}

/// Sends a message, and answers what comes back, at most 65,536 bytes of it.
pub fn send<L: Link>(alloc: Global, link: &mut L, sending: &Sending) -> Result<Blob, LinkNo>
    ensures { TookCall (L.state link.old) (L.state link.new) sending.now.to sending.now.bytes result }
{
    link.exchange(alloc, &sending.to, sending.bytes.as_bytes(), MOST_ANSWER)
}

// Sends each message once, in their order, by a call of the link for each. The answers are ignored.
fn send_all<L: Link>(alloc: Global, link: &mut L, all: &[Sending])
    ensures { (calls : List LinkCall) × (sent_by calls ≡ all.now) × TookCalls (L.state link.old) (L.state link.new) calls }
{
    for sending in all {
        let _ = send(alloc, link, sending);
    }
}

/// A reply as HTTP, and the notices that are sent before it. Its bytes are available only after its notices were sent.
#[derive(Drop)]
pub struct Page {
    notices: Vec<Sending>,
    bytes: Blob,
}

/// A page whose notices were sent. Only [`Page::send`] makes one, so the first byte of a page is written after its notices were
/// sent.
#[derive(Drop)]
pub struct SentPage {
    bytes: Blob,
}

impl Page {
    /// A page with these notices and these bytes.
    pub fn new(notices: Vec<Sending>, bytes: Blob) -> Page
        ensures notices { result.notices ≡ notices }
        ensures bytes { result.bytes ≡ bytes }
    {
        Page { notices, bytes }
    }

    /// Sends each notice once, in their order, by a call of the link for each.
    pub fn send<L: Link>(self, alloc: Global, link: &mut L) -> SentPage
        ensures sent { (calls : List LinkCall) × (sent_by calls ≡ self.notices.items) × TookCalls (L.state link.old) (L.state link.new) calls }
        ensures bytes { result.bytes ≡ self.bytes }
    {
        send_all(alloc, link, self.notices.as_slice());
        SentPage { bytes: self.bytes }
    }
}

impl SentPage {
    /// Its bytes.
    pub fn as_bytes(&self) -> &[u8]
        ensures { result.now ≡ self.now.bytes }
    {
        self.bytes.as_bytes()
    }
}

// Messages to other servers, in order.

ghost use Rattle.std.specs.Prelude.{◌≡◌, ◌<◌, List, [], ◌∷◌, ◌++◌, length, IfOk, OnOk, OnErr, slice_get, Some};

use crate::memory::NoMemory;
use crate::message::Message;
use std::alloc::Global;
use std::marker::Model;

/// Messages to other servers. The model is their list.
#[derive(Drop)]
pub struct Messages {
    items: Vec<Message>,
}

impl Model for Messages {
    ghost use Rattle.std.specs.Prelude.{List};
    ghost use Rattle.sso_base.specs.declared.message.Message.{Message};

    ghost Value = { List Message };

    ghost view = { λ m. m.items.items };
}

impl Messages {
    /// An empty list.
    pub fn new(alloc: Global) -> Messages
        ensures { result ≡ [] }
    {
        Messages {
            items: Vec::new(alloc),
        }
    }

    /// Adds a message at the end. On `NoMemory` the list is unchanged.
    pub fn push(&mut self, message: Message) -> Result<(), NoMemory>
        ensures ok { OnOk result (self.new ≡ self.old ++ message ∷ []) }
        ensures err { OnErr result (self.new ≡ self.old) }
    {
        self.items.push(message)?;
        Ok(())
    }

    /// How many messages there are.
    pub fn count(&self) -> usize
        ensures { result ≡ length self.now }
    {
        self.items.len()
    }

    /// The message at this index, counted from 0.
    pub fn at(&self, place: usize) -> &Message
        requires { place < length self.now }
        ensures { slice_get self.now place ≡ Some result.now }
    {
        &self.items[place]
    }

    /// A copy of the messages, in the same order.
    pub fn copy(&self, alloc: Global) -> Result<Messages, NoMemory>
        ensures { IfOk result (λ m. m ≡ self.now) }
    {
        let mut copied = Messages::new(alloc);
        for message in &self.items {
            copied.push(message.copy(alloc)?)?;
        }
        Ok(copied)
    }
}

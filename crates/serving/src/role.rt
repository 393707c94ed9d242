ghost use Rattle.std.specs.Prelude.{◌≡◌, ◌≢◌, ◌≤◌, ◌<◌, [], None, IfOk, ℕ, option_map, unwrap_or};

use sso_base::{Answered, Ask, Core, HttpReply, Message, Messages, NoMemory, Text};
use std::alloc::Global;

/// The role of a server: its core, how requests are parsed for it, and how its replies are sent.
pub trait Role: Sync {
    ghost use Rattle.serving.specs.Manner.{Manner, HasFewerRounds};

    /// The core.
    type Core: Core + Send;

    /// Whether it may serve.
    ghost ready: { Self → Type 0 };

    /// How requests are parsed, and how replies are sent.
    ghost manner: { Self → Manner Self.Core.Ask Self.Core.Reply };

    /// A bound on the number of requests to other servers that follow a reply.
    ghost rounds: { Self.Core.Reply → ℕ };

    /// The names of its two cookies.
    fn cookies(&self, alloc: Global) -> Result<(Text, Text), NoMemory>
        requires { ready self.now }
        ensures { IfOk result (λ names. names ≡ ((manner self.now).first, (manner self.now).second)) };

    /// Parses a request for the core.
    fn prepare(&self, alloc: Global, request: &Ask) -> Result<<Self::Core as Core>::Ask, NoMemory>
        requires { ready self.now }
        ensures { IfOk result (λ asked. asked ≡ (manner self.now).prepared request.now) };

    /// Whether parsing a request proves a password, which takes a good part of a second.
    fn proves(&self, request: &Ask) -> bool
        ensures { result ≡ (manner self.now).proves request.now };

    /// The request to another server that a reply makes, if it makes one.
    fn question(
        &self,
        alloc: Global,
        reply: &<Self::Core as Core>::Reply,
    ) -> Result<Option<Message>, NoMemory>
        ensures { IfOk result (λ question. question ≡ (manner self.now).question reply.now) };

    /// Parses the answer to such a request for the core.
    fn prepare_answer(
        &self,
        alloc: Global,
        reply: &<Self::Core as Core>::Reply,
        answer: &Answered,
    ) -> Result<<Self::Core as Core>::Ask, NoMemory>
        requires { ready self.now }
        ensures { IfOk result (λ asked. asked ≡ (manner self.now).answered reply.now answer.now) };

    /// The number of workers, if there are as many desks.
    fn workers(&self) -> u32
        requires { ready self.now }
        ensures { result ≡ (manner self.now).workers };

    /// Whether a parsed request is small enough for the server.
    fn takes(&self, ask: &<Self::Core as Core>::Ask) -> bool
        ensures { result ≡ (manner self.now).takes ask.now };

    /// The notices that are sent with a reply, if there are any.
    fn notices<'r>(&self, reply: &'r <Self::Core as Core>::Reply) -> Option<&'r Messages>
        ensures { unwrap_or (option_map (λ m. m.now) result) [] ≡ (manner self.now).notices reply.now };

    /// A reply as HTTP.
    fn http(
        &self,
        alloc: Global,
        reply: &<Self::Core as Core>::Reply,
    ) -> Result<HttpReply, NoMemory>
        requires { ready self.now }
        ensures { IfOk result (λ h. h ≡ (manner self.now).http reply.now) };

    /// The weight of a request is the one that its core uses.
    ghost same_weights: { (x : Self) → (manner x).weighs ≡ Self.Core.weighs };

    /// At most two requests to other servers follow a reply. A reply that makes one is not the last.
    ghost few_rounds: { (x : Self) (reply : Self.Core.Reply) → (rounds reply ≤ 2) × ((manner x).question reply ≢ None → 0 < rounds reply) };

    /// After such a request fewer may follow.
    ghost fewer_rounds: { (x : Self) → HasFewerRounds (manner x) Self.Core.is_legal rounds };
}

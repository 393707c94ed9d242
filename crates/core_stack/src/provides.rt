// A core that the provider is in.

ghost use Rattle.std.specs.Prelude.{◌≡◌, ◌≤◌, List, [], ◌∷◌, ◌++◌, reverse, Option, Some, false, IfOk};
ghost use Rattle.std.specs.Option.{option_copied};
ghost use Rattle.sso_base.specs.Legal.{last_moment, IsEntry};
ghost use Rattle.op_answer.specs.Codes.{held_code};

use client_registry::Registry;
use code_grant::CodeRow;
use op_exchange::{OpAsk, OpReply};
use sso_base::{Ask, Core, Entry, HttpReply, Messages, Moment, NoMemory, Word};
use std::alloc::Global;

/// A core that the provider is in, alone or within further cores.
pub trait Provides: Core {
    ghost use Rattle.sso_base.specs.Words as words;
    ghost use Rattle.sso_base.specs.declared.history.Pair as pair_of;
    ghost use Rattle.sso_base.specs.declared.http.Ask as asks;
    ghost use Rattle.sso_base.specs.declared.http.HttpReply as replies;
    ghost use Rattle.sso_base.specs.declared.message.Message as message_of;
    ghost use Rattle.client_registry.specs.Configuration as configuration;
    ghost use Rattle.op_exchange.specs.declared.ask.OpAsk as ask_of;
    ghost use Rattle.op_exchange.specs.declared.ask.OpAsk.TheVariants as op_ask;
    ghost use Rattle.op_exchange.specs.declared.reply.OpReply as reply_of;
    ghost use Rattle.op_exchange.specs.declared.reply.OpReply.TheVariants as op_told;
    ghost use Rattle.op_answer.specs.Legal.{IsLegalHistory};
    ghost use Rattle.op_request.specs.Prepared as requests;
    ghost use Rattle.core_stack.specs.Stacks.{may_be_own, AddsGiven, AreNotices};

    /// The registry of its setup.
    ghost provider_registry: { Self → configuration.Configuration };

    /// The provider's history in a history of this core, both oldest first.
    ghost provided: { List (pair_of.Pair Self.Ask Self.Reply) → List (pair_of.Pair ask_of.OpAsk reply_of.OpReply) };

    /// The provider's request in a request.
    ghost plain_ask: { Self.Ask → Option ask_of.OpAsk };

    /// The provider's reply in a reply, whether the provider gave it or another core refused by itself.
    ghost op_reply: { Self.Reply → Option reply_of.OpReply };

    /// The reply that the provider gave, if it gave one.
    ghost given_reply: { Self.Reply → Option reply_of.OpReply };

    /// The messages of a sign-out, and `None` for any other reply.
    ghost notices: { Self.Reply → Option (List message_of.Message) };

    /// The request in an HTTP request.
    ghost prepared: { configuration.Configuration → asks.Ask → Self.Ask };

    /// A request for the provider alone.
    ghost from_op: { ask_of.OpAsk → Self.Ask };

    /// A reply as it is sent.
    ghost http_of: { configuration.Configuration → Self.Reply → replies.HttpReply };

    /// Which requests hold values of their types.
    ghost IsAsk: { Self.Ask → Type 0 };

    /// Reads the request in an HTTP request.
    fn prepare(alloc: Global, registry: &Registry, request: &Ask) -> Result<Self::Ask, NoMemory>
        ensures { IfOk result (λ asked. asked ≡ prepared registry.now request.now) };

    /// A request for the provider alone, without further parameters.
    fn from_plain(alloc: Global, ask: OpAsk) -> Result<Self::Ask, NoMemory>
        ensures { IfOk result (λ asked. asked ≡ from_op ask) };

    /// The provider's request in a request.
    fn plain<'a>(ask: &'a Self::Ask) -> Option<&'a OpAsk>
        ensures { option_copied result ≡ plain_ask ask.now };

    /// The provider's reply in a reply.
    fn answer<'a>(reply: &'a Self::Reply) -> Option<&'a OpReply>
        ensures { option_copied result ≡ op_reply reply.now };

    /// The reply that the provider gave, if it gave one.
    fn given<'a>(reply: &'a Self::Reply) -> Option<&'a OpReply>
        ensures { option_copied result ≡ given_reply reply.now };

    /// The messages that are sent before a reply; `None` if and only if it is no sign-out.
    fn messages<'a>(reply: &'a Self::Reply) -> Option<&'a Messages>
        ensures { option_copied result ≡ notices reply.now };

    /// The code of the word that the provider holds at the moment.
    fn code(&self, word: Word, at: Moment) -> Option<&CodeRow>
        requires { last_moment (reverse (provided (Self.history self.now))) ≤ at }
        ensures { option_copied result ≡ held_code (reverse (provided (Self.history self.now))) at (Some word) };

    /// A reply as it is sent.
    fn http(alloc: Global, registry: &Registry, reply: &Self::Reply) -> Result<HttpReply, NoMemory>
        ensures { IfOk result (λ h. h ≡ http_of registry.now reply.now) };

    /// The same entry, of which it is known that it holds values of its types. A lemma for the proofs.
    fn known(entry: Entry<Self::Ask>) -> Entry<Self::Ask>
        ensures same { result ≡ entry }
        ensures values { IsEntry IsAsk result };

    /// The provider has no history before the core has one.
    ghost begins: { provided [] ≡ [] };

    /// The registry is that of the setup alone.
    ghost registry_is: { (x y : Self) → Self.setup x ≡ Self.setup y → provider_registry x ≡ provider_registry y };

    /// The provider's history is legal for that registry.
    ghost is_provider: { (x : Self) (h : List (pair_of.Pair Self.Ask Self.Reply))
        → Self.is_legal (Self.setup x) h → IsLegalHistory (provider_registry x) (provided h) };

    /// If the provider gave the reply, the step added the pair of its request and of that reply to the provider's history.
    /// Otherwise the step added nothing there, or a pair that begins and ends no turn, and makes and redeems no code. An added pair
    /// has the moment and the words of the step.
    ghost adds_what_it_gives: { (s : Self.Setup) (h : List (pair_of.Pair Self.Ask Self.Reply)) (p : pair_of.Pair Self.Ask Self.Reply)
        → Self.is_legal s (h ++ p ∷ [])
        → AddsGiven p.entry.at p.entry.fresh (plain_ask p.entry.ask) (given_reply p.reply) (provided h) (provided (h ++ p ∷ [])) };

    /// A reply that the provider gave is the provider's reply in the reply.
    ghost given_is_told: { (t : Self.Reply) (r : reply_of.OpReply) → given_reply t ≡ Some r → op_reply t ≡ Some r };

    /// By itself a core replies as the provider only with refusals: the provider gave all else.
    ghost only_refusals_are_own: { (s : Self.Setup) (h : List (pair_of.Pair Self.Ask Self.Reply)) (p : pair_of.Pair Self.Ask Self.Reply)
        (r : reply_of.OpReply) → Self.is_legal s (h ++ p ∷ []) → op_reply p.reply ≡ Some r → may_be_own r ≡ false → given_reply p.reply ≡ Some r };

    /// The provider answers each sign-out, and its messages are those of the reply.
    ghost signs_out: { (s : Self.Setup) (h : List (pair_of.Pair Self.Ask Self.Reply)) (p : pair_of.Pair Self.Ask Self.Reply)
        (w : Option words.Word) → Self.is_legal s (h ++ p ∷ []) → plain_ask p.entry.ask ≡ Some (op_ask.SignOut w)
        → (sent : List message_of.Message) × (given_reply p.reply ≡ Some (op_told.SignedOut sent)) × (notices p.reply ≡ Some sent) };

    /// A reply has messages if and only if its step added a sign-out to the provider's history, and they are those of that sign-out.
    ghost notices_are: { (s : Self.Setup) (h : List (pair_of.Pair Self.Ask Self.Reply)) (p : pair_of.Pair Self.Ask Self.Reply)
        → Self.is_legal s (h ++ p ∷ []) → AreNotices (notices p.reply) (provided h) (provided (h ++ p ∷ [])) };

    /// The provider's request that is read of an HTTP request, if there is one, is the one that the provider alone reads of it.
    ghost reads_requests: { (c : configuration.Configuration) (request : asks.Ask) (a : ask_of.OpAsk)
        → plain_ask (prepared c request) ≡ Some a → a ≡ requests.prepared c request };

    /// A request for the provider alone is that request of the provider.
    ghost plain_of: { (a : ask_of.OpAsk) → plain_ask (from_op a) ≡ Some a };
}

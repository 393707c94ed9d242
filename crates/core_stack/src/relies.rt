// A core that a relying party is in.

ghost use Rattle.std.specs.Prelude.{◌≡◌, ◌<◌, ℕ, List, [], ◌∷◌, ◌++◌, length, Option, option_map, IfOk};
ghost use Rattle.sso_base.specs.Journal.{most_of};

use crate::sending::Sending;
use client_registry::Registry;
use rp_exchange::{RpAsk, RpReply};
use sso_base::{Answered, Ask, Core, HttpReply, NoMemory, Word};
use std::alloc::Global;

/// A core that a relying party is in, alone or inside further cores. Each step of the core is one step of the party.
///
/// The calls that take a party's number need one of the registry.
pub trait Relies: Core {
    ghost use Rattle.sso_base.specs.Words as words;
    ghost use Rattle.sso_base.specs.declared.history.Pair as pair_of;
    ghost use Rattle.sso_base.specs.declared.http.Ask as asks;
    ghost use Rattle.sso_base.specs.declared.http.HttpReply as replies;
    ghost use Rattle.sso_base.specs.declared.message.Answered as responses;
    ghost use Rattle.client_registry.specs.Configuration as configuration;
    ghost use Rattle.rp_exchange.specs.declared.ask.RpAsk as ask_of;
    ghost use Rattle.rp_exchange.specs.declared.reply.RpReply as reply_of;
    ghost use Rattle.rp_answer.specs.Setup as setups;
    ghost use Rattle.rp_answer.specs.Legal.{IsLegalHistory};
    ghost use Rattle.rp_request.specs.Prepared as requests;
    ghost use Rattle.core_stack.specs.declared.sending.Sending as sending_of;
    ghost use Rattle.core_stack.specs.Relied.{party_pair, exchange_named};
    ghost use Rattle.core_stack.specs.Rounds.{rounds_of};

    /// The setup of the party.
    ghost party_setup: { Self → setups.PartySetup };

    /// The party's history in a history of this core, both oldest first.
    ghost relied: { List (pair_of.Pair Self.Ask Self.Reply) → List (pair_of.Pair ask_of.RpAsk reply_of.RpReply) };

    /// The party's request in a request.
    ghost plain_ask: { Self.Ask → ask_of.RpAsk };

    /// The party's reply in a reply.
    ghost rp_reply: { Self.Reply → reply_of.RpReply };

    /// The message that is sent after a reply.
    ghost sent: { Self.Reply → Option sending_of.Sending };

    /// The value of a request to the party with a number.
    ghost prepared: { configuration.Configuration → ℕ → asks.Ask → Self.Ask };

    /// The value of a token response in an exchange.
    ghost tokens_prepared: { configuration.Configuration → ℕ → words.Word → responses.Answered → Self.Ask };

    /// The value of a UserInfo response in an exchange.
    ghost info_prepared: { words.Word → responses.Answered → Self.Ask };

    /// A request to the party alone.
    ghost from_rp: { ask_of.RpAsk → Self.Ask };

    /// A reply in HTTP, of the party with a number.
    ghost http_of: { configuration.Configuration → ℕ → Self.Reply → replies.HttpReply };

    /// Reads a request to the party with this number.
    fn prepare(
        alloc: Global,
        registry: &Registry,
        party: u32,
        request: &Ask,
    ) -> Result<Self::Ask, NoMemory>
        requires { party < length registry.now.parties }
        ensures { IfOk result (λ asked. asked ≡ prepared registry.now party request.now) };

    /// Reads a token response to the party with this number, in the exchange that is waiting for it under the word `pending`.
    fn prepare_tokens(
        alloc: Global,
        registry: &Registry,
        party: u32,
        pending: Word,
        response: &Answered,
    ) -> Result<Self::Ask, NoMemory>
        requires { party < length registry.now.parties }
        ensures { IfOk result (λ asked. asked ≡ tokens_prepared registry.now party pending response.now) };

    /// Reads a UserInfo response, in the exchange that is waiting for it under the word `pending`.
    fn prepare_info(
        alloc: Global,
        pending: Word,
        response: &Answered,
    ) -> Result<Self::Ask, NoMemory>
        ensures { IfOk result (λ asked. asked ≡ info_prepared pending response.now) };

    /// A request to the party alone, without further parameters.
    fn from_plain(alloc: Global, ask: RpAsk) -> Result<Self::Ask, NoMemory>
        ensures { IfOk result (λ asked. asked ≡ from_rp ask) };

    /// The party's request in a request.
    fn plain<'a>(ask: &'a Self::Ask) -> &'a RpAsk
        ensures { result.now ≡ plain_ask ask.now };

    /// The party's reply in a reply.
    fn answer<'a>(reply: &'a Self::Reply) -> &'a RpReply
        ensures { result.now ≡ rp_reply reply.now };

    /// The message to send after a reply: a token request or a UserInfo request. `None` if and only if the party's reply is
    /// neither.
    fn message(alloc: Global, reply: &Self::Reply) -> Result<Option<Sending>, NoMemory>
        ensures { IfOk result (λ sending. sending ≡ sent reply.now) };

    /// A reply in HTTP, of the party with this number.
    fn http(
        alloc: Global,
        registry: &Registry,
        party: u32,
        reply: &Self::Reply,
    ) -> Result<HttpReply, NoMemory>
        requires { party < length registry.now.parties }
        ensures { IfOk result (λ h. h ≡ http_of registry.now party reply.now) };

    /// The party has no history before this core has one.
    ghost begins: { relied [] ≡ [] };

    /// Cores with one setup have parties with one setup.
    ghost setup_is: { (x y : Self) → Self.setup x ≡ Self.setup y → party_setup x ≡ party_setup y };

    /// The limit of the history is that of the party's configuration.
    ghost most_is: { (x : Self) → Self.most (Self.setup x) ≡ most_of (party_setup x).configuration.lasting };

    /// The party's history is legal for the party.
    ghost is_party: { (x : Self) (h : List (pair_of.Pair Self.Ask Self.Reply))
        → Self.is_legal (Self.setup x) h → IsLegalHistory (party_setup x) (relied h) };

    /// A step adds one pair to the party's history: the party's request and reply in the request and the reply of the step.
    ghost adds_what_it_says: { (s : Self.Setup) (h : List (pair_of.Pair Self.Ask Self.Reply)) (p : pair_of.Pair Self.Ask Self.Reply)
        → Self.is_legal s (h ++ p ∷ []) → relied (h ++ p ∷ []) ≡ relied h ++ party_pair p (plain_ask p.entry.ask) (rp_reply p.reply) ∷ [] };

    /// What is read of a request is what the party alone reads of it.
    ghost reads_requests: { (c : configuration.Configuration) (n : ℕ) (request : asks.Ask)
        → plain_ask (prepared c n request) ≡ requests.prepared c n request };

    /// The same for a token response.
    ghost reads_tokens: { (c : configuration.Configuration) (n : ℕ) (w : words.Word) (response : responses.Answered)
        → plain_ask (tokens_prepared c n w response) ≡ requests.tokens_prepared c n w response };

    /// The same for a UserInfo response.
    ghost reads_info: { (w : words.Word) (response : responses.Answered)
        → plain_ask (info_prepared w response) ≡ requests.info_prepared w response };

    /// A request to the party alone is that request.
    ghost plain_of: { (a : ask_of.RpAsk) → plain_ask (from_rp a) ≡ a };

    /// A message is sent in the exchange of the party's reply, and there is none if and only if that reply has no exchange.
    ghost sends_in_exchanges: { (r : Self.Reply) → option_map (λ (s : sending_of.Sending). s.pending) (sent r) ≡ exchange_named (rp_reply r) };

    /// After a token response no token request follows.
    ghost tokens_end: { (s : Self.Setup) (h : List (pair_of.Pair Self.Ask Self.Reply)) (p : pair_of.Pair Self.Ask Self.Reply)
        (c : configuration.Configuration) (n : ℕ) (w : words.Word) (response : responses.Answered)
        → Self.is_legal s (h ++ p ∷ []) → p.entry.ask ≡ tokens_prepared c n w response → rounds_of (rp_reply p.reply) < 2 };

    /// After a UserInfo response no request to the provider follows.
    ghost info_ends: { (s : Self.Setup) (h : List (pair_of.Pair Self.Ask Self.Reply)) (p : pair_of.Pair Self.Ask Self.Reply)
        (w : words.Word) (response : responses.Answered)
        → Self.is_legal s (h ++ p ∷ []) → p.entry.ask ≡ info_prepared w response → rounds_of (rp_reply p.reply) < 1 };
}

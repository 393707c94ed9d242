// What each step of a core that the provider is in adds to the provider's history.

ghost use Rattle.std.specs.Prelude.{◌≡◌, List, [], ◌∷◌, ◌++◌, Option, Some, true, false};
ghost use Rattle.sso_base.specs.Words.{Word};
ghost use Rattle.sso_base.specs.declared.history.Pair.{Pair};
ghost use Rattle.sso_base.specs.declared.message.Message.{Message};
ghost use Rattle.op_exchange.specs.declared.ask.OpAsk.{OpAsk};
ghost use Rattle.op_exchange.specs.declared.ask.OpAsk.TheVariants as op_ask;
ghost use Rattle.op_exchange.specs.declared.reply.OpReply.{OpReply};
ghost use Rattle.op_exchange.specs.declared.reply.OpReply.TheVariants as op_told;
ghost use Rattle.op_answer.specs.Past.{OpPair};
ghost use Rattle.core_stack.specs.Stacks.{may_be_own, is_shown, provider_pair, AddsAtMostOne};
ghost use Rattle.core_stack.specs.Stacked.{IsProvided};

use crate::provides::Provides;

/// A step adds at most one pair, with its moment and its words. It adds the pair of the provider's request in its own and of the
/// provider's reply in its own, unless that reply is a refusal, which another core may give by itself.
pub fn steps_add_what_they_say<P: Provides>()
    ensures one { (s : P.Setup) (h : List (Pair P.Ask P.Reply)) (p : Pair P.Ask P.Reply) → P.is_legal s (h ++ p ∷ [])
        → AddsAtMostOne p.entry.at p.entry.fresh (P.provided h) (P.provided (h ++ p ∷ [])) }
    ensures said { (s : P.Setup) (h : List (Pair P.Ask P.Reply)) (p : Pair P.Ask P.Reply) (a : OpAsk) (r : OpReply)
        → P.is_legal s (h ++ p ∷ []) → P.plain_ask p.entry.ask ≡ Some a → P.op_reply p.reply ≡ Some r → may_be_own r ≡ false
        → P.provided (h ++ p ∷ []) ≡ P.provided h ++ provider_pair p.entry.at p.entry.fresh a r ∷ [] }
{}

/// No page, no response and no tokens of the provider are hidden: if a step adds a pair with one, its own request and reply have that
/// request and that reply.
pub fn steps_add_only_what_they_say<P: Provides>()
    ensures { (s : P.Setup) (h : List (Pair P.Ask P.Reply)) (p : Pair P.Ask P.Reply) (q : OpPair) → P.is_legal s (h ++ p ∷ [])
        → P.provided (h ++ p ∷ []) ≡ P.provided h ++ q ∷ [] → is_shown q.reply ≡ true
        → (a : OpAsk) × (r : OpReply) × (P.plain_ask p.entry.ask ≡ Some a) × (P.op_reply p.reply ≡ Some r)
        × (q ≡ provider_pair p.entry.at p.entry.fresh a r) }
{}

/// A sign-out is one of the provider: the step adds it, with the messages of the step's reply.
pub fn sign_outs_are_added<P: Provides>()
    ensures { (s : P.Setup) (h : List (Pair P.Ask P.Reply)) (p : Pair P.Ask P.Reply) (w : Option Word) → P.is_legal s (h ++ p ∷ [])
        → P.plain_ask p.entry.ask ≡ Some (op_ask.SignOut w)
        → (sent : List Message) × (P.op_reply p.reply ≡ Some (op_told.SignedOut sent)) × (P.notices p.reply ≡ Some sent)
        × (P.provided (h ++ p ∷ []) ≡ P.provided h ++ provider_pair p.entry.at p.entry.fresh (op_ask.SignOut w) (op_told.SignedOut sent) ∷ []) }
{}

/// Over each legal history of a core, whatever its weight, the provider's history is legal, each step added to it what the provider
/// gave, and the provider gave all but refusals. So laws of cores around the provider are said over these histories.
pub fn legal_histories_are_provided<P: Provides>()
    ensures { (x : P) (h : List (Pair P.Ask P.Reply)) → P.is_legal (P.setup x) h
        → IsProvided P.plain_ask P.op_reply P.given_reply P.provided (P.provider_registry x) h }
{}

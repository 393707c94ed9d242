ghost use Rattle.std.specs.Prelude.{◌≡◌, ℕ, ◌+◌, ◌<◌, ◌≤◌, ◌^◌, List, ◌++◌, length, Err, IfOk, OnErr};
ghost use Rattle.sso_base.specs.declared.history.Pair.{Pair};
ghost use Rattle.sso_base.specs.Journal.{history_weight, extended};
ghost use Rattle.sso_base.specs.Weights.{empty_weight, told_weight};

use crate::memory::NoMemory;
use crate::moment::Moment;
use crate::word::Word;
use std::alloc::Global;

/// Why a core took no step. Its state is unchanged.
#[derive(Clone, Copy, Debug, PartialEq, Eq)]
pub enum CoreNo {
    /// Memory ran out.
    NoMemory,
    /// The history and the entry together weigh more than a history may: 268,435,456 if it is stored, otherwise 2^63 - 1. The
    /// number is the weight of the history.
    JournalFull(u64),
}

impl From<NoMemory> for CoreNo {
    ghost use Rattle.std.specs.Prelude.{◌≡◌};
    ghost use Rattle.sso_base.specs.declared.step.CoreNo.TheVariants as no;

    ghost from_gives = { λ _ e. e ≡ no.NoMemory };

    fn from(_error: NoMemory) -> CoreNo {
        CoreNo::NoMemory
    }
}

/// A state machine that answers requests one after another. Its history is the list of them with its replies. A core stores its
/// history, or leaves it to contracts alone. Which histories are legal defines its replies.
pub trait Core: Drop {
    type Ask: Drop;

    type Reply: Drop;

    /// The type of its setup.
    ghost Setup: { Type 0 };

    /// Its setup.
    ghost setup: { Self → Setup };

    /// Its requests and replies, oldest first.
    ghost history: { Self → List (Pair Self.Ask Self.Reply) };

    /// The weight of a request.
    ghost weighs: { Self.Ask → ℕ };

    /// The greatest weight of a history.
    ghost most: { Setup → ℕ };

    /// Which histories are legal for a setup.
    ghost is_legal: { Setup → List (Pair Self.Ask Self.Reply) → Type 0 };

    /// Replies to the request, and adds both to the history. The entry's moment is this one, or the last one if that is later. On
    /// an error nothing changes.
    fn step(
        &mut self,
        alloc: Global,
        at: Moment,
        fresh: [Word; 4],
        ask: Self::Ask,
    ) -> Result<Self::Reply, CoreNo>
        ensures ok { IfOk result (λ reply. history self.new ≡ extended (history self.old) at fresh ask reply) }
        ensures err { OnErr result (self.new ≡ self.old) }
        ensures setup { setup self.new ≡ setup self.old }
        ensures legal { is_legal (setup self.new) (history self.new) }
        ensures room { IfOk result (λ reply. history_weight weighs (history self.old) + weighs ask ≤ most (setup self.old)) }
        ensures full { (w : ℕ) → (result ≡ Err (CoreNo.JournalFull w))
            → (w ≡ history_weight weighs (history self.old)) × (most (setup self.old) < w + weighs ask) };

    /// The weight of a request, or the greatest number of 64 bits if the weight is greater.
    fn weight(ask: &Self::Ask) -> Result<u64, NoMemory>
        ensures { IfOk result (λ n. n ≡ told_weight (weighs ask.now)) };

    /// How many pairs the history has.
    fn count(&self) -> u64
        ensures count { result ≡ length (history self.now) }
        ensures legal { is_legal (setup self.now) (history self.now) };

    /// A legal history weighs no more than the limit.
    ghost legal_is_light: { (s : Setup) (h : List (Pair Self.Ask Self.Reply)) → is_legal s h → history_weight weighs h ≤ most s };

    /// That limit is a number of 63 bits.
    ghost most_is_short: { (s : Setup) → most s < 2 ^ 63 };

    /// Each prefix of a legal history is legal.
    ghost beginnings_are_legal: { (s : Setup) (front rest : List (Pair Self.Ask Self.Reply)) → is_legal s (front ++ rest) → is_legal s front };

    /// No request weighs less than one that holds no texts.
    ghost least_weight: { (asked : Self.Ask) → empty_weight ≤ weighs asked };
}

// The core that counts its requests.

ghost use Rattle.std.specs.Prelude.{◌≡◌, []};

use crate::tick::Tick;
use sso_base::{Core, CoreNo, EMPTY_WEIGHT, Journal, Moment, NoMemory, Pair, Weighed, Word};
use std::alloc::Global;
use std::marker::Model;

impl Weighed for Tick {
    ghost use Rattle.std.proofs.Math.Nat.{le-add_left};
    ghost use Rattle.sso_base.specs.Weights.{empty_weight};
    ghost use Rattle.serve_cases.specs.Tally.{tick_weight};

    ghost weighs = { tick_weight };

    fn weight(&self) -> Result<u64, NoMemory> {
        Ok(u64::from(self.more).saturating_add(EMPTY_WEIGHT))
    }

    ghost least = { λ tick. le-add_left empty_weight tick.more };
}

/// A core that counts. Its model is its history, and whether that lasts. It replies with the number of the entries before this
/// one.
#[derive(Drop)]
pub struct Tally {
    journal: Journal<Tick, u64>,
    lasts: bool,
}

impl Model for Tally {
    ghost use Rattle.serve_cases.specs.Tally.{Counting, KeepsTally};

    ghost Value = { Counting };

    ghost view = { λ tally. record { lasts = tally.lasts; history = tally.journal.pairs } };

    ghost invariant = { λ tally. KeepsTally tally.lasts tally.journal.pairs tally.journal.most };
}

impl Tally {
    /// A core with an empty history.
    pub fn new(alloc: Global, lasts: bool) -> Tally
        ensures { result ≡ record { lasts = lasts; history = [] } }
    {
        Tally {
            journal: Journal::new(alloc, lasts),
            lasts,
        }
    }
}

impl Core for Tally {
    ghost use Rattle.std.specs.Prelude.{Bool};
    ghost use Rattle.std.proofs.Math.Nat.{le-add_left};
    ghost use Rattle.sso_base.specs.Journal.{most_of};
    ghost use Rattle.sso_base.specs.Weights.{empty_weight};
    ghost use Rattle.sso_base.proofs.Histories.{light_beginning};
    ghost use Rattle.sso_base.proofs.Limits.{most_is_short as short_limit};
    ghost use Rattle.serve_cases.specs.Tally.{tick_weight, lasts_of, IsLight};

    type Ask = Tick;

    type Reply = u64;

    ghost Setup = { Bool };

    ghost setup = { lasts_of };

    ghost history = { λ tally. tally.history };

    ghost weighs = { tick_weight };

    ghost most = { most_of };

    ghost is_legal = { IsLight };

    fn step(
        &mut self,
        _alloc: Global,
        at: Moment,
        fresh: [Word; 4],
        ask: Tick,
    ) -> Result<u64, CoreNo> {
        let weight = self.journal.admit(&ask)?;
        if ask.more == 0 {
            return Err(CoreNo::NoMemory);
        }
        self.journal.reserve()?;
        let reply = self.journal.count();
        let entry = self.journal.entry(at, fresh, ask);
        self.journal.push(Pair { entry, reply }, weight);
        self.journal.light();
        Ok(reply)
    }

    fn weight(ask: &Tick) -> Result<u64, NoMemory> {
        ask.weight()
    }

    fn count(&self) -> u64 {
        self.journal.count()
    }

    ghost legal_is_light = { λ s h legal. legal };

    ghost most_is_short = { short_limit };

    ghost beginnings_are_legal = { λ s. light_beginning tick_weight (most_of s) };

    ghost least_weight = { λ tick. le-add_left empty_weight tick.more };
}

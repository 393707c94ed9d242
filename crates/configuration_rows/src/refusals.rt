// Errors of a configuration, in the order of its table.

ghost use Rattle.std.specs.Prelude.{◌≡◌, ◌++◌, ◌∷◌, [], IfOk, OnOk, OnErr};
ghost use Rattle.configuration_rows.specs.Refusals.{least, sooner};

use crate::no::RegNo;
use sso_base::{NoMemory, Text};
use std::alloc::Global;
use std::marker::Model;

/// The errors of a configuration, in order. The model is their list.
#[derive(Drop)]
pub struct Refusals {
    alloc: Global,
    items: Vec<RegNo>,
}

impl Model for Refusals {
    ghost use Rattle.std.specs.Prelude.{List};
    ghost use Rattle.configuration_rows.specs.declared.no.RegNo.{RegNo};

    ghost Value = { List RegNo };

    ghost view = { λ r. r.items.items };
}

impl Refusals {
    /// No errors.
    pub fn new(alloc: Global) -> Refusals
        ensures { result ≡ [] }
    {
        Refusals {
            alloc,
            items: Vec::new(alloc),
        }
    }

    /// Their allocator.
    pub fn alloc(&self) -> Global {
        self.alloc
    }

    /// Adds an error at the end.
    pub fn note(&mut self, refusal: RegNo) -> Result<(), NoMemory>
        ensures { OnOk result (self.new ≡ self.old ++ refusal ∷ []) }
    {
        self.items.push(refusal)?;
        Ok(())
    }

    /// The first error with the smallest number.
    #[tactic(auto, using(crate::proofs::Order::least_of_one_more))]
    pub fn least(self) -> Option<RegNo>
        ensures { result ≡ least self }
    {
        let mut items = self.items;
        let mut found = None;
        while let Some(refusal) = items.pop() {
            found = Some(sooner_of(refusal, found));
        }
        found
    }
}

// Of an error and a later one, the one that is reported.
fn sooner_of(refusal: RegNo, later: Option<RegNo>) -> RegNo
    ensures { result ≡ sooner refusal later }
{
    match later {
        None => refusal,
        Some(other) => {
            if other.number() < refusal.number() {
                other
            } else {
                refusal
            }
        }
    }
}

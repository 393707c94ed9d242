// The provider: its registry, its history, and the tables for that history.

ghost use Rattle.std.specs.Prelude.{◌≡◌, [], IfOk};
ghost use Rattle.code_grant.specs.Tables.{no_tables};
ghost use Rattle.sso_base.specs.Legal.{last_moment};
ghost use Rattle.op_tables.specs.Agreeing.{Agrees};
ghost use Rattle.op_core.specs.Providing.{past_of};

use client_registry::Registry;
use code_grant::Grants;
use op_exchange::{OpAsk, OpReply};
use sso_base::{Journal, NoMemory};
use std::alloc::Global;
use std::marker::Model;

/// The provider (OpenID Connect Core 1.0, 3). The model is its registry, its history, oldest first, and the rows of its tables.
#[derive(Drop)]
pub struct OpCore {
    pub(crate) registry: Registry,
    pub(crate) journal: Journal<OpAsk, OpReply>,
    pub(crate) grants: Grants,
}

impl Model for OpCore {
    ghost use Rattle.op_core.specs.Providing.{Providing};

    ghost Value = { Providing };

    ghost view = { λ c. record { registry = c.registry; history = c.journal.pairs; tables = c.grants } };

    ghost use Rattle.op_core.specs.Keeps.{Keeps};

    ghost invariant = { λ c. Keeps c.registry c.journal.pairs c.grants c.journal.most };
}

impl OpCore {
    /// A provider with an empty history. It stores its history, unless the registry's histories last.
    pub fn new(alloc: Global, registry: Registry) -> Result<OpCore, NoMemory>
        ensures { IfOk result (λ c. c ≡ record { registry = registry; history = []; tables = no_tables }) }
    {
        let lasts = registry.lasting();
        let grants = Grants::new(alloc)?;
        Ok(OpCore {
            registry,
            journal: Journal::new(alloc, lasts),
            grants,
        })
    }

    /// The tables. Their live rows at the moment of the last entry are exactly those that live after the history.
    pub fn tables(&self) -> &Grants
        ensures tables { result.now ≡ self.now.tables }
        ensures agrees { Agrees result.now (past_of self.now) (last_moment (past_of self.now)) }
    {
        &self.grants
    }
}

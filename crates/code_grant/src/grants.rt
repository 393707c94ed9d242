// All tables of the provider.

ghost use Rattle.std.specs.Prelude.{◌≡◌, ◌<◌, false, length, IfOk, OnOk, OnErr};
ghost use Rattle.code_grant.specs.Tables as spec;
ghost use Rattle.code_grant.specs.Consents.{granted_to};

use crate::consents::Consents;
use crate::rows::{CodeRow, SessionRow, TokenRow, TurnRow};
use crate::table::{Reserved, Table};
use held_rows::Held;
use oidc_words::Scopes;
use sso_base::{Moment, NoMemory};
use std::alloc::Global;
use std::marker::Model;

/// The provider's tables, and what users have granted to clients. The model of each table is the list of its rows, in the order
/// of issue. A table has at most 65,536 rows, with distinct words, in the order of the moments from which they live.
#[derive(Drop)]
pub struct Grants {
    pub(crate) turns: Held<TurnRow>,
    pub(crate) sessions: Held<SessionRow>,
    pub(crate) codes: Held<CodeRow>,
    pub(crate) tokens: Held<TokenRow>,
    consents: Consents,
    pub(crate) reserved: Reserved,
}

impl Model for Grants {
    ghost use Rattle.std.specs.Prelude.{List};
    ghost use Rattle.code_grant.specs.Tables.{Tables};

    ghost Value = { Tables };

    ghost use Rattle.code_grant.specs.Room.{tables_of, IsRoomReserved};

    ghost view = { tables_of };

    ghost invariant = { IsRoomReserved };
}

impl Grants {
    /// Empty tables, and no grants.
    pub fn new(alloc: Global) -> Result<Grants, NoMemory>
        ensures { IfOk result (λ grants. grants ≡ spec.no_tables) }
    {
        Ok(Grants {
            turns: Held::new(alloc),
            sessions: Held::new(alloc),
            codes: Held::new(alloc),
            tokens: Held::new(alloc),
            consents: Consents::new(alloc)?,
            reserved: Reserved {
                turns: false,
                sessions: false,
                codes: false,
                tokens: false,
            },
        })
    }

    /// Makes room for one row in each table. On `NoMemory` nothing changes.
    pub fn reserve(&mut self) -> Result<(), NoMemory>
        ensures ok { OnOk result (self.new ≡ spec.with_room self.old) }
        ensures err { OnErr result (self.new ≡ self.old) }
    {
        self.turns.reserve()?;
        self.sessions.reserve()?;
        self.codes.reserve()?;
        self.tokens.reserve()?;
        self.reserved = Reserved {
            turns: true,
            sessions: true,
            codes: true,
            tokens: true,
        };
        Ok(())
    }

    /// Removes exactly the rows whose life has ended at the moment. The life of a code counts here as 3,720 seconds.
    pub fn purge(&mut self, at: Moment)
        ensures { self.new ≡ spec.purged at self.old }
    {
        self.turns.purge(at);
        self.sessions.purge(at);
        self.codes.purge(at);
        self.tokens.purge(at);
    }

    /// Whether the table has room for one more row at the moment. It is false if and only if the table has 65,536 rows and
    /// `purge` at the moment would remove none of them.
    pub fn room(&self, table: Table, at: Moment) -> bool
        ensures room { result ≡ spec.has_room table at self.now }
        ensures full { result ≡ false → spec.IsFullTable table at self.now }
        ensures most { spec.IsFullTable table at self.now → result ≡ false }
    {
        match table {
            Table::Turns => self.turns.has_room(at),
            Table::Sessions => self.sessions.has_room(at),
            Table::Codes => self.codes.has_room(at),
            Table::Tokens => self.tokens.has_room(at),
        }
    }

    /// Adds these scopes to those that the user has granted to the client.
    pub fn grant(&mut self, user: u32, client: u32, scopes: Scopes)
        requires user { user < 512 }
        requires client { client < 128 }
        ensures { self.new ≡ spec.with_consent user client scopes self.old }
    {
        self.consents.grant(user, client, scopes);
    }

    /// The scopes that the user has granted to the client.
    pub fn granted(&self, user: u32, client: u32) -> Scopes
        requires user { user < 512 }
        requires client { client < 128 }
        ensures scopes { result ≡ granted_to user client self.now.consents }
        ensures whole { length self.now.consents ≡ 65536 }
    {
        self.consents.granted(user, client)
    }
}

// All tables of a relying party.

ghost use Rattle.std.specs.Prelude.{◌≡◌, false, IfOk, OnOk, OnErr};
ghost use Rattle.rp_login.specs.Tables as spec;

use crate::rows::{DeadRow, LoginRow, PendingRow, SeenRow, SessionRow};
use crate::table::{Reserved, RpTable};
use held_rows::Held;
use sso_base::{Moment, NoMemory};
use std::alloc::Global;
use std::marker::Model;

/// A relying party's tables. The model of each table is the list of its rows, in the order in which they were added. A table
/// has at most 65,536 rows, with distinct names, in the order of the moments from which they live.
#[derive(Drop)]
pub struct Logins {
    pub(crate) logins: Held<LoginRow>,
    pub(crate) pendings: Held<PendingRow>,
    pub(crate) visits: Held<SessionRow>,
    pub(crate) seens: Held<SeenRow>,
    pub(crate) deads: Held<DeadRow>,
    pub(crate) reserved: Reserved,
}

impl Model for Logins {
    ghost use Rattle.std.specs.Prelude.{List};
    ghost use Rattle.rp_login.specs.Tables.{Tables};

    ghost Value = { Tables };

    ghost use Rattle.rp_login.specs.Room.{tables_of, IsRoomReserved};

    ghost view = { tables_of };

    ghost invariant = { IsRoomReserved };
}

impl Logins {
    /// Empty tables.
    pub fn new(alloc: Global) -> Result<Logins, NoMemory>
        ensures { IfOk result (λ logins. logins ≡ spec.no_tables) }
    {
        Ok(Logins {
            logins: Held::new(alloc),
            pendings: Held::new(alloc),
            visits: Held::new(alloc),
            seens: Held::new(alloc),
            deads: Held::new(alloc),
            reserved: Reserved {
                logins: false,
                pendings: false,
                visits: false,
                seens: false,
                deads: false,
            },
        })
    }

    /// Makes room for one row in each table. On `NoMemory` nothing changes.
    pub fn reserve(&mut self) -> Result<(), NoMemory>
        ensures ok { OnOk result (self.new ≡ spec.with_room self.old) }
        ensures err { OnErr result (self.new ≡ self.old) }
    {
        self.logins.reserve()?;
        self.pendings.reserve()?;
        self.visits.reserve()?;
        self.seens.reserve()?;
        self.deads.reserve()?;
        self.reserved = Reserved {
            logins: true,
            pendings: true,
            visits: true,
            seens: true,
            deads: true,
        };
        Ok(())
    }

    /// Removes exactly the rows whose life has ended at the moment.
    pub fn purge(&mut self, at: Moment)
        ensures { self.new ≡ spec.purged at self.old }
    {
        self.logins.purge(at);
        self.pendings.purge(at);
        self.visits.purge(at);
        self.seens.purge(at);
        self.deads.purge(at);
    }

    /// Whether the table has room for one more row at the moment. It is false if and only if the table has 65,536 rows and
    /// `purge` at the moment would remove none of them.
    pub fn room(&self, table: RpTable, at: Moment) -> bool
        ensures room { result ≡ spec.has_room table at self.now }
        ensures full { result ≡ false → spec.IsFullTable table at self.now }
        ensures most { spec.IsFullTable table at self.now → result ≡ false }
    {
        match table {
            RpTable::Logins => self.logins.has_room(at),
            RpTable::Pendings => self.pendings.has_room(at),
            RpTable::Sessions => self.visits.has_room(at),
            RpTable::Seen => self.seens.has_room(at),
        }
    }
}

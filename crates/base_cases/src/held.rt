// Members in the held rows of a table.

ghost use Rattle.std.specs.Prelude.{◌≡◌, ◌≤◌, true, length};
ghost use Rattle.held_rows.specs.Held.{none_after};
ghost use Rattle.base_cases.specs.Members.{member_begun};

use crate::members::{Member, Numbered};
use crate::table::Table;
use held_rows::{Held, Test};
use sso_base::{Moment, NoMemory};
use std::alloc::Global;

/// Held rows, with what must be known about them before one is added.
#[derive(Drop)]
pub struct HeldMembers {
    rows: Held<Member>,
    // The latest moment of the members that were added or put.
    latest: Moment,
    // The number of members that were added.
    added: u32,
    ghost in_order: { none_after member_begun latest rows.rows ≡ true },
    ghost few: { length rows.rows ≤ added },
}

impl HeldMembers {
    /// No members.
    pub fn new(alloc: Global, at: Moment) -> HeldMembers {
        HeldMembers {
            rows: Held::new(alloc),
            latest: at,
            added: 0,
        }
    }
}

impl Table for HeldMembers {
    fn find(&self, name: &str) -> Option<&Member> {
        self.rows.find(name.as_bytes())
    }

    fn add(&mut self, row: Member) -> Result<bool, NoMemory> {
        if self.added >= 65_536 || row.begun.seconds() < self.latest.seconds() {
            return Ok(false);
        }
        if self.rows.find(row.name.as_str().as_bytes()).is_some() {
            return Ok(false);
        }
        self.rows.reserve()?;
        self.latest = row.begun;
        self.added += 1;
        self.rows.add(row);
        Ok(true)
    }

    fn put(&mut self, name: &str, row: Member) -> Result<bool, NoMemory> {
        if row.begun.seconds() < self.latest.seconds() || !row.name.equals(name) {
            return Ok(false);
        }
        if self.rows.find(name.as_bytes()).is_none() {
            return Ok(false);
        }
        self.latest = row.begun;
        self.rows.put(name.as_bytes(), row);
        Ok(true)
    }

    fn change(&mut self, name: &str, change: Numbered) {
        self.rows.change(name.as_bytes(), &change);
    }

    fn remove(&mut self, name: &str) {
        self.rows.remove(name.as_bytes());
    }

    fn take_out<T: Test<Member>>(&mut self, test: &T) -> u64 {
        self.rows.take_out(test) as u64
    }

    fn purge(&mut self, at: Moment) {
        self.rows.purge(at);
    }

    fn any_live<T: Test<Member>>(&self, test: &T, at: Moment) -> bool {
        self.rows.any_live(test, at)
    }

    fn count_live<T: Test<Member>>(&self, test: &T, at: Moment) -> u64 {
        self.rows.count_live(test, at) as u64
    }

    fn count_all_live(&self, at: Moment) -> u64 {
        self.rows.count_all_live(at) as u64
    }

    fn has_room(&self, at: Moment) -> bool {
        self.rows.has_room(at)
    }
}

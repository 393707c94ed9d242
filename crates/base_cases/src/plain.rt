// Members in a plain list, which each call searches from its first member on.

use crate::members::{Member, Numbered};
use crate::table::{Table, told_member};
use case_lines::{or_else, push_part};
use held_rows::{Change, Row, Test};
use sso_base::{Moment, NoMemory, is_live};
use std::alloc::Global;

/// A list of members, and the latest moment of those that were added or put.
#[derive(Drop)]
pub struct PlainMembers {
    rows: Vec<Member>,
    latest: Moment,
}

impl PlainMembers {
    /// No members.
    pub fn new(alloc: Global, at: Moment) -> PlainMembers {
        PlainMembers {
            rows: Vec::new(alloc),
            latest: at,
        }
    }

    /// The members in their order, separated by commas, or `-`.
    pub fn told(&self, alloc: Global) -> Result<String, NoMemory> {
        let mut list = String::new(alloc);
        for row in &self.rows {
            push_part(&mut list, ", ", told_member(alloc, row)?.as_str())?;
        }
        or_else(list, "-")
    }
}

// Whether the member is live at the moment and passes the test.
fn passes<T: Test<Member>>(row: &Member, test: &T, at: Moment) -> bool {
    is_live(Member::LIFE, row.begun, at) && test.passes(row)
}

impl Table for PlainMembers {
    fn find(&self, name: &str) -> Option<&Member> {
        self.rows.iter().find(|row| row.name.equals(name))
    }

    fn add(&mut self, row: Member) -> Result<bool, NoMemory> {
        if row.begun.seconds() < self.latest.seconds() || self.find(row.name.as_str()).is_some() {
            return Ok(false);
        }
        self.rows.reserve(1)?;
        self.latest = row.begun;
        self.rows.push_reserved(row);
        Ok(true)
    }

    fn put(&mut self, name: &str, row: Member) -> Result<bool, NoMemory> {
        if row.begun.seconds() < self.latest.seconds() || self.find(name).is_none() {
            return Ok(false);
        }
        self.remove(name);
        self.rows.reserve(1)?;
        self.latest = row.begun;
        self.rows.push_reserved(row);
        Ok(true)
    }

    fn change(&mut self, name: &str, change: Numbered) {
        for row in &mut self.rows {
            if row.name.equals(name) {
                change.change(row);
            }
        }
    }

    fn remove(&mut self, name: &str) {
        self.rows.retain(|row| !row.name.equals(name));
    }

    fn take_out<T: Test<Member>>(&mut self, test: &T) -> u64 {
        let before = self.rows.len();
        self.rows.retain(|row| !test.passes(row));
        (before - self.rows.len()) as u64
    }

    fn purge(&mut self, at: Moment) {
        self.rows.retain(|row| is_live(Member::LIFE, row.begun, at));
    }

    fn any_live<T: Test<Member>>(&self, test: &T, at: Moment) -> bool {
        self.rows.iter().any(|row| passes(row, test, at))
    }

    fn count_live<T: Test<Member>>(&self, test: &T, at: Moment) -> u64 {
        self.rows
            .iter()
            .filter(|row| passes(*row, test, at))
            .count() as u64
    }

    fn count_all_live(&self, at: Moment) -> u64 {
        self.rows
            .iter()
            .filter(|row| is_live(Member::LIFE, row.begun, at))
            .count() as u64
    }

    fn has_room(&self, at: Moment) -> bool {
        self.count_all_live(at) < 65_536
    }
}

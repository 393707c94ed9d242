//! Cases of the provider and of relying parties: runs, request by request, and logins that go through both roles, each a line
//! that a person can read.
//!
//! The file `stdin` has the cases, and `stdout` has them with their answers. The crate `case_lines` documents how a line is
//! read. The comments in the table name the source of the expected answers. A line is parsed as a request, which is processed
//! as in a server, by `prepare` and `step`, and its reply is printed.
//!
//! There are three tables. A line `table|provider`, `table|party` or `table|party with keys` begins a table, and all lines after it
//! are calls of that table. So does `table|full provider` or `table|full party`, for lines that fill the tables of a role, which
//! takes long:
//!
//! | Table | Call | Effect |
//! |---|---|---|
//! | `provider` | `provider|NAME` | begins a provider with the configuration of this name |
//! | | any other | is a call of that provider |
//! | `party` | `party|NAME`, `party|NAME|elsewhere` | begins a relying party, at the provider of the cases or at another |
//! | | `provider` | begins the provider of the cases |
//! | | `party|NAME|SECRETS`, `provider|SECRETS` | the same with two secrets of clients, where SECRETS is `two secrets` or `old seals` |
//! | | `provider|..` | is a call of that provider, after the first field |
//! | | any other | is a call of the relying party |
//! | `party with keys` | `challenge|WORD` | prints the challenge of the verifier that is the text of this word |
//! | | any other | as in the table `party`, but relying parties have proof keys (RFC 7636) |
//! | all | `times|COUNT|..` | makes the call that follows COUNT times |
//!
//! `Provider` and `RelyingParty` document their calls. When one begins, the count of places begins anew, so each run reads as a
//! small story. The request at place p, from 1, to either role draws the words 4p - 3 to 4p. Besides the texts of words, the
//! names are those of the last reply, those of `texts`, and tokens as in `sealed`.
//!
//! | Module | What it has |
//! |---|---|
//! | `provider_table` | the calls of the table `provider` |
//! | `configurations` | the configurations of its providers |
//! | `texts` | the named texts in its lines |
//! | `party_table`, `keys_table` | the calls of the tables `party` and `party with keys` |
//! | `setup` | the configuration of their relying parties and their provider |
//! | `sealed` | their ID Tokens and logout tokens |
//! | `roles` | the roles, and their run |
//! | `telling` | prints the steps of a role |
//! | `provider` | `Provider`: the provider of a run |
//! | `cores` | the cores of relying parties |
//! | `party` | `RelyingParty`: the relying party of a run |
//! | `filling` | fills its tables |
//! | `in_turn` | the replies of a new provider and a new party to requests, one after another |
//!
//! A call here has a contract only if the calls below it need one.
#![tactic(auto)]

mod configurations;
mod cores;
mod filling;
mod in_turn;
mod keys_table;
mod party;
mod party_table;
mod provider;
mod provider_table;
mod roles;
mod sealed;
mod setup;
mod telling;
mod texts;

use crate::cores::Begins;
use crate::roles::Roles;
use case_lines::{Cases, print_cases, told};
use pkce_party::PkceParty;
use rp_core::RpCore;
use sso_base::{NoMemory, Text};
use std::alloc::Global;
use std::{io, mem};

#[derive(Clone, Copy)]
enum Table {
    Provider,
    Party,
    PartyWithKeys,
}

// The current table, and its roles: those of the table `party with keys`, or of the others. Their relying parties are in cores of
// these types.
#[derive(Drop)]
struct RoleCases<C: Begins, K: Begins> {
    table: Option<Table>,
    roles: Roles<C>,
    roles_with_keys: Roles<K>,
}

fn table_named(name: &str) -> Option<Table> {
    match name {
        "provider" | "full provider" => Some(Table::Provider),
        "party" | "full party" => Some(Table::Party),
        "party with keys" => Some(Table::PartyWithKeys),
        _ => None,
    }
}

impl<C: Begins, K: Begins> RoleCases<C, K> {
    fn new(alloc: Global) -> RoleCases<C, K> {
        RoleCases {
            table: None,
            roles: Roles::new(alloc),
            roles_with_keys: Roles::new(alloc),
        }
    }

    fn begin(&mut self, alloc: Global, name: &str) -> Result<String, NoMemory> {
        self.table = table_named(name);
        // (dropped by calls, and not in place: the proof of that is long)
        drop(mem::replace(&mut self.roles, Roles::new(alloc)));
        drop(mem::replace(&mut self.roles_with_keys, Roles::new(alloc)));
        match self.table {
            Some(_) => told(alloc, "begun"),
            None => told(alloc, "no such table"),
        }
    }

    fn ask(&mut self, alloc: Global, fields: &[&str]) -> Result<String, NoMemory> {
        match self.table {
            Some(Table::Provider) => provider_table::answer(alloc, &mut self.roles, fields),
            Some(Table::Party) => party_table::answer(alloc, &mut self.roles, fields),
            Some(Table::PartyWithKeys) => {
                keys_table::answer(alloc, &mut self.roles_with_keys, fields)
            }
            None => told(alloc, "no table"),
        }
    }
}

// The text with this name in any table: no name is in two.
fn named(name: &str) -> Option<&'static str> {
    match texts::named(name) {
        Some(text) => Some(text),
        None => sealed::named(name),
    }
}

impl<C: Begins, K: Begins> Cases for RoleCases<C, K> {
    fn answer(&mut self, alloc: Global, fields: &[&str]) -> Result<String, NoMemory> {
        match fields {
            ["table", name] => self.begin(alloc, name),
            _ => self.ask(alloc, fields),
        }
    }

    fn text(&self, name: &str) -> Option<&str> {
        let text = match self.table {
            Some(Table::PartyWithKeys) => self.roles_with_keys.text(name),
            _ => self.roles.text(name),
        };
        match text {
            Some(text) => Some(text),
            None => named(name),
        }
    }

    fn made(&self, alloc: Global, name: &str) -> Result<Option<Text>, NoMemory> {
        sealed::token(alloc, name)
    }
}

fn main(rt: HostRuntime) -> io::Result<()> {
    let mut cases: RoleCases<RpCore, PkceParty> = RoleCases::new(rt.alloc());
    let printed = print_cases(&rt, &mut cases);
    // (dropped by a call, and not in place: the proof of that is long)
    drop(cases);
    printed
}

//! Cases of messages, each a line that a person can read: how each is read, or why it is refused, how it is written, and the
//! answers of a registry.
//!
//! The file `stdin` has the cases, and `stdout` has them with their answers. The crate `case_lines` documents how a line is
//! read. The comments in the table name the source of the expected answers: standards, and other programs. A line `table|NAME`
//! begins one of two tables. The lines below it are calls of that table, in which `$NAME$` is a text of the table.
//!
//! | Module | Its calls |
//! |---|---|
//! | `registries` | the table of registries: |
//! | `registries::configurations` | `registry`, `version`, `secrets`, `titles`, `settings`, `file`, `users` and `rows` read configurations |
//! | `registries::registered` | `provider`, `find`, `row` and `subject` query the sample's registry |
//! | `registries::discovery` | `document`, `discovery` and `less` |
//! | `registries::sample` | none; the configuration of the other cases, and named texts |
//! | `answers` | the table of the answers of a sign-on: |
//! | `answers::token_requests` | `read_grant` and `print_grant`: token requests |
//! | `answers::token_answers` | `print_tokens`, `print_token_error` and `read_tokens`: their answers |
//! | `answers::user_info` | `info_claims`, `held_claims`, `read_bearer`, `print_info` and `read_info`: UserInfo |
//! | `answers::error_codes` | `error_codes`, `error_text` and `read_error`: the error codes of authorization responses |
//! | `answers::responses` | `print_answer`, `print_refusal` and `read_answer`: authorization responses |
//! | `answers::messages` | none; prints messages from server to server |
//! | `answers::sample` | none; the clients and users of the cases, and named texts |
#![tactic(auto)]

mod answers;
mod registries;

use crate::answers::AnswerCases;
use crate::registries::RegistryCases;
use case_lines::{Cases, print_cases, told};
use client_registry::RegNo;
use sso_base::NoMemory;
use std::alloc::Global;
use std::{io, mem};

// One of the two tables.
#[derive(Drop)]
enum Table {
    Registries(RegistryCases),
    Answers(AnswerCases),
}

impl Cases for Table {
    fn answer(&mut self, alloc: Global, fields: &[&str]) -> Result<String, NoMemory> {
        match self {
            Table::Registries(cases) => cases.answer(alloc, fields),
            Table::Answers(cases) => cases.answer(alloc, fields),
        }
    }

    fn text(&self, name: &str) -> Option<&str> {
        match self {
            Table::Registries(cases) => cases.text(name),
            Table::Answers(cases) => cases.text(name),
        }
    }
}

fn registry_table(alloc: Global) -> Result<Option<Table>, RegNo> {
    Ok(Some(Table::Registries(RegistryCases::new(alloc)?)))
}

fn answer_table(alloc: Global) -> Result<Option<Table>, RegNo> {
    Ok(Some(Table::Answers(AnswerCases::new(alloc)?)))
}

// The table with this name, if there is one.
fn table_of(alloc: Global, name: &str) -> Result<Option<Table>, RegNo> {
    match name {
        "registries" => registry_table(alloc),
        "answers" => answer_table(alloc),
        _ => Ok(None),
    }
}

// The current table.
#[derive(Drop)]
struct MessageCases {
    table: Option<Table>,
}

impl MessageCases {
    fn begin(&mut self, alloc: Global, name: &str) -> Result<String, NoMemory> {
        match table_of(alloc, name) {
            Ok(table) => told(alloc, self.set(table)),
            Err(RegNo::NoMemory) => Err(NoMemory),
            Err(_) => told(alloc, "no registry"),
        }
    }

    fn set(&mut self, table: Option<Table>) -> &'static str {
        let told = if table.is_some() {
            "begun"
        } else {
            "no such table"
        };
        // (dropped by a call, and not in place: the proof of that is long)
        drop(mem::replace(&mut self.table, table));
        told
    }

    fn ask(&mut self, alloc: Global, fields: &[&str]) -> Result<String, NoMemory> {
        match &mut self.table {
            Some(table) => table.answer(alloc, fields),
            None => told(alloc, "no table"),
        }
    }
}

impl Cases for MessageCases {
    fn answer(&mut self, alloc: Global, fields: &[&str]) -> Result<String, NoMemory> {
        match fields {
            ["table", name] => self.begin(alloc, name),
            _ => self.ask(alloc, fields),
        }
    }

    fn text(&self, name: &str) -> Option<&str> {
        self.table.as_ref()?.text(name)
    }
}

fn main(rt: HostRuntime) -> io::Result<()> {
    let mut cases = MessageCases { table: None };
    let printed = print_cases(&rt, &mut cases);
    // (the same)
    drop(cases);
    printed
}

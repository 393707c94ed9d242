//! Cases of authorization requests, each a line that a person can read: their parameters, their verification, their needs, and
//! request objects. Then cases of the URLs that may be registered.
//!
//! The file `stdin` has the cases, and `stdout` has them with their answers. The crate `case_lines` documents how a line is
//! read. The comments in the table name the source of the expected answers: standards, and other programs. `$NAME$` is a text
//! of `requests::sample`.
//!
//! | Module | Its calls |
//! |---|---|
//! | `requests` | the table of authorization requests: |
//! | `requests::parameters` | `form`, `merge`, `location`, `query` and `fragment` |
//! | `requests::judgement` | `judge` and `judge_whole` |
//! | `requests::needs` | `need` and `needed_scopes` |
//! | `requests::request_objects` | `object`, `object_under`, `unseal_request` and `seal_request`: request objects |
//! | `requests::sample` | none; the configuration of the cases, and named texts |
//! | `urls` | `url`, `same_server`, `query_names` and `urls` |
#![tactic(auto)]

mod requests;
mod urls;

use crate::requests::RequestCases;
use case_lines::print_cases;
use std::io;

fn main(rt: HostRuntime) -> io::Result<()> {
    let Ok(mut cases) = RequestCases::new(rt.alloc()) else {
        return println!(rt; "no registry");
    };
    let printed = print_cases(&rt, &mut cases);
    // (dropped by a call, and not in place: the proof of that is long)
    drop(cases);
    printed
}

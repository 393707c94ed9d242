//! The program: runs the top call `sso` with this machine's files as the shelf and standard output as the sink. It has a desk for
//! each worker (`desks`) over the machine's network, clock and random bytes.
#![tactic(auto)]

use crate::desks::desks;
use platform::{FileShelf, WriterSink, read_words};
use sso::sso;
use std::process::ExitCode;

mod desks;

/// Exits with the status of the top call, or with 1 if there is no memory for the words and the desks, or there are no random
/// bytes.
fn main(rt: HostRuntime) -> ExitCode {
    let alloc = rt.alloc();
    let (Ok(words), Ok(mut desks)) = (read_words(alloc, &rt), desks(&rt, alloc)) else {
        return ExitCode::from(1);
    };
    let mut shelf = FileShelf::new(&rt);
    let mut out = WriterSink::new(rt.stdout());
    ExitCode::from(sso(
        &rt,
        alloc,
        words.as_slice(),
        &mut shelf,
        &mut out,
        &mut desks,
    ))
}

// Prints the steps of a role.

use case_lines::Run;
use sso_base::{CoreNo, Moment, NoMemory};
use std::alloc::Global;

/// A role whose replies are printed.
pub trait Telling {
    type Reply;

    /// What a call prints for a reply: its line and, as in `Run::told`, how it is sent. The run keeps the reply.
    fn tell(
        &self,
        alloc: Global,
        run: &mut Run,
        call: &str,
        reply: &Self::Reply,
    ) -> Result<String, NoMemory>;

    /// Sends a request for something that does not exist, and returns whether nothing is found. `None` if memory runs out.
    fn try_nothing(&mut self, alloc: Global, at: Moment) -> Option<bool>;
}

// What a call prints for a step that was made. If memory runs out, the step must not be made again, so only the printing is
// repeated.
fn reply_told<T: Telling>(
    alloc: Global,
    run: &mut Run,
    call: &str,
    role: &T,
    reply: &T::Reply,
) -> Result<String, NoMemory> {
    run.count();
    match role.tell(alloc, run, call, reply) {
        Ok(told) => Ok(told),
        Err(NoMemory) => role.tell(alloc, run, call, reply),
    }
}

/// What a call prints for a step.
pub fn step_told<T: Telling>(
    alloc: Global,
    run: &mut Run,
    call: &str,
    role: &T,
    answer: &Result<T::Reply, CoreNo>,
) -> Result<String, NoMemory> {
    match answer {
        Ok(reply) => reply_told(alloc, run, call, role, reply),
        Err(CoreNo::JournalFull(weight)) => Ok(format!(in alloc; "JournalFull {weight}")?),
        Err(CoreNo::NoMemory) => Err(NoMemory),
    }
}

// The same, with a second attempt if memory ran out.
fn finds_nothing<T: Telling>(alloc: Global, role: &mut T, at: Moment) -> bool {
    match role.try_nothing(alloc, at) {
        Some(found) => found,
        None => role.try_nothing(alloc, at) == Some(true),
    }
}

/// Sends `count` requests for something that does not exist, and returns how often nothing is found.
pub fn fill<T: Telling>(
    alloc: Global,
    role: &mut T,
    at: Moment,
    count: u32,
) -> Result<String, NoMemory> {
    let mut found: u32 = 0;
    for _ in 0..count {
        if finds_nothing(alloc, role, at) {
            found = found.wrapping_add(1);
        }
    }
    Ok(format!(in alloc; "nothing, {found} times")?)
}

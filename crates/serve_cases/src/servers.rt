// The call `serve`: a server of the role whose core is full after one request.

ghost use Rattle.std.specs.Prelude.{◌≤◌, ◌<◌, ◌^◌, length};
ghost use Rattle.std.specs.List.{All};

use crate::desks::{CaseDesk, CaseDoor, desks_in, push_desks};
use crate::tally::Tally;
use crate::tally_role::TallyRole;
use case_lines::told;
use server_desk::Door;
use serving::{Summary, serve};
use sso_base::{Core, NoMemory, Text};
use std::alloc::Global;
use std::sync::Wait;
use std::thread::Threads;

// The numbers of connections and entries, and whether a door failed, or there was no store.
fn told_summary<O: Core + Send>(alloc: Global, summary: &Summary<O>) -> Result<String, NoMemory> {
    let mut out = format!(in alloc; "served {} entries {}", summary.served, summary.entries)?;
    if summary.fault {
        out.push_str(", a door failed")?;
    }
    if summary.closed.is_none() {
        out.push_str(", no store")?;
    }
    Ok(out)
}

fn tally<R: Threads + Wait + Sync>(
    rt: &R,
    alloc: Global,
    desks: &mut Vec<CaseDesk>,
) -> Result<String, NoMemory>
    requires few { length desks.old.items ≤ 64 }
    requires desks { All (λ desk. (desk.turns ≤ 2 ^ 56) × ((⟦<CaseDoor as Door>⟧.state desk.door).given < 2 ^ 63)) desks.old.items }
{
    let place = Text::new(alloc, "127.0.0.1:8080")?;
    let summary = serve(
        rt,
        alloc,
        &TallyRole,
        Tally::new(alloc, false),
        &place,
        desks,
    )?;
    told_summary(alloc, &summary)
}

/// `serve|DESK|..`: the summary of the server, and then each desk.
pub fn answer<R: Threads + Wait + Sync>(
    rt: &R,
    alloc: Global,
    texts: &[&str],
) -> Result<String, NoMemory> {
    let mut desks = desks_in(alloc, texts)?;
    if desks.len() > 64 {
        return told(alloc, "too many desks");
    }
    let mut out = tally(rt, alloc, &mut desks)?;
    push_desks(alloc, &mut out, desks.as_slice())?;
    Ok(out)
}

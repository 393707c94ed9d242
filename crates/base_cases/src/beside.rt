// The held rows of a table compared with a plain list: the answers of both to the same calls.

use crate::held::HeldMembers;
use crate::plain::PlainMembers;
use crate::table::ask;
use case_lines::{push_part, told};
use sso_base::{Moment, NoMemory};
use std::alloc::Global;

// Two tables that receive the same calls.
#[derive(Drop)]
struct Both {
    held: HeldMembers,
    plain: PlainMembers,
}

impl Both {
    fn new(alloc: Global) -> Both {
        let Some(start) = Moment::new(0) else {
            unreachable!()
        };
        Both {
            held: HeldMembers::new(alloc, start),
            plain: PlainMembers::new(alloc, start),
        }
    }

    // The answer of both to a call, whose words are separated by spaces, or `None` if they differ.
    fn answer(&mut self, alloc: Global, call: &str) -> Result<Option<String>, NoMemory> {
        let words: Vec<&str> = call.split(' ').collect(alloc)?;
        let held = ask(alloc, &mut self.held, words.as_slice())?;
        let plain = ask(alloc, &mut self.plain, words.as_slice())?;
        if held.as_str() == plain.as_str() {
            Ok(Some(held))
        } else {
            Ok(None)
        }
    }

    fn agree_at(&mut self, alloc: Global, call: &str) -> Result<bool, NoMemory> {
        Ok(self.answer(alloc, call)?.is_some())
    }

    // Whether both have the same member with a name, and as many of its groups.
    fn agree_on(
        &mut self,
        alloc: Global,
        name: &str,
        group: &str,
        other: &str,
    ) -> Result<bool, NoMemory> {
        let found = format!(in alloc; "find {name}")?;
        let first = format!(in alloc; "count {group} - 0")?;
        let second = format!(in alloc; "count - {other} 0")?;
        Ok(
            self.agree_at(alloc, found.as_str())?
                && self.agree_at(alloc, first.as_str())?
                && self.agree_at(alloc, second.as_str())?,
        )
    }

    // The same for the member that a call adds or puts, if it does.
    fn agree_after(&mut self, alloc: Global, call: &str) -> Result<bool, NoMemory> {
        let words: Vec<&str> = call.split(' ').collect(alloc)?;
        match words.as_slice() {
            ["add" | "put", name, group, other, ..] => self.agree_on(alloc, name, group, other),
            _ => Ok(true),
        }
    }

    // Whether both hold the same members, if these calls have added all members that are held.
    fn agree(&mut self, alloc: Global, calls: &str) -> Result<bool, NoMemory> {
        for call in calls.split(" / ") {
            if !self.agree_after(alloc, call)? {
                return Ok(false);
            }
        }
        self.agree_at(alloc, "count - - 0")
    }
}

// The answer of a call, if both hold the same members after it, or `None` if they differ.
fn carried_out(
    alloc: Global,
    both: &mut Both,
    call: &str,
    calls: &str,
) -> Result<Option<String>, NoMemory> {
    let answer = both.answer(alloc, call)?;
    if both.agree(alloc, calls)? {
        Ok(answer)
    } else {
        Ok(None)
    }
}

/// `table|CALL / CALL`: the answers of a table and a plain list to these calls, and the members that are left. If they differ,
/// the number of the call at which they do.
pub fn table(alloc: Global, calls: &str) -> Result<String, NoMemory> {
    let mut both = Both::new(alloc);
    let mut answers = String::new(alloc);
    let mut number: u64 = 0;
    for call in calls.split(" / ") {
        number = number.saturating_add(1);
        match carried_out(alloc, &mut both, call, calls)? {
            Some(answer) => push_part(&mut answers, " / ", answer.as_str())?,
            None => return Ok(format!(in alloc; "differ at {number}")?),
        }
    }
    let left = both.plain.told(alloc)?;
    Ok(format!(in alloc; "{answers}; left: {left}")?)
}

// The call that adds the member with this number, which begins at as many seconds. Its name is far from those of its
// neighbours.
fn added(alloc: Global, number: u32) -> Result<String, NoMemory> {
    let name = number.wrapping_mul(2_654_435_761);
    let (group, other) = (number % 3, number % 7);
    Ok(format!(in alloc; "add {name} g{group} h{other} {number} {number}")?)
}

// The calls that add `count` members.
fn all_added(alloc: Global, count: u32) -> Result<String, NoMemory> {
    let mut calls = String::new(alloc);
    for number in 0..count {
        push_part(&mut calls, " / ", added(alloc, number)?.as_str())?;
    }
    Ok(calls)
}

// Whether both answer these calls in the same way. The answers are added to those before.
fn all_answered(
    alloc: Global,
    both: &mut Both,
    calls: &str,
    answers: &mut String,
) -> Result<bool, NoMemory> {
    for call in calls.split(" / ") {
        match both.answer(alloc, call)? {
            Some(answer) => push_part(answers, " / ", answer.as_str())?,
            None => return Ok(false),
        }
    }
    Ok(true)
}

/// `many|COUNT|CALL / CALL`: the answers of a table and a plain list to these calls, after COUNT members were added, if they
/// answer in the same way and hold the same members at the end. Otherwise `differ`.
pub fn many(alloc: Global, count: &str, calls: &str) -> Result<String, NoMemory> {
    let Ok(count) = count.parse::<u32>() else {
        return told(alloc, "no number");
    };
    let mut both = Both::new(alloc);
    let mut unseen = String::new(alloc);
    let mut answers = String::new(alloc);
    let adding = all_added(alloc, count)?;
    let same = all_answered(alloc, &mut both, adding.as_str(), &mut unseen)?
        && all_answered(alloc, &mut both, calls, &mut answers)?
        && both.agree(alloc, adding.as_str())?;
    if same {
        Ok(answers)
    } else {
        told(alloc, "differ")
    }
}

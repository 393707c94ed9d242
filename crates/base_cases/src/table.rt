// The calls of a table of members.

use crate::members::{InGroup, InOther, Member, Numbered};
use case_lines::{given, moment, told, told_number, told_truth};
use held_rows::Test;
use sso_base::{Moment, NoMemory, Text};
use std::alloc::Global;

/// A table of members. No two have the same name, and they are in the order in which they were added or put.
pub trait Table {
    /// The member with this name.
    fn find(&self, name: &str) -> Option<&Member>;

    /// Adds a member. `false` if it must not be added: its name is taken, or its moment is before the last one's.
    fn add(&mut self, row: Member) -> Result<bool, NoMemory>;

    /// Puts a member at the end, in place of the one with its name. `false` if there is none with its name, or its moment is
    /// before the last one's.
    fn put(&mut self, name: &str, row: Member) -> Result<bool, NoMemory>;

    /// Gives the member with this name another number.
    fn change(&mut self, name: &str, change: Numbered);

    /// Removes the member with this name.
    fn remove(&mut self, name: &str);

    /// Removes the members that pass the test, and returns their number.
    fn take_out<T: Test<Member>>(&mut self, test: &T) -> u64;

    /// Removes the members that are not live at the moment.
    fn purge(&mut self, at: Moment);

    /// Whether a member that is live at the moment passes the test.
    fn any_live<T: Test<Member>>(&self, test: &T, at: Moment) -> bool;

    /// The number of members that are live at the moment and pass the test.
    fn count_live<T: Test<Member>>(&self, test: &T, at: Moment) -> u64;

    /// The number of members that are live at the moment.
    fn count_all_live(&self, at: Moment) -> u64;

    /// Whether there is room for one more member at the moment.
    fn has_room(&self, at: Moment) -> bool;
}

// A text of a call; `''` is the empty one.
fn text(word: &str) -> &str {
    if word == "''" { "" } else { word }
}

fn text_if(alloc: Global, word: &str) -> Result<Option<Text>, NoMemory> {
    match given(word) {
        Some(word) => Ok(Some(Text::new(alloc, text(word))?)),
        None => Ok(None),
    }
}

// The member `NAME GROUP OTHER BEGUN NUMBER`.
fn member(alloc: Global, words: &[&str]) -> Result<Option<Member>, NoMemory> {
    let [name, group, other, begun, number] = words else {
        return Ok(None);
    };
    let (Some(begun), Ok(number)) = (moment(begun), number.parse::<u32>()) else {
        return Ok(None);
    };
    Ok(Some(Member {
        name: Text::new(alloc, text(name))?,
        group: text_if(alloc, group)?,
        other: text_if(alloc, other)?,
        begun,
        number,
    }))
}

fn quoted(text: &str) -> &str {
    if text.is_empty() { "''" } else { text }
}

fn quoted_if(text: &Option<Text>) -> &str {
    match text {
        Some(text) => quoted(text.as_str()),
        None => "-",
    }
}

/// The member as it is written in a call.
pub fn told_member(alloc: Global, row: &Member) -> Result<String, NoMemory> {
    let name = quoted(row.name.as_str());
    let (group, other) = (quoted_if(&row.group), quoted_if(&row.other));
    let begun = row.begun.seconds();
    Ok(format!(in alloc; "{name} {group} {other} {begun} {}", row.number)?)
}

fn told_done(alloc: Global, done: bool) -> Result<String, NoMemory> {
    told(alloc, if done { "done" } else { "may not" })
}

fn add<T: Table>(alloc: Global, table: &mut T, words: &[&str]) -> Result<String, NoMemory> {
    match member(alloc, words)? {
        Some(row) => told_done(alloc, table.add(row)?),
        None => told(alloc, "no member"),
    }
}

fn put<T: Table>(alloc: Global, table: &mut T, words: &[&str]) -> Result<String, NoMemory> {
    match (words, member(alloc, words)?) {
        ([name, ..], Some(row)) => told_done(alloc, table.put(text(name), row)?),
        _ => told(alloc, "no member"),
    }
}

fn find<T: Table>(alloc: Global, table: &T, name: &str) -> Result<String, NoMemory> {
    match table.find(text(name)) {
        Some(row) => told_member(alloc, row),
        None => told(alloc, "none"),
    }
}

fn change<T: Table>(
    alloc: Global,
    table: &mut T,
    name: &str,
    number: &str,
) -> Result<String, NoMemory> {
    let Ok(number) = number.parse::<u32>() else {
        return told(alloc, "no number");
    };
    table.change(text(name), Numbered { number });
    told(alloc, "done")
}

fn remove<T: Table>(alloc: Global, table: &mut T, name: &str) -> Result<String, NoMemory> {
    table.remove(text(name));
    told(alloc, "done")
}

fn take<T: Table>(
    alloc: Global,
    table: &mut T,
    group: &str,
    other: &str,
) -> Result<String, NoMemory> {
    let group = given(group).map(text);
    let taken = match (group, given(other).map(text)) {
        (_, Some(other)) => table.take_out(&InOther { group, other }),
        (Some(group), None) => table.take_out(&InGroup { group }),
        (None, None) => return told(alloc, "no group"),
    };
    told_number(alloc, Some(taken))
}

fn purge<T: Table>(alloc: Global, table: &mut T, at: &str) -> Result<String, NoMemory> {
    let Some(at) = moment(at) else {
        return told(alloc, "no moment");
    };
    table.purge(at);
    told(alloc, "done")
}

fn any<T: Table>(
    alloc: Global,
    table: &T,
    (group, other): (&str, &str),
    at: Moment,
) -> Result<String, NoMemory> {
    let group = given(group).map(text);
    match (group, given(other).map(text)) {
        (_, Some(other)) => told_truth(alloc, table.any_live(&InOther { group, other }, at)),
        (Some(group), None) => told_truth(alloc, table.any_live(&InGroup { group }, at)),
        (None, None) => told(alloc, "no group"),
    }
}

fn count<T: Table>(
    alloc: Global,
    table: &T,
    (group, other): (&str, &str),
    at: Moment,
) -> Result<String, NoMemory> {
    let group = given(group).map(text);
    let count = match (group, given(other).map(text)) {
        (_, Some(other)) => table.count_live(&InOther { group, other }, at),
        (Some(group), None) => table.count_live(&InGroup { group }, at),
        (None, None) => table.count_all_live(at),
    };
    told_number(alloc, Some(count))
}

// What a call prints about the members that are live at a moment.
fn ask_live<T: Table>(
    alloc: Global,
    table: &T,
    words: &[&str],
    at: &str,
) -> Result<String, NoMemory> {
    let Some(at) = moment(at) else {
        return told(alloc, "no moment");
    };
    match words {
        ["any", group, other] => any(alloc, table, (group, other), at),
        ["count", group, other] => count(alloc, table, (group, other), at),
        ["room"] => told_truth(alloc, table.has_room(at)),
        _ => told(alloc, "no such call"),
    }
}

/// The answer of a call of the table. It is carried out if its preconditions hold. A group `-` is none.
///
/// | Call | Its answer |
/// |---|---|
/// | `add NAME GROUP OTHER BEGUN NUMBER`, `put ..` | `done`, or `may not` if its precondition is false |
/// | `find NAME` | the member, or `none` |
/// | `change NAME NUMBER`, `remove NAME`, `purge AT` | `done` |
/// | `take GROUP OTHER` | the number of members of each given group that were removed |
/// | `any GROUP OTHER AT`, `count GROUP OTHER AT` | whether one of them is live, and how many are; `count - - AT` counts all |
/// | `room AT` | whether there is room for one more |
pub fn ask<T: Table>(alloc: Global, table: &mut T, words: &[&str]) -> Result<String, NoMemory> {
    match words {
        ["add", words @ ..] => add(alloc, table, words),
        ["put", words @ ..] => put(alloc, table, words),
        ["find", name] => find(alloc, table, name),
        ["change", name, number] => change(alloc, table, name, number),
        ["remove", name] => remove(alloc, table, name),
        ["take", group, other] => take(alloc, table, group, other),
        ["purge", at] => purge(alloc, table, at),
        [words @ .., at] => ask_live(alloc, table, words, at),
        _ => told(alloc, "no such call"),
    }
}

//! Tables of cases. A program reads lines of text. Each is a call with its arguments, and is printed with the answer. So the
//! output is a table that a person can read, and the input is the same table without answers.
//!
//! An empty line, and one that begins with `#`, is printed as it is. In every other line the fields are separated by `|`. `$n$`
//! is the text of word number n, which ends with n in four bytes and has zeros before it. `$NAME$` is a text that the program
//! names, or `no text of this name`. No call here has a postcondition: the output of the programs is compared, and nothing else
//! depends on it.
//!
//! If memory runs out at a line, it is printed with `no memory`, and its call is made once more. A step that runs out of memory
//! changes nothing. So if one allocation fails, the table has at most that one more line.
//!
//! | Module | What it has |
//! |---|---|
//! | `fields` | reads the values of most fields |
//! | `numbered` | words by number |
//! | `requests` | reads requests, and answers of a provider |
//! | `answers` | prints most answers |
//! | `http` | a reply in HTTP as a text |
//! | `run` | requests one after another: their random words, and the follow-up of the last reply |
//! | `slow` | a source and a sink that give and take few bytes at a call |
#![tactic(auto)]

mod answers;
mod fields;
mod http;
mod numbered;
mod requests;
mod run;
mod slow;

pub use crate::answers::{
    claim_refusal, flagged, or_else, push_named, push_part, told, told_bytes, told_hex,
    told_number, told_quoted, told_refusal, told_scopes, told_text, told_texts, told_truth,
    told_words,
};
pub use crate::fields::{
    as_text, bytes, field, given, given_text, given_texts, hex_word, in_32, moment, number, scopes,
    times, word_in, word_of, written,
};
pub use crate::http::{push_field, push_http, push_message};
pub use crate::numbered::{word, words_of_place};
pub use crate::requests::{answered, request};
pub use crate::run::Run;
pub use crate::slow::{SlowSink, SlowSource};
use sso_base::{NoMemory, Text};
use std::alloc::Global;
use std::io;

/// The calls of a table.
pub trait Cases {
    /// The answer to the call with these fields. The first is the name of the call.
    fn answer(&mut self, alloc: Global, fields: &[&str]) -> Result<String, NoMemory>;

    /// The text with this name, if there is one.
    fn text(&self, name: &str) -> Option<&str>;

    /// The text that is computed for this name, if there is one.
    fn made(&self, _alloc: Global, _name: &str) -> Result<Option<Text>, NoMemory> {
        Ok(None)
    }
}

// Adds the text that is computed for this name.
fn push_made<C: Cases>(
    alloc: Global,
    line: &mut String,
    cases: &C,
    name: &str,
) -> Result<(), NoMemory> {
    match cases.made(alloc, name)? {
        Some(text) => Ok(line.push_str(text.as_str())?),
        None => Ok(line.push_str("no text of this name")?),
    }
}

// Adds the text with this name.
fn push_text<C: Cases>(
    alloc: Global,
    line: &mut String,
    cases: &C,
    name: &str,
) -> Result<(), NoMemory> {
    if let Ok(number) = name.parse::<u32>() {
        let text = word(number).to_text(alloc)?;
        return Ok(line.push_str(text.as_str())?);
    }
    match cases.text(name) {
        Some(text) => Ok(line.push_str(text)?),
        None => push_made(alloc, line, cases, name),
    }
}

/// The line with the texts in place of their names.
pub fn written_out<C: Cases>(alloc: Global, cases: &C, line: &str) -> Result<String, NoMemory> {
    let mut whole = String::new(alloc);
    let mut is_name = false;
    for piece in line.split('$') {
        if is_name {
            push_text(alloc, &mut whole, cases, piece)?;
        } else {
            whole.push_str(piece)?;
        }
        is_name = !is_name;
    }
    Ok(whole)
}

fn answer_line<C: Cases>(alloc: Global, cases: &mut C, line: &str) -> Result<String, NoMemory> {
    let whole = written_out(alloc, cases, line)?;
    let fields: Vec<&str> = whole.as_str().split('|').collect(alloc)?;
    cases.answer(alloc, fields.as_slice())
}

// Prints the line with its answer, and returns whether there was memory for it.
fn print_told<R: Print>(rt: &R, line: &str, answer: Result<String, NoMemory>) -> io::Result<bool> {
    match answer {
        Ok(text) => {
            println!(rt; "{line} => {text}")?;
            Ok(true)
        }
        Err(NoMemory) => {
            println!(rt; "{line} => no memory")?;
            Ok(false)
        }
    }
}

fn print_line<R: Print, F: FnMut(&str) -> Result<String, NoMemory>>(
    rt: &R,
    answer: &mut F,
    line: &str,
) -> io::Result<()>
    requires answered { (f : _) (line : _) → F.pre f line }
{
    if line.is_empty() || line.starts_with('#') {
        return println!(rt; "{line}");
    }
    if !print_told(rt, line, answer(line))? {
        print_told(rt, line, answer(line))?;
    }
    Ok(())
}

/// Reads the table line by line, and prints each line with its answer.
pub fn print_lines<R: Input + Print + AllocGlobal, F: FnMut(&str) -> Result<String, NoMemory>>(
    rt: &R,
    mut answer: F,
) -> io::Result<()>
    requires answered { (f : _) (line : _) → F.pre f line }
{
    for line in rt.lines(rt.alloc()) {
        print_line(rt, &mut answer, line?.as_str())?;
    }
    Ok(())
}

/// Reads the cases of the table line by line, and prints each with its answer.
pub fn print_cases<R: Input + Print + AllocGlobal, C: Cases>(
    rt: &R,
    cases: &mut C,
) -> io::Result<()> {
    print_lines(rt, |line| answer_line(rt.alloc(), cases, line))
}

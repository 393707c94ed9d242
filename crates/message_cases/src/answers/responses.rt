// Writes and reads authorization responses.

use crate::answers::error_codes::{name_of, named};
use auth_answer::{Answer, AnswerNo, Heard, print_answer, print_refusal, read_answer};
use case_lines::{given, given_text, hex_word, or_else, push_named, told, told_hex};
use oidc_words::Refusal;
use sso_base::{NoMemory, Text};
use std::alloc::Global;

fn answer(
    alloc: Global,
    (redirect, place): (&str, &str),
    (code, access): (&str, &str),
    id: &str,
    state: &str,
) -> Result<Answer, NoMemory> {
    Ok(Answer {
        redirect: Text::new(alloc, redirect)?,
        fragment: place == "fragment",
        code: given(code).and_then(hex_word),
        access: given(access).and_then(hex_word),
        id: given_text(alloc, id)?,
        state: given_text(alloc, state)?,
    })
}

/// `print_answer|REDIRECT|PLACE|CODE|ACCESS|ID|STATE`: the location of an answer, printed from a copy. PLACE is `query` or
/// `fragment`, and CODE and ACCESS are words in hex.
pub fn print(
    alloc: Global,
    to: (&str, &str),
    words: (&str, &str),
    id: &str,
    state: &str,
) -> Result<String, NoMemory> {
    let copied = answer(alloc, to, words, id, state)?.copy(alloc)?;
    let location = print_answer(alloc, &copied)?;
    told(alloc, location.as_str())
}

/// `print_refusal|REDIRECT|PLACE|CODE|STATE`: the location of a refusal with the code of this name.
pub fn refuse(
    alloc: Global,
    (redirect, place): (&str, &str),
    code: &str,
    state: &str,
) -> Result<String, NoMemory> {
    let refusal = Refusal {
        redirect: Text::new(alloc, redirect)?,
        fragment: place == "fragment",
        state: given_text(alloc, state)?,
        code: named(code),
    };
    let location = print_refusal(alloc, &refusal)?;
    told(alloc, location.as_str())
}

// Adds the state, in hex, if there is one.
fn push_state(alloc: Global, list: &mut String, heard: &Heard) -> Result<(), NoMemory> {
    if let Some(state) = &heard.state {
        let digits = told_hex(alloc, &state.bytes())?;
        push_named(list, "state", Some(digits.as_str()))?;
    }
    Ok(())
}

fn listed(alloc: Global, heard: &Heard) -> Result<String, NoMemory> {
    let mut list = String::new(alloc);
    push_state(alloc, &mut list, heard)?;
    push_named(&mut list, "error", heard.error.map(name_of))?;
    push_named(&mut list, "code", heard.code.as_ref().map(Text::as_str))?;
    push_named(
        &mut list,
        "access_token",
        heard.access.as_ref().map(Text::as_str),
    )?;
    push_named(&mut list, "id_token", heard.id.as_ref().map(Text::as_str))?;
    or_else(list, "nothing")
}

fn told_heard(alloc: Global, answer: &Result<Heard, AnswerNo>) -> Result<String, NoMemory> {
    match answer {
        Ok(heard) => listed(alloc, heard),
        Err(AnswerNo::Twice(name)) => Ok(format!(in alloc; "Twice {}", name.as_str())?),
        Err(AnswerNo::NoMemory) => Err(NoMemory),
    }
}

/// `read_answer|FORM`: the parts of a response, or why it is refused. The state is a word, in hex.
pub fn read(alloc: Global, form: &str) -> Result<String, NoMemory> {
    let answer = read_answer(alloc, form.as_bytes());
    told_heard(alloc, &answer)
}

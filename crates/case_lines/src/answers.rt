// How answers are written.

use crate::fields::as_text;
use claim_set::ClaimNo;
use oidc_words::Scopes;
use sso_base::{NoMemory, Text, Texts};
use std::alloc::{AllocError, Global};

/// This text.
pub fn told(alloc: Global, answer: &str) -> Result<String, NoMemory> {
    Ok(String::from_str(alloc, answer)?)
}

/// `true` or `false`.
pub fn told_truth(alloc: Global, holds: bool) -> Result<String, NoMemory> {
    told(alloc, if holds { "true" } else { "false" })
}

/// The text that these bytes are.
pub fn told_bytes(alloc: Global, bytes: &[u8]) -> Result<String, NoMemory> {
    told(alloc, as_text(bytes))
}

/// The bytes in hexadecimal digits.
pub fn told_hex(alloc: Global, bytes: &[u8]) -> Result<String, NoMemory> {
    Ok(hex::encode(alloc, bytes)?)
}

/// The name of a refusal, and after it what it names, if it names anything.
pub fn told_refusal(alloc: Global, (name, what): (&str, &str)) -> Result<String, NoMemory> {
    if what.is_empty() {
        return told(alloc, name);
    }
    Ok(format!(in alloc; "{name} {what}")?)
}

/// The name of a refusal of claims, and the claim that it names.
pub fn claim_refusal(why: &ClaimNo) -> (&str, &str) {
    match why {
        ClaimNo::NoMemory => ("NoMemory", ""),
        ClaimNo::NotJson => ("NotJson", ""),
        ClaimNo::NotObject => ("NotObject", ""),
        ClaimNo::WrongKind(name) => ("WrongKind", name.as_str()),
    }
}

/// The text in quotes, or `-` if there is none.
pub fn told_text(alloc: Global, text: &Option<Text>) -> Result<String, NoMemory> {
    match text {
        Some(text) => Ok(format!(in alloc; "{:?}", text.as_str())?),
        None => told(alloc, "-"),
    }
}

/// A text in quotes. If it ends with one character a hundred times or more, these are written as `COUNT*CHARACTER`.
pub fn told_quoted(alloc: Global, text: &str) -> Result<String, NoMemory> {
    let last = text.chars().next_back().unwrap_or(' ');
    let rest = text.trim_end_matches(last);
    let count = text.len().saturating_sub(rest.len());
    if count < 100 {
        Ok(format!(in alloc; "{text:?}")?)
    } else if rest.is_empty() {
        Ok(format!(in alloc; "{count}*{last}")?)
    } else {
        Ok(format!(in alloc; "{rest:?} ++ {count}*{last}")?)
    }
}

/// The number, or `-` if there is none.
pub fn told_number(alloc: Global, number: Option<u64>) -> Result<String, NoMemory> {
    match number {
        Some(number) => Ok(number.to_string(alloc)?),
        None => told(alloc, "-"),
    }
}

/// Adds a part to others, with this text between.
pub fn push_part(list: &mut String, between: &str, part: &str) -> Result<(), AllocError> {
    if !list.is_empty() {
        list.push_str(between)?;
    }
    list.push_str(part)
}

/// Adds `name=value` to a list, with ` & ` in between, if there is a value.
pub fn push_named(list: &mut String, name: &str, value: Option<&str>) -> Result<(), AllocError> {
    if let Some(value) = value {
        push_part(list, " & ", name)?;
        list.push_str("=")?;
        list.push_str(value)?;
    }
    Ok(())
}

/// The list, or this text if the list is empty.
pub fn or_else(mut list: String, empty: &str) -> Result<String, NoMemory> {
    if list.is_empty() {
        list.push_str(empty)?;
    }
    Ok(list)
}

/// The texts with a space between, or `-`.
pub fn told_words(alloc: Global, texts: &Texts) -> Result<String, NoMemory> {
    let mut list = String::new(alloc);
    for place in 0..texts.count() {
        push_part(&mut list, " ", texts.at(place))?;
    }
    or_else(list, "-")
}

/// The texts in quotes, with commas between, or `-`.
pub fn told_texts(alloc: Global, texts: &Texts) -> Result<String, NoMemory> {
    let mut list = String::new(alloc);
    for place in 0..texts.count() {
        let text = format!(in alloc; "{:?}", texts.at(place))?;
        push_part(&mut list, ", ", text.as_str())?;
    }
    or_else(list, "-")
}

/// The parts whose flags are set, with this text between them; `empty` if no flag is set.
pub fn flagged(
    alloc: Global,
    parts: &[(bool, &str)],
    between: &str,
    empty: &str,
) -> Result<String, NoMemory> {
    let mut list = String::new(alloc);
    for (is_set, part) in parts {
        if *is_set {
            push_part(&mut list, between, part)?;
        }
    }
    or_else(list, empty)
}

/// The words of scope values, or `-`.
pub fn told_scopes(alloc: Global, scopes: Scopes) -> Result<String, NoMemory> {
    let words = scopes.to_text(alloc)?;
    or_else(told(alloc, words.as_str())?, "-")
}

// Reads the fields of a case.

use crate::numbered::word;
use hex::FromHex;
use oidc_words::Scopes;
use sso_base::{Moment, NoMemory, Text, Texts, Word};
use std::alloc::{AllocError, Global};

/// The value of a field; `-` is none.
pub fn given(field: &str) -> Option<&str> {
    if field == "-" { None } else { Some(field) }
}

// The text repeated `count` times.
fn repeated(alloc: Global, count: u32, text: &str) -> Result<Vec<u8>, AllocError> {
    let mut bytes = Vec::new(alloc);
    for _ in 0..count {
        bytes.extend_from_slice(text.as_bytes())?;
    }
    Ok(bytes)
}

/// The count and the text of a field `COUNT*TEXT`.
pub fn times(field: &str) -> Option<(u32, &str)> {
    let (count, text) = field.split_once('*')?;
    Some((count.parse::<u32>().ok()?, text))
}

// Adds the bytes of the hexadecimal digits, or nothing if they are not such digits.
fn push_decoded(alloc: Global, bytes: &mut Vec<u8>, digits: &str) -> Result<(), AllocError> {
    match hex::decode(alloc, digits.as_bytes()) {
        Ok(decoded) => bytes.extend_from_slice(decoded.as_slice()),
        Err(_) => Ok(()),
    }
}

// Adds the bytes of one part of a field.
fn push_part(alloc: Global, bytes: &mut Vec<u8>, part: &str) -> Result<(), AllocError> {
    if let Some(digits) = part.strip_prefix("hex:") {
        return push_decoded(alloc, bytes, digits);
    }
    match times(part) {
        Some((count, text)) => bytes.extend_from_slice(repeated(alloc, count, text)?.as_slice()),
        None => bytes.extend_from_slice(part.as_bytes()),
    }
}

/// The bytes of a field, whose parts are separated by ` ++ `. `hex:DIGITS` is the bytes with these digits, `COUNT*TEXT` is the
/// text repeated, and any other part is itself.
pub fn bytes(alloc: Global, field: &str) -> Result<Vec<u8>, AllocError> {
    let mut bytes = Vec::new(alloc);
    for part in field.split(" ++ ") {
        push_part(alloc, &mut bytes, part)?;
    }
    Ok(bytes)
}

/// The text of these bytes, or `no text` if they are not UTF-8.
pub fn as_text(bytes: &[u8]) -> &str {
    std::str::from_utf8(bytes).unwrap_or("no text")
}

/// The text of the bytes of a field.
pub fn written(alloc: Global, field: &str) -> Result<String, NoMemory> {
    let bytes = bytes(alloc, field)?;
    Ok(String::from_str(alloc, as_text(bytes.as_slice()))?)
}

/// The text of a field, if it has one.
pub fn given_text(alloc: Global, field: &str) -> Result<Option<Text>, NoMemory> {
    match given(field) {
        Some(text) => Ok(Some(Text::new(alloc, text)?)),
        None => Ok(None),
    }
}

/// The texts of a field, separated by this character; none if the field has no value.
pub fn given_texts(alloc: Global, field: &str, between: char) -> Result<Texts, NoMemory> {
    let mut texts = Texts::new(alloc);
    if field == "-" {
        return Ok(texts);
    }
    for text in field.split(between) {
        texts.push(Text::new(alloc, text)?)?;
    }
    Ok(texts)
}

/// The moment of a field that is a number of seconds.
pub fn moment(field: &str) -> Option<Moment> {
    Moment::new(field.parse::<u64>().ok()?)
}

/// The bytes, if there are 32.
pub fn in_32(bytes: &[u8]) -> Option<[u8; 32]> {
    if bytes.len() != 32 {
        return None;
    }
    let mut exact = [0; 32];
    exact.copy_from_slice(bytes);
    Some(exact)
}

/// The word with these 64 hexadecimal digits.
pub fn hex_word(digits: &str) -> Option<Word> {
    let bytes = <[u8; 32] as FromHex>::from_hex(digits).ok()?;
    Some(Word::new(bytes))
}

/// The scope values of a field, separated by spaces. Other words are ignored, and the field `all` is all of them.
pub fn scopes(alloc: Global, field: &str) -> Result<Scopes, NoMemory> {
    if field == "all" {
        return Ok(Scopes::all());
    }
    let words: Vec<&str> = field.split(' ').collect(alloc)?;
    Ok(Scopes::among(words.as_slice()))
}

/// The field at this position, from 0; `-` if it is missing.
pub fn field<'a>(fields: &[&'a str], place: usize) -> &'a str {
    match fields.get(place) {
        Some(field) => *field,
        None => "-",
    }
}

/// The number in a field, or 0 if there is none.
pub fn number(field: &str) -> u32 {
    field.parse::<u32>().unwrap_or(0)
}

/// The word with the field as its text.
pub fn word_in(field: &str) -> Option<Word> {
    Word::read(field.as_bytes())
}

/// The same, or word number 0 if the field is not the text of a word.
pub fn word_of(field: &str) -> Word {
    word_in(field).unwrap_or(word(0))
}

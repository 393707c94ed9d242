// Texts, bytes, moments, and words with their texts.

use case_lines::{as_text, bytes, given_texts, in_32, moment, told, told_hex, told_texts};
use sso_base::{Blob, Moment, NoMemory, Text, Word, is_live, texts_bytes};
use std::alloc::Global;

/// The answer of a call of this module.
pub fn answer(alloc: Global, fields: &[&str]) -> Result<String, NoMemory> {
    match fields {
        ["text", text] => copied_text(alloc, text),
        ["texts", texts] => copied_texts(alloc, texts),
        ["equals", text, other] => equals(alloc, text, other),
        ["is only", texts, text] => is_only(alloc, texts, text),
        ["has", texts, text] => has(alloc, texts, text),
        ["at", texts, place] => text_at(alloc, texts, place),
        ["bytes", field] => copied_bytes(alloc, field),
        ["moment", field] => seconds(alloc, field),
        ["live", life, begun, at] => live(alloc, life, begun, at),
        ["word", field] => word_text(alloc, field),
        ["read word", text] => read_word(alloc, text),
        _ => told(alloc, "no such call"),
    }
}

// `text|TEXT`: the text, a copy of it, and the text of a string.
fn copied_text(alloc: Global, text: &str) -> Result<String, NoMemory> {
    let taken = Text::from_string(String::from_str(alloc, text)?);
    let text = Text::new(alloc, text)?;
    let copied = text.copy(alloc)?;
    let (text, copied, taken) = (text.as_str(), copied.as_str(), taken.as_str());
    Ok(format!(in alloc; "{text}, {copied}, {taken}")?)
}

// `texts|TEXT,TEXT`: how many texts the list has, their bytes, and the texts of a copy.
fn copied_texts(alloc: Global, texts: &str) -> Result<String, NoMemory> {
    let mut texts = given_texts(alloc, texts, ',')?;
    texts.shrink_to_fit();
    let copied = told_texts(alloc, &texts.copy(alloc)?)?;
    let (count, bytes) = (texts.count(), texts_bytes(&texts));
    Ok(format!(in alloc; "{count}, {bytes} bytes: {copied}")?)
}

// `has|TEXT,TEXT|TEXT`: whether the text is one of these.
fn has(alloc: Global, texts: &str, text: &str) -> Result<String, NoMemory> {
    let has = given_texts(alloc, texts, ',')?.has(text);
    Ok(format!(in alloc; "{has}")?)
}

// `at|TEXT,TEXT|PLACE`: the text at this place, from 0.
fn text_at(alloc: Global, texts: &str, place: &str) -> Result<String, NoMemory> {
    let texts = given_texts(alloc, texts, ',')?;
    match place.parse::<usize>().ok() {
        Some(place) if place < texts.count() => Ok(format!(in alloc; "{:?}", texts.at(place))?),
        _ => told(alloc, "no text"),
    }
}

// `equals|TEXT|OTHER`: whether two texts are equal.
fn equals(alloc: Global, text: &str, other: &str) -> Result<String, NoMemory> {
    let equals = Text::new(alloc, text)?.equals(other);
    Ok(format!(in alloc; "{equals}")?)
}

// `is only|TEXT,TEXT|TEXT`: whether there are texts, and all are this one.
fn is_only(alloc: Global, texts: &str, text: &str) -> Result<String, NoMemory> {
    let is_only = given_texts(alloc, texts, ',')?.is_only(text);
    Ok(format!(in alloc; "{is_only}")?)
}

// `bytes|BYTES`: the bytes, a copy of them, and those of a vector, in hex.
fn copied_bytes(alloc: Global, field: &str) -> Result<String, NoMemory> {
    let taken = Blob::from_vec(bytes(alloc, field)?);
    let blob = Blob::new(alloc, taken.as_bytes())?;
    let copied = told_hex(alloc, blob.copy(alloc)?.as_bytes())?;
    let (blob, taken) = (
        told_hex(alloc, blob.as_bytes())?,
        told_hex(alloc, taken.as_bytes())?,
    );
    Ok(format!(in alloc; "{blob}, {copied}, {taken}")?)
}

// `moment|SECONDS`: the seconds of the moment.
fn seconds(alloc: Global, field: &str) -> Result<String, NoMemory> {
    match moment(field) {
        Some(moment) => Ok(format!(in alloc; "{}", moment.seconds())?),
        None => told(alloc, "no moment"),
    }
}

// `live|LIFE|BEGUN|AT`: whether something with a lifetime of LIFE seconds from one moment on is live at another.
fn live(alloc: Global, life: &str, begun: &str, at: &str) -> Result<String, NoMemory> {
    match (life.parse::<u32>().ok(), moment(begun), moment(at)) {
        (Some(life), Some(begun), Some(at)) => {
            let live = is_live(life, begun, at);
            Ok(format!(in alloc; "{live}")?)
        }
        _ => told(alloc, "no moments"),
    }
}

// The word of these bytes.
fn word_of(bytes: &[u8]) -> Option<Word> {
    in_32(bytes).map(Word::new)
}

// `word|BYTES`: the text of the word, and a copy of it.
fn word_text(alloc: Global, field: &str) -> Result<String, NoMemory> {
    let Some(word) = word_of(bytes(alloc, field)?.as_slice()) else {
        return told(alloc, "no word");
    };
    let copied = word.to_text(alloc)?;
    let text = word.text();
    Ok(format!(in alloc; "{}, {}", as_text(&text), copied.as_str())?)
}

// `read word|TEXT`: the bytes of the word with this text, in hex.
fn read_word(alloc: Global, text: &str) -> Result<String, NoMemory> {
    match Word::read(text.as_bytes()) {
        Some(word) => told_hex(alloc, &word.bytes()),
        None => told(alloc, "no word"),
    }
}

// Claim sets that are read and queried.

use case_lines::{
    bytes, claim_refusal, told, told_bytes, told_number, told_refusal, told_text, told_texts,
    told_truth,
};
use claim_set::{ClaimNo, ClaimSet, read_claims, write_claims};
use sso_base::{NoMemory, Text, Texts};
use std::alloc::Global;

/// The answer of a call of this module; none if the call is another module's.
pub fn answer(alloc: Global, fields: &[&str]) -> Option<Result<String, NoMemory>> {
    match fields {
        ["claims", text] => Some(read(alloc, text)),
        ["depth", text] => Some(depth(alloc, text)),
        ["claim", kind, set, name] => Some(claim(alloc, kind, set, name)),
        ["has", set, name] => Some(has(alloc, set, name)),
        ["copy without", set, name] => Some(copy_without(alloc, set, name)),
        _ => None,
    }
}

/// The claim set of a field; `-` is the empty one.
pub fn set_of(alloc: Global, field: &str) -> Result<Result<ClaimSet, ClaimNo>, NoMemory> {
    if field == "-" {
        return Ok(Ok(ClaimSet::new(alloc)));
    }
    let text = bytes(alloc, field)?;
    Ok(read_claims(alloc, text.as_slice()))
}

/// A refusal.
pub fn refused(alloc: Global, why: &ClaimNo) -> Result<String, NoMemory> {
    told_refusal(alloc, claim_refusal(why))
}

/// The text of the claim set.
pub fn written(alloc: Global, set: &ClaimSet) -> Result<String, NoMemory> {
    let blob = write_claims(set)?;
    told_bytes(alloc, blob.as_bytes())
}

fn told_set(alloc: Global, read: &Result<ClaimSet, ClaimNo>) -> Result<String, NoMemory> {
    match read {
        Ok(set) => written(alloc, set),
        Err(why) => refused(alloc, why),
    }
}

// `claims|TEXT`: the claim set of the text, written again.
fn read(alloc: Global, text: &str) -> Result<String, NoMemory> {
    let read = set_of(alloc, text)?;
    told_set(alloc, &read)
}

// The depth of nesting of the set, and whether it is written as this text.
fn told_depth(alloc: Global, set: &ClaimSet, text: &[u8]) -> Result<String, NoMemory> {
    let blob = write_claims(set)?;
    let back = if blob.as_bytes() == text {
        "the same text"
    } else {
        "another text"
    };
    Ok(format!(in alloc; "{}, written as {back}", set.depth())?)
}

// `depth|TEXT`: the depth of nesting of the claim set.
fn depth(alloc: Global, field: &str) -> Result<String, NoMemory> {
    let text = bytes(alloc, field)?;
    let read = read_claims(alloc, text.as_slice());
    match &read {
        Ok(set) => told_depth(alloc, set, text.as_slice()),
        Err(why) => refused(alloc, why),
    }
}

fn claim_text(alloc: Global, found: &Result<Option<Text>, ClaimNo>) -> Result<String, NoMemory> {
    match found {
        Ok(text) => told_text(alloc, text),
        Err(why) => refused(alloc, why),
    }
}

fn claim_number(alloc: Global, found: &Result<Option<u64>, ClaimNo>) -> Result<String, NoMemory> {
    match found {
        Ok(number) => told_number(alloc, *number),
        Err(why) => refused(alloc, why),
    }
}

fn claim_flag(alloc: Global, found: &Result<Option<bool>, ClaimNo>) -> Result<String, NoMemory> {
    match found {
        Ok(Some(flag)) => told_truth(alloc, *flag),
        Ok(None) => told(alloc, "-"),
        Err(why) => refused(alloc, why),
    }
}

fn claim_texts(alloc: Global, found: &Result<Option<Texts>, ClaimNo>) -> Result<String, NoMemory> {
    match found {
        Ok(Some(texts)) => {
            let list = told_texts(alloc, texts)?;
            Ok(format!(in alloc; "{}: {list}", texts.count())?)
        }
        Ok(None) => told(alloc, "-"),
        Err(why) => refused(alloc, why),
    }
}

fn claim_set(alloc: Global, found: &Result<Option<ClaimSet>, ClaimNo>) -> Result<String, NoMemory> {
    match found {
        Ok(Some(set)) => written(alloc, set),
        Ok(None) => told(alloc, "-"),
        Err(why) => refused(alloc, why),
    }
}

fn claim_in(alloc: Global, kind: &str, set: &ClaimSet, name: &str) -> Result<String, NoMemory> {
    match kind {
        "text" => claim_text(alloc, &set.text(name)),
        "number" => claim_number(alloc, &set.number(name)),
        "flag" => claim_flag(alloc, &set.flag(name)),
        "texts" => claim_texts(alloc, &set.texts(name)),
        "set" => claim_set(alloc, &set.member(name)),
        _ => told(alloc, "no such kind"),
    }
}

// `claim|KIND|SET|NAME`: the claim with this name.
fn claim(alloc: Global, kind: &str, set: &str, name: &str) -> Result<String, NoMemory> {
    let read = set_of(alloc, set)?;
    match &read {
        Ok(set) => claim_in(alloc, kind, set, name),
        Err(why) => refused(alloc, why),
    }
}

// `has|SET|NAME`: whether there is a claim with this name.
fn has(alloc: Global, set: &str, name: &str) -> Result<String, NoMemory> {
    let read = set_of(alloc, set)?;
    match &read {
        Ok(set) => told_truth(alloc, set.has(name)),
        Err(why) => refused(alloc, why),
    }
}

// A copy without the name, as text.
fn less(alloc: Global, set: &ClaimSet, name: &str) -> Result<String, NoMemory> {
    let mut copied = set.copy()?;
    copied.remove(name);
    written(alloc, &copied)
}

// A copy without the name, and the original.
fn less_and_whole(alloc: Global, set: &ClaimSet, name: &str) -> Result<String, NoMemory> {
    let less = less(alloc, set, name)?;
    let whole = written(alloc, set)?;
    Ok(format!(in alloc; "{less} of {whole}")?)
}

// `copy without|SET|NAME`: a copy from which the name is removed, and the original after that.
fn copy_without(alloc: Global, set: &str, name: &str) -> Result<String, NoMemory> {
    let read = set_of(alloc, set)?;
    match &read {
        Ok(set) => less_and_whole(alloc, set, name),
        Err(why) => refused(alloc, why),
    }
}

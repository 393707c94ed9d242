// The parameters of authorization requests.

use case_lines::{or_else, push_part, told, told_quoted, told_refusal};
use request_params::{
    ALL_NAMES, AskNo, ParamName, Params, merge, print_request, read_request, with_fragment,
    with_query,
};
use sso_base::{NoMemory, Text};
use std::alloc::Global;

// The name of a refusal, and the parameter that it names.
fn refusal(why: &AskNo) -> (&str, &str) {
    match why {
        AskNo::Twice(name) => ("Twice", name.as_str()),
        AskNo::Differs(name) => ("Differs", name.as_str()),
        AskNo::OuterScope => ("OuterScope", ""),
        AskNo::NoMemory => ("NoMemory", ""),
    }
}

// Adds a parameter, if it is present.
fn push_param(
    alloc: Global,
    text: &mut String,
    name: ParamName,
    value: &Option<Text>,
) -> Result<(), NoMemory> {
    if let Some(value) = value {
        push_part(text, " ", name.as_str())?;
        push_part(text, " ", told_quoted(alloc, value.as_str())?.as_str())?;
    }
    Ok(())
}

// The parameters that are present.
fn parameters(alloc: Global, params: &Params) -> Result<String, NoMemory> {
    let mut text = String::new(alloc);
    for name in &ALL_NAMES {
        push_param(alloc, &mut text, *name, params.get(*name))?;
    }
    or_else(text, "-")
}

fn told_params(alloc: Global, answer: &Result<Params, AskNo>) -> Result<String, NoMemory> {
    match answer {
        Ok(params) => parameters(alloc, params),
        Err(why) => told_refusal(alloc, refusal(why)),
    }
}

/// `form|FORM`: the parameters in a form, or why it is refused.
pub fn form(alloc: Global, form: &str) -> Result<String, NoMemory> {
    let bytes = case_lines::bytes(alloc, form)?;
    let answer = read_request(alloc, bytes.as_slice());
    told_params(alloc, &answer)
}

// Sets the parameter `NAME=VALUE`. A name without a value removes it.
fn set_pair(alloc: Global, params: &mut Params, pair: &str) -> Result<(), NoMemory> {
    let (name, value) = match pair.split_once('=') {
        Some((name, value)) => (name, Some(Text::new(alloc, value)?)),
        None => (pair, None),
    };
    if let Some(name) = ParamName::read(name) {
        params.set(name, value);
    }
    Ok(())
}

/// Sets these parameters, which are separated by the text `between`. They have no escapes.
pub fn set_pairs(
    alloc: Global,
    params: &mut Params,
    pairs: &str,
    between: &str,
) -> Result<(), NoMemory> {
    for pair in pairs.split(between) {
        set_pair(alloc, params, pair)?;
    }
    Ok(())
}

/// These parameters, which are separated by the text `between`.
pub fn params_of(alloc: Global, pairs: &str, between: &str) -> Result<Params, NoMemory> {
    let mut params = Params::new();
    set_pairs(alloc, &mut params, pairs, between)?;
    Ok(params)
}

// The parameters of a request object, which replace those outside it.
fn merged(alloc: Global, outer: &Params, pairs: &str) -> Result<String, NoMemory> {
    let inner = params_of(alloc, pairs, "&")?;
    let answer = merge(alloc, outer, &inner);
    told_params(alloc, &answer)
}

/// `merge|FORM|PAIRS`: the parameters of a request object, as `NAME=VALUE` without escapes, which replace those of the form
/// outside it.
pub fn merge_forms(alloc: Global, outer: &str, inner: &str) -> Result<String, NoMemory> {
    match read_request(alloc, outer.as_bytes()) {
        Ok(outer) => merged(alloc, &outer, inner),
        Err(_) => told(alloc, "no form"),
    }
}

fn written(alloc: Global, endpoint: &str, params: &Params) -> Result<String, NoMemory> {
    let location = print_request(alloc, &Text::new(alloc, endpoint)?, params)?;
    told(alloc, location.as_str())
}

/// `location|ENDPOINT|FORM`: the location of the request with the parameters of a form.
pub fn location(alloc: Global, endpoint: &str, form: &str) -> Result<String, NoMemory> {
    match read_request(alloc, form.as_bytes()) {
        Ok(params) => written(alloc, endpoint, &params),
        Err(_) => told(alloc, "no form"),
    }
}

// The names and values of pairs.
fn names_and_values(alloc: Global, pairs: &str) -> Result<Vec<(&str, &str)>, NoMemory> {
    let mut split = Vec::new(alloc);
    for pair in pairs.split('&') {
        split.push(pair.split_once('=').unwrap_or((pair, "")))?;
    }
    Ok(split)
}

/// `query|URL|PAIRS`: the URL with these pairs in its query.
pub fn query(alloc: Global, url: &str, pairs: &str) -> Result<String, NoMemory> {
    let pairs = names_and_values(alloc, pairs)?;
    let location = with_query(alloc, &Text::new(alloc, url)?, pairs.as_slice())?;
    told(alloc, location.as_str())
}

/// `fragment|URL|PAIRS`: the URL with these pairs as its fragment.
pub fn fragment(alloc: Global, url: &str, pairs: &str) -> Result<String, NoMemory> {
    let pairs = names_and_values(alloc, pairs)?;
    let location = with_fragment(alloc, &Text::new(alloc, url)?, pairs.as_slice())?;
    told(alloc, location.as_str())
}

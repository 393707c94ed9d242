// A request that is given part by part.

ghost use Rattle.std.specs.Prelude.{◌≡◌, ◌++◌, [], option_map, unwrap_or, IfOk};
ghost use Rattle.web_requests.specs.Raw as spec;

use crate::sent::{Sent, under_number};
use sso_base::{Ask, Blob, Method, NoMemory, Text, Word, split_target};
use sso_places::To;
use std::alloc::Global;

// Joins three texts.
fn joined(alloc: Global, front: &str, mark: &str, back: &str) -> Result<Text, NoMemory>
    ensures { IfOk result (λ t. t ≡ front.now ++ mark.now ++ back.now) }
{
    let mut text = String::from_str(alloc, front)?;
    text.push_str(mark)?;
    text.push_str(back)?;
    Ok(Text::from_string(text))
}

// The text with a space in place of the first colon.
#[tactic(auto, using(crate::proofs::Colons::spaced_joined, crate::proofs::Colons::spaced_whole))]
fn spaced(alloc: Global, text: &str) -> Result<Text, NoMemory>
    ensures { IfOk result (λ t. t ≡ spec.spaced text.now) }
{
    match text.split_once(':') {
        Some((scheme, rest)) => joined(alloc, scheme, " ", rest),
        None => Text::new(alloc, text),
    }
}

fn spaced_if(alloc: Global, auth: &Option<Text>) -> Result<Option<Text>, NoMemory>
    ensures { IfOk result (λ o. o ≡ option_map spec.spaced auth.now) }
{
    match auth {
        Some(auth) => Ok(Some(spaced(alloc, auth.as_str())?)),
        None => Ok(None),
    }
}

fn body_of(alloc: Global, body: &Option<Text>) -> Result<Option<Blob>, NoMemory>
    ensures { IfOk result (λ o. o ≡ body.now) }
{
    match body {
        Some(body) => Ok(Some(Blob::new(alloc, body.as_str().as_bytes())?)),
        None => Ok(None),
    }
}

fn text_or_empty(text: &Option<Text>) -> &str
    ensures { result.now ≡ unwrap_or text.now [] }
{
    match text {
        Some(text) => text.as_str(),
        None => "",
    }
}

fn raw_ask(
    alloc: Global,
    method: Method,
    target: &str,
    first: Option<Word>,
    second: Option<Word>,
    auth: &Option<Text>,
    body: &Option<Text>,
) -> Result<Ask, NoMemory>
    ensures { IfOk result (λ a. a ≡ spec.raw_ask method target.now first second auth.now body.now) }
{
    let (path, query) = split_target(target);
    Ok(Ask {
        method,
        path: Text::new(alloc, path)?,
        query: Blob::new(alloc, query.as_bytes())?,
        body: body_of(alloc, body)?,
        first,
        second,
        auth: spaced_if(alloc, auth)?,
    })
}

/// A request to a role that is given part by part: its sender's number and its method. It may have a target, two cookies
/// (`first` the browser's, `second` the session's), an `Authorization` header and a body.
///
/// The target is split into path and query at its first `?` (RFC 9112, 3.2.1); an absent one is empty. The first colon of the
/// header becomes a space. The body is that of a form. No part is checked here.
#[tactic(auto, unfolding(crate::specs::Raw::raw_sent))]
pub fn raw_sent(
    alloc: Global,
    from: u32,
    to: &To,
    method: Method,
    target: &Option<Text>,
    first: Option<Word>,
    second: Option<Word>,
    auth: &Option<Text>,
    body: &Option<Text>,
) -> Result<Sent, NoMemory>
    ensures { IfOk result (λ s. s ≡ spec.raw_sent from to.now method target.now first second auth.now body.now) }
{
    let ask = raw_ask(
        alloc,
        method,
        text_or_empty(target),
        first,
        second,
        auth,
        body,
    )?;
    Ok(under_number(from, *to, ask))
}

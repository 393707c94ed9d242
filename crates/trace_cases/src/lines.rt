// Prints lines: the name of the line, and its parts.

use sso_base::{Method, NoMemory, Text};
use sso_places::To;
use std::alloc::Global;
use trace_lines::{Line, Shown};

fn push_to(alloc: Global, text: &mut String, to: To) -> Result<(), NoMemory> {
    match to {
        To::Provider => Ok(text.push_str(" to=op")?),
        To::Party(number) => {
            let part = format!(in alloc; " to={number}")?;
            Ok(text.push_str(part.as_str())?)
        }
    }
}

fn method(method: Method) -> &'static str {
    match method {
        Method::Get => " method=Get",
        Method::Post => " method=Post",
        Method::Other => " method=Other",
    }
}

fn push_part(text: &mut String, name: &str, part: &Option<Text>) -> Result<(), NoMemory> {
    if let Some(part) = part {
        text.push_str(name)?;
        text.push_str(part.as_str())?;
    }
    Ok(())
}

fn push_cookie(
    alloc: Global,
    text: &mut String,
    name: &str,
    cookie: &Shown,
) -> Result<(), NoMemory> {
    match cookie {
        Shown::Absent => Ok(()),
        Shown::Jar => {
            text.push_str(name)?;
            Ok(text.push_str("jar")?)
        }
        Shown::Given(word) => {
            text.push_str(name)?;
            Ok(text.push_str(word.to_text(alloc)?.as_str())?)
        }
    }
}

// Adds the request of a line `raw`, without the absent parts.
fn push_raw(alloc: Global, text: &mut String, line: &Line) -> Result<(), NoMemory> {
    let Line::Raw {
        from,
        to,
        method: kind,
        target,
        first,
        second,
        auth,
        body,
    } = line
    else {
        return Ok(());
    };
    let head = format!(in alloc; "raw from={from}")?;
    text.push_str(head.as_str())?;
    push_to(alloc, text, *to)?;
    text.push_str(method(*kind))?;
    push_part(text, " target=", target)?;
    push_cookie(alloc, text, " first=", first)?;
    push_cookie(alloc, text, " second=", second)?;
    push_part(text, " auth=", auth)?;
    push_part(text, " body=", body)
}

// A line with texts, but without a request.
fn texts(alloc: Global, line: &Line) -> Result<Option<String>, NoMemory> {
    let text = match line {
        Line::Mix {
            from,
            place,
            name,
            other,
        } => {
            let name = name.as_str();
            format!(in alloc; "mix from={from} place={place} name={name} other={other}")?
        }
        Line::Forge { from, place, user } => {
            let user = user.as_str();
            format!(in alloc; "forge from={from} place={place} user={user}")?
        }
        Line::Login {
            from,
            place,
            user,
            password,
        } => {
            let (user, password) = (user.as_str(), password.as_str());
            format!(in alloc; "login from={from} place={place} user={user} password={password}")?
        }
        _ => return Ok(None),
    };
    Ok(Some(text))
}

// A line without texts.
fn plain(alloc: Global, line: &Line) -> Result<Option<String>, NoMemory> {
    let text = match line {
        Line::At(moment) => {
            let seconds = moment.seconds();
            format!(in alloc; "at {seconds}")?
        }
        Line::Steal { thief, owner } => format!(in alloc; "steal thief={thief} owner={owner}")?,
        Line::Show { place } => format!(in alloc; "show place={place}")?,
        Line::Begin { from, party } => format!(in alloc; "begin from={from} party={party}")?,
        Line::Follow { from, place } => format!(in alloc; "follow from={from} place={place}")?,
        Line::Consent { from, place, agree } => {
            format!(in alloc; "consent from={from} place={place} agree={agree}")?
        }
        Line::Visit { from, party } => format!(in alloc; "visit from={from} party={party}")?,
        Line::Leave { from, party } => format!(in alloc; "leave from={from} party={party}")?,
        Line::SignOut { from } => format!(in alloc; "signout from={from}")?,
        Line::Carry { place, message } => {
            format!(in alloc; "carry place={place} message={message}")?
        }
        Line::Back { place, answer } => format!(in alloc; "back place={place} answer={answer}")?,
        _ => return Ok(None),
    };
    Ok(Some(text))
}

/// Adds a line.
pub fn push_line(alloc: Global, text: &mut String, line: &Line) -> Result<(), NoMemory> {
    if let Some(said) = plain(alloc, line)? {
        return Ok(text.push_str(said.as_str())?);
    }
    match texts(alloc, line)? {
        Some(said) => Ok(text.push_str(said.as_str())?),
        None => push_raw(alloc, text, line),
    }
}

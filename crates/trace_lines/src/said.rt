// Parses a line.

ghost use Rattle.std.specs.Prelude.{◌≡◌, ◌∷◌, [], map, IfOk};
ghost use Rattle.client_registry.specs.Configuration.{Configuration};
ghost use Rattle.trace_lines.specs.Said as spec;

use crate::line::Line;
use crate::values::{
    cookie_of, method_of, part_of, read_browser, read_choice, read_message, read_moment,
    read_party, read_place, read_role, read_sender,
};
use crate::verb::Verb;
use client_registry::Registry;
use sso_base::{NoMemory, Text};
use std::alloc::Global;

fn mix(
    alloc: Global,
    from: &str,
    place: &str,
    name: &str,
    other: &str,
) -> Result<Option<Line>, NoMemory>
    ensures { IfOk result (λ said. said ≡ spec.mix_said from.now place.now name.now other.now) }
{
    let (Some(from), Some(place), Some(other)) = (
        read_browser(from),
        read_place(place),
        read_place(other),
    ) else {
        return Ok(None);
    };
    let name = Text::new(alloc, name)?;
    Ok(Some(Line::Mix {
        from,
        place,
        name,
        other,
    }))
}

fn forge(alloc: Global, from: &str, place: &str, user: &str) -> Result<Option<Line>, NoMemory>
    ensures { IfOk result (λ said. said ≡ spec.forge_said from.now place.now user.now) }
{
    let (Some(from), Some(place)) = (read_browser(from), read_place(place)) else {
        return Ok(None);
    };
    let user = Text::new(alloc, user)?;
    Ok(Some(Line::Forge { from, place, user }))
}

fn login(
    alloc: Global,
    from: &str,
    place: &str,
    user: &str,
    password: &str,
) -> Result<Option<Line>, NoMemory>
    ensures { IfOk result (λ said. said ≡ spec.login_said from.now place.now user.now password.now) }
{
    let (Some(from), Some(place)) = (read_browser(from), read_place(place)) else {
        return Ok(None);
    };
    let user = Text::new(alloc, user)?;
    let password = Text::new(alloc, password)?;
    Ok(Some(Line::Login {
        from,
        place,
        user,
        password,
    }))
}

fn consent(from: &str, place: &str, choice: &str) -> Option<Line>
    ensures { result ≡ spec.consent_said from.now place.now choice.now }
{
    Some(Line::Consent {
        from: read_browser(from)?,
        place: read_place(place)?,
        agree: read_choice(choice)?,
    })
}

fn request(
    alloc: Global,
    registry: &Registry,
    from: &str,
    to: &str,
    parts: &[&str],
) -> Result<Option<Line>, NoMemory>
    ensures { IfOk result (λ said. said ≡ spec.request_said registry.now from.now to.now (map (λ w. w.now) parts.now)) }
{
    let (Some(from), Some(to)) = (read_sender(from), read_role(registry, to)) else {
        return Ok(None);
    };
    let [method, target, first, second, auth, body] = parts else {
        return Ok(None);
    };
    Ok(Some(Line::Raw {
        from,
        to,
        method: method_of(method),
        target: part_of(alloc, target)?,
        first: cookie_of(first),
        second: cookie_of(second),
        auth: part_of(alloc, auth)?,
        body: part_of(alloc, body)?,
    }))
}

fn raw(alloc: Global, registry: &Registry, words: &[&str]) -> Result<Option<Line>, NoMemory>
    ensures { IfOk result (λ said. said ≡ spec.raw_said registry.now (map (λ w. w.now) words.now)) }
{
    match words {
        [from, to, parts @ ..] => request(alloc, registry, from, to, parts),
        _ => Ok(None),
    }
}

// Parses a line with one further word.
fn one_word(verb: Verb, word: &str) -> Option<Line>
    ensures { (c : Configuration) → result ≡ spec.short_said c verb (word.now ∷ []) }
{
    match verb {
        Verb::At => Some(Line::At(read_moment(word)?)),
        Verb::Show => Some(Line::Show {
            place: read_place(word)?,
        }),
        Verb::SignOut => Some(Line::SignOut {
            from: read_browser(word)?,
        }),
        _ => None,
    }
}

// Parses a line with two further words.
fn two_words(registry: &Registry, verb: Verb, word: &str, other: &str) -> Option<Line>
    ensures { result ≡ spec.short_said registry.now verb (word.now ∷ other.now ∷ []) }
{
    match verb {
        Verb::Steal => Some(Line::Steal {
            thief: read_browser(word)?,
            owner: read_browser(other)?,
        }),
        Verb::Begin => Some(Line::Begin {
            from: read_browser(word)?,
            party: read_party(registry, other)?,
        }),
        Verb::Follow => Some(Line::Follow {
            from: read_browser(word)?,
            place: read_place(other)?,
        }),
        Verb::Visit => Some(Line::Visit {
            from: read_browser(word)?,
            party: read_party(registry, other)?,
        }),
        Verb::Leave => Some(Line::Leave {
            from: read_browser(word)?,
            party: read_party(registry, other)?,
        }),
        Verb::Carry => Some(Line::Carry {
            place: read_place(word)?,
            message: read_message(other)?,
        }),
        Verb::Back => Some(Line::Back {
            place: read_place(word)?,
            answer: read_place(other)?,
        }),
        _ => None,
    }
}

// Parses a line with three further words.
fn three_words(
    alloc: Global,
    verb: Verb,
    from: &str,
    place: &str,
    last: &str,
) -> Result<Option<Line>, NoMemory>
    ensures { (c : Configuration) → IfOk result (λ said. said ≡ spec.short_said c verb (from.now ∷ place.now ∷ last.now ∷ [])) }
{
    match verb {
        Verb::Forge => forge(alloc, from, place, last),
        Verb::Consent => Ok(consent(from, place, last)),
        _ => Ok(None),
    }
}

// Parses a line with four further words.
fn four_words(
    alloc: Global,
    verb: Verb,
    from: &str,
    place: &str,
    third: &str,
    last: &str,
) -> Result<Option<Line>, NoMemory>
    ensures { (c : Configuration) → IfOk result (λ said. said ≡ spec.short_said c verb (from.now ∷ place.now ∷ third.now ∷ last.now ∷ [])) }
{
    match verb {
        Verb::Mix => mix(alloc, from, place, third, last),
        Verb::Login => login(alloc, from, place, third, last),
        _ => Ok(None),
    }
}

// Parses the words of a line that is not `raw`.
fn read_short(
    alloc: Global,
    registry: &Registry,
    verb: Verb,
    words: &[&str],
) -> Result<Option<Line>, NoMemory>
    ensures { IfOk result (λ said. said ≡ spec.short_said registry.now verb (map (λ w. w.now) words.now)) }
{
    if words.len() == 1 {
        return Ok(one_word(verb, words[0]));
    }
    if words.len() == 2 {
        return Ok(two_words(registry, verb, words[0], words[1]));
    }
    if words.len() == 3 {
        return three_words(alloc, verb, words[0], words[1], words[2]);
    }
    if words.len() == 4 {
        return four_words(alloc, verb, words[0], words[1], words[2], words[3]);
    }
    Ok(None)
}

// Parses the words after the first one. `None` if one of them can't be read, or there are more or fewer.
pub(crate) fn read_said(
    alloc: Global,
    registry: &Registry,
    verb: Verb,
    words: &[&str],
) -> Result<Option<Line>, NoMemory>
    ensures { IfOk result (λ said. said ≡ spec.verb_said registry.now verb (map (λ w. w.now) words.now)) }
{
    match verb {
        Verb::Raw => raw(alloc, registry, words),
        _ => read_short(alloc, registry, verb, words),
    }
}

// Verifies authorization requests (OpenID Connect Core 1.0, 3.1.2.2).

use crate::requests::parameters::{params_of, set_pairs};
use auth_request::{PageNo, Verdict, Wish, judge};
use case_lines::{flagged, told, told_scopes, told_words, written};
use client_registry::Registry;
use oidc_words::{Refusal, error_text};
use request_params::Params;
use sso_base::{NoMemory, Text, Texts};
use std::alloc::Global;

// The request that the cases change.
const GOOD: &str =
    "client_id=shop-client&redirect_uri=http://127.0.0.1:8081/cb&response_type=code&scope=openid&state=s";

fn push(text: &mut String, name: &str, value: &str) -> Result<(), NoMemory> {
    text.push_str(name)?;
    text.push_str(value)?;
    Ok(())
}

// Adds a value after its name, if there is one.
fn push_value(text: &mut String, name: &str, value: &Option<Text>) -> Result<(), NoMemory> {
    match value {
        Some(value) => push(text, name, value.as_str()),
        None => Ok(()),
    }
}

fn push_texts(alloc: Global, text: &mut String, name: &str, texts: &Texts) -> Result<(), NoMemory> {
    push(text, name, told_words(alloc, texts)?.as_str())
}

fn push_types(alloc: Global, text: &mut String, wish: &Wish) -> Result<(), NoMemory> {
    let types = &wish.types;
    let words = flagged(
        alloc,
        &[
            (types.code, "code"),
            (types.id_token, "id_token"),
            (types.token, "token"),
        ],
        " ",
        "-",
    )?;
    push(text, "grant ", words.as_str())
}

fn push_prompt(alloc: Global, text: &mut String, wish: &Wish) -> Result<(), NoMemory> {
    let words = flagged(
        alloc,
        &[
            (wish.none, "none"),
            (wish.login, "login"),
            (wish.consent, "consent"),
        ],
        " ",
        "-",
    )?;
    if words.as_str() != "-" {
        push(text, ", prompt ", words.as_str())?;
    }
    Ok(())
}

// The response type, scope and other words of an accepted request, and the subjects that it names.
fn push_wish(alloc: Global, text: &mut String, wish: &Wish) -> Result<(), NoMemory> {
    push_types(alloc, text, wish)?;
    push(text, ", scope ", told_scopes(alloc, wish.scopes)?.as_str())?;
    push_prompt(alloc, text, wish)?;
    match &wish.subs {
        Some(subs) => push_texts(alloc, text, ", for ", subs),
        None => Ok(()),
    }
}

// The other parts of an accepted request.
fn push_details(alloc: Global, text: &mut String, wish: &Wish) -> Result<(), NoMemory> {
    push(text, ", client ", wish.client.to_string(alloc)?.as_str())?;
    push(text, " at ", wish.redirect.as_str())?;
    push_value(text, ", state ", &wish.state)?;
    push_value(text, ", nonce ", &wish.nonce)?;
    if let Some(age) = wish.max_age {
        push(text, ", age ", age.to_string(alloc)?.as_str())?;
    }
    push_texts(alloc, text, ", asks ", &wish.id_asked)?;
    push_texts(alloc, text, " and ", &wish.info_asked)
}

fn told_wish(alloc: Global, wish: &Wish, is_whole: bool) -> Result<String, NoMemory> {
    let mut text = String::new(alloc);
    push_wish(alloc, &mut text, wish)?;
    if is_whole {
        push_details(alloc, &mut text, wish)?;
    }
    Ok(text)
}

fn told_refusal(alloc: Global, refusal: &Refusal, is_whole: bool) -> Result<String, NoMemory> {
    let mut text = told(alloc, error_text(refusal.code))?;
    let part = if refusal.fragment {
        "fragment"
    } else {
        "query"
    };
    push(&mut text, " in the ", part)?;
    if is_whole {
        push(&mut text, " of ", refusal.redirect.as_str())?;
        push_value(&mut text, ", state ", &refusal.state)?;
    }
    Ok(text)
}

fn page(page: PageNo) -> &'static str {
    match page {
        PageNo::Client => "page Client",
        PageNo::Redirect => "page Redirect",
        _ => "another page",
    }
}

// The result, printed from a copy.
fn told_verdict(alloc: Global, verdict: &Verdict, is_whole: bool) -> Result<String, NoMemory> {
    match verdict {
        Verdict::Page(why) => told(alloc, page(*why)),
        Verdict::Refuse(refusal) => told_refusal(alloc, &refusal.copy(alloc)?, is_whole),
        Verdict::Grant(wish) => told_wish(alloc, &wish.copy(alloc)?, is_whole),
    }
}

// The parameters of the good request with changes.
fn changed(alloc: Global, changes: &str) -> Result<Params, NoMemory> {
    let mut params = params_of(alloc, GOOD, "&")?;
    set_pairs(alloc, &mut params, changes, "&")?;
    Ok(params)
}

/// The verification of the good request with changes. Its request object is refused if `object=refused` is among them.
pub fn judged(alloc: Global, registry: &Registry, changes: &str) -> Result<Verdict, NoMemory> {
    let changes = written(alloc, changes)?;
    let params = changed(alloc, changes.as_str())?;
    judge(alloc, registry, &params, changes.contains("object=refused"))
}

/// `judge|CHANGES`: the verification of the good request with these changes. The result is a page, an error and where it is
/// sent, or an accepted request with its words and subjects.
pub fn judge_short(alloc: Global, registry: &Registry, changes: &str) -> Result<String, NoMemory> {
    let verdict = judged(alloc, registry, changes)?;
    told_verdict(alloc, &verdict, false)
}

/// `judge_whole|CHANGES`: the same with all parts of the result, and the claims that are requested in the ID Token and from the
/// UserInfo endpoint.
pub fn judge_whole(alloc: Global, registry: &Registry, changes: &str) -> Result<String, NoMemory> {
    let verdict = judged(alloc, registry, changes)?;
    told_verdict(alloc, &verdict, true)
}

// Requests that post the form of a page.

ghost use Rattle.std.specs.Prelude.{◌≡◌, IfOk};
ghost use Rattle.request_params.specs.Form.{form_text};
ghost use Rattle.web_requests.specs.Posting as spec;

use crate::following::provider_path;
use crate::sent::{Sent, posted, under_number};
use client_registry::Registry;
use form_urlencoded::Serializer;
use oidc_words::{CONSENT_PATH, LOGIN_PATH};
use op_exchange::{AGREE_FIELD, AGREE_VALUE, OpReply, PASSWORD_FIELD, TURN_FIELD, USER_FIELD};
use sso_base::{Blob, NoMemory, Word};
use sso_places::{Jar, To, WorldReply};
use std::alloc::Global;

// The value of the button that refuses.
const REFUSE_VALUE: &str = "no";

// The turn of a login page.
fn login_turn(reply: &WorldReply) -> Option<Word>
    ensures { result ≡ spec.login_turn reply.now }
{
    match reply {
        WorldReply::Provider(OpReply::LoginPage { turn, .. }) => Some(*turn),
        _ => None,
    }
}

// The turn of a consent page.
fn consent_turn(reply: &WorldReply) -> Option<Word>
    ensures { result ≡ spec.consent_turn reply.now }
{
    match reply {
        WorldReply::Provider(OpReply::ConsentPage { turn, .. }) => Some(*turn),
        _ => None,
    }
}

// The form of a login page, filled in.
#[tactic(auto, unfolding(request_params::specs::Form::form_text))]
fn login_form(alloc: Global, turn: &Word, user: &str, password: &str) -> Result<Blob, NoMemory>
    ensures { IfOk result (λ b. b ≡ form_text (spec.login_form turn.now user.now password.now)) }
{
    let turn = turn.to_text(alloc)?;
    let mut form = Serializer::new(String::new(alloc));
    form.append_pair(TURN_FIELD, turn.as_str())?;
    form.append_pair(USER_FIELD, user)?;
    form.append_pair(PASSWORD_FIELD, password)?;
    Ok(Blob::from_vec(form.finish().into_bytes()))
}

// The value of the button in the consent form.
fn said(agree: bool) -> &'static str
    ensures { result.now ≡ spec.said agree }
{
    if agree { AGREE_VALUE } else { REFUSE_VALUE }
}

// The form of a consent page, filled in.
#[tactic(auto, unfolding(request_params::specs::Form::form_text))]
fn consent_form(alloc: Global, turn: &Word, agree: bool) -> Result<Blob, NoMemory>
    ensures { IfOk result (λ b. b ≡ form_text (spec.consent_form turn.now agree)) }
{
    let turn = turn.to_text(alloc)?;
    let mut form = Serializer::new(String::new(alloc));
    form.append_pair(TURN_FIELD, turn.as_str())?;
    form.append_pair(AGREE_FIELD, said(agree))?;
    Ok(Blob::from_vec(form.finish().into_bytes()))
}

/// The request with which a browser posts the login form of a reply, with this user and this password, and with its cookies for
/// the provider (OpenID Connect Core 1.0, 3.1.2.3). `None` if the reply is not a login page.
#[tactic(auto, unfolding(crate::specs::Posting::login_posted))]
pub fn login_posted(
    alloc: Global,
    registry: &Registry,
    from: u32,
    reply: &WorldReply,
    user: &str,
    password: &str,
    jar: &Jar,
) -> Result<Option<Sent>, NoMemory>
    ensures { IfOk result (λ o. o ≡ spec.login_posted registry.now from reply.now user.now password.now jar.now) }
{
    let Some(turn) = login_turn(reply) else {
        return Ok(None);
    };
    let path = provider_path(alloc, registry, LOGIN_PATH)?;
    let form = login_form(alloc, &turn, user, password)?;
    let ask = posted(alloc, path, Some(form), jar);
    Ok(Some(under_number(from, To::Provider, ask)))
}

/// The request with which a browser posts the consent form of a reply, by the button that agrees or the one that refuses, and
/// with its cookies for the provider (OpenID Connect Core 1.0, 3.1.2.4). `None` if the reply is not a consent page.
#[tactic(auto, unfolding(crate::specs::Posting::consent_posted))]
pub fn consent_posted(
    alloc: Global,
    registry: &Registry,
    from: u32,
    reply: &WorldReply,
    agree: bool,
    jar: &Jar,
) -> Result<Option<Sent>, NoMemory>
    ensures { IfOk result (λ o. o ≡ spec.consent_posted registry.now from reply.now agree jar.now) }
{
    let Some(turn) = consent_turn(reply) else {
        return Ok(None);
    };
    let path = provider_path(alloc, registry, CONSENT_PATH)?;
    let form = consent_form(alloc, &turn, agree)?;
    let ask = posted(alloc, path, Some(form), jar);
    Ok(Some(under_number(from, To::Provider, ask)))
}

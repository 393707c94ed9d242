// The messages of a sign-out (OpenID Connect Back-Channel Logout 1.0, 2.3 and 2.5).

ghost use Rattle.std.specs.Prelude.{◌≡◌, ◌<◌, ◌++◌, length, IfOk, OnOk};
ghost use Rattle.request_params.specs.Form.{form_text};
ghost use Rattle.op_issue.specs.LogoutMessages as spec;

use crate::logout_tokens::logout_token_for;
use crate::sign_out::SignOut;
use client_registry::{ClientSet, Registry};
use form_urlencoded::Serializer;
use sso_base::{Blob, Message, Messages, NoMemory, Text};
use std::alloc::Global;

// The body of a logout request.
#[tactic(auto, unfolding(request_params::specs::Form::form_text))]
fn logout_form(alloc: Global, token: &Text) -> Result<Blob, NoMemory>
    ensures { IfOk result (λ b. b ≡ form_text (spec.logout_pairs token.now)) }
{
    let mut form = Serializer::new(String::new(alloc));
    form.append_pair("logout_token", token.as_str())?;
    Ok(Blob::from_vec(form.finish().into_bytes()))
}

// The message to a client at its logout URI.
fn message_to(
    alloc: Global,
    registry: &Registry,
    client: u32,
    out: &SignOut,
    uri: &Text,
) -> Result<Message, NoMemory>
    requires client { client < length registry.now.clients }
    requires user { out.now.who.user < length registry.now.users }
    ensures { IfOk result (λ m. m ≡ spec.logout_message registry.now out.now client uri.now) }
{
    let token = logout_token_for(alloc, registry, client, out)?;
    Ok(Message {
        to: uri.copy(alloc)?,
        auth: None,
        body: Some(logout_form(alloc, &token)?),
    })
}

// Adds the message to a client with this logout URI, if the session has logged in to the client.
fn push_message(
    alloc: Global,
    messages: &mut Messages,
    registry: &Registry,
    client: u32,
    out: &SignOut,
    answered: bool,
    uri: &Option<Text>,
) -> Result<(), NoMemory>
    requires client { client < length registry.now.clients }
    requires user { out.now.who.user < length registry.now.users }
    ensures { OnOk result (messages.new ≡ messages.old ++ spec.message_if registry.now out.now client answered uri.now) }
{
    match uri {
        Some(uri) if answered => messages.push(message_to(alloc, registry, client, out, uri)?),
        _ => Ok(()),
    }
}

// Adds the messages to all clients that the session has logged in to.
fn push_messages(
    alloc: Global,
    messages: &mut Messages,
    registry: &Registry,
    out: &SignOut,
    answered: &ClientSet,
) -> Result<(), NoMemory>
    requires { out.now.who.user < length registry.now.users }
    ensures { OnOk result (messages.new ≡ messages.old ++ spec.messages_from registry.now out.now answered.now 0 registry.now.clients) }
{
    for client in 0..registry.clients() {
        let uri = &registry.client(client).logout;
        push_message(
            alloc,
            messages,
            registry,
            client,
            out,
            answered.has(client),
            uri,
        )?;
    }
    Ok(())
}

/// The messages of a sign-out: one to each client that the session has logged in to and that has a logout URI, in the order of
/// the registry (OpenID Connect Back-Channel Logout 1.0, 2.3). Each is a POST to the logout URI with the client's logout token
/// as `logout_token` (2.5).
///
/// The user is in the registry. Numbers without a client are ignored.
#[tactic(auto, unfolding(crate::specs::LogoutMessages::logout_messages))]
pub fn logout_messages(
    alloc: Global,
    registry: &Registry,
    out: &SignOut,
    answered: &ClientSet,
) -> Result<Messages, NoMemory>
    requires { out.now.who.user < length registry.now.users }
    ensures { IfOk result (λ m. m ≡ spec.logout_messages registry.now out.now answered.now) }
{
    let mut messages = Messages::new(alloc);
    push_messages(alloc, &mut messages, registry, out, answered)?;
    Ok(messages)
}

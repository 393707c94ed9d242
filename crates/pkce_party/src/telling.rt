// A reply in HTTP, and the message that is sent after it.

ghost use Rattle.std.specs.Prelude.{◌≡◌, ◌++◌, ◌<◌, length, option_map, IfOk};
ghost use Rattle.pkce_party.specs.Telling as spec;

use crate::key_text::KeyText;
use crate::reply::PartyReply;
use client_registry::Registry;
use core_stack::Sending;
use http_reply::concatenated;
use rp_exchange::RpReply;
use rp_response::rp_http;
use sso_base::{Blob, HttpReply, Message, NoMemory, Text, copied_text};
use std::alloc::Global;

// ---- the challenge in the location of an authorization request (RFC 7636, 4.3)

fn location_with(alloc: Global, to: &Text, challenge: &KeyText) -> Result<Text, NoMemory>
    ensures { IfOk result (λ t. t ≡ spec.challenge_added challenge.now to.now) }
{
    let pieces = [
        to.as_str(),
        "&code_challenge=",
        challenge.as_str(),
        "&code_challenge_method=S256",
    ];
    Ok(Text::from_string(pieces.concat(alloc)?))
}

fn location_if(
    alloc: Global,
    location: &Option<Text>,
    challenge: &KeyText,
) -> Result<Option<Text>, NoMemory>
    ensures { IfOk result (λ o. o ≡ option_map (spec.challenge_added challenge.now) location.now) }
{
    match location {
        Some(to) => Ok(Some(location_with(alloc, to, challenge)?)),
        None => Ok(None),
    }
}

// A reply whose location has the challenge, if there is one.
fn challenged(
    alloc: Global,
    mut http: HttpReply,
    challenge: &Option<KeyText>,
) -> Result<HttpReply, NoMemory>
    ensures { IfOk result (λ h. h ≡ spec.challenged challenge.now http) }
{
    let Some(challenge) = challenge else {
        return Ok(http);
    };
    let location = location_if(alloc, &http.location, challenge)?;
    http.location = location;
    Ok(http)
}

/// The HTTP reply for this reply of the party with this number in the registry: that of the party inside (`rp_http`). The location
/// of an authorization request also has the parameters `code_challenge`, if there is a challenge, and `code_challenge_method`,
/// which is `S256` (RFC 7636, 4.3).
///
/// The party's number must be below the number of the registry's parties.
pub fn party_http(
    alloc: Global,
    registry: &Registry,
    party: u32,
    reply: &PartyReply,
) -> Result<HttpReply, NoMemory>
    requires { party < length registry.now.parties }
    ensures { IfOk result (λ h. h ≡ spec.party_http registry.now party reply.now) }
{
    let http = rp_http(alloc, registry, party, &reply.inner)?;
    challenged(alloc, http, &reply.challenge)
}

// ---- the verifier in the body of a token request (RFC 7636, 4.5)

// A form with one more parameter.
fn form_with(alloc: Global, form: &[u8], parameter: &Text) -> Result<Blob, NoMemory>
    ensures { IfOk result (λ b. b ≡ form.now ++ parameter.now) }
{
    let mut bytes = Vec::from_slice(alloc, form)?;
    bytes.extend_from_slice(parameter.as_str().as_bytes())?;
    Ok(Blob::from_vec(bytes))
}

fn body_with(alloc: Global, body: &Blob, verifier: &KeyText) -> Result<Blob, NoMemory>
    ensures { IfOk result (λ b. b ≡ spec.verifier_added verifier.now body.now) }
{
    let parameter = concatenated(alloc, "&code_verifier=", verifier.as_str())?;
    form_with(alloc, body.as_bytes(), &parameter)
}

fn body_if(alloc: Global, body: &Option<Blob>, verifier: &KeyText) -> Result<Option<Blob>, NoMemory>
    ensures { IfOk result (λ o. o ≡ option_map (spec.verifier_added verifier.now) body.now) }
{
    match body {
        Some(body) => Ok(Some(body_with(alloc, body, verifier)?)),
        None => Ok(None),
    }
}

// A message whose body has the verifier, if there is one.
fn verified(
    alloc: Global,
    message: &Message,
    verifier: &Option<KeyText>,
) -> Result<Message, NoMemory>
    ensures { IfOk result (λ m. m ≡ spec.verified verifier.now message.now) }
{
    match verifier {
        Some(verifier) => Ok(Message {
            to: message.to.copy(alloc)?,
            auth: copied_text(alloc, &message.auth)?,
            body: body_if(alloc, &message.body, verifier)?,
        }),
        None => message.copy(alloc),
    }
}

/// The message to send after a reply: that of the party inside. The body of a token request also has the parameter
/// `code_verifier`, if there is a verifier (RFC 7636, 4.5).
pub fn party_message(alloc: Global, reply: &PartyReply) -> Result<Option<Sending>, NoMemory>
    ensures { IfOk result (λ sending. sending ≡ spec.party_sending reply.now) }
{
    match &reply.inner {
        RpReply::Exchange { pending, message } | RpReply::Fetch { pending, message } => {
            Ok(Some(Sending {
                pending: *pending,
                message: verified(alloc, message, &reply.verifier)?,
            }))
        }
        _ => Ok(None),
    }
}

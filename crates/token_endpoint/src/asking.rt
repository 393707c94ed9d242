// Writing a token request.

ghost use Rattle.std.specs.Prelude.{◌≡◌, IfOk};
ghost use Rattle.request_params.specs.Form.{form_text};
ghost use Rattle.token_endpoint.specs.Request.{grant_pairs, token_message};

use crate::basic::print_basic;
use client_registry::Client;
use form_urlencoded::Serializer;
use sso_base::{Blob, Message, NoMemory, Text};
use std::alloc::Global;

// The body of a token request.
#[tactic(auto, unfolding(request_params::specs::Form::form_text))]
fn grant_form(alloc: Global, code: &Text, redirect: &Text) -> Result<Blob, NoMemory>
    ensures { IfOk result (λ b. b ≡ form_text (grant_pairs code.now redirect.now)) }
{
    let mut form = Serializer::new(String::new(alloc));
    form.append_pair("grant_type", "authorization_code")?;
    form.append_pair("code", code.as_str())?;
    form.append_pair("redirect_uri", redirect.as_str())?;
    Ok(Blob::from_vec(form.finish().into_bytes()))
}

/// A client's token request for a code (RFC 6749, 4.1.3; OpenID Connect Core 1.0, 3.1.3.1). It is a POST to the endpoint, with
/// the client's id and secret by HTTP Basic (RFC 6749, 2.3.1). Its body has `grant_type`, `code` and `redirect_uri`.
#[tactic(auto, unfolding(crate::specs::Request::token_message))]
pub fn print_grant(
    alloc: Global,
    client: &Client,
    endpoint: &Text,
    code: &Text,
    redirect: &Text,
) -> Result<Message, NoMemory>
    ensures { IfOk result (λ m. m ≡ token_message client.now endpoint.now code.now redirect.now) }
{
    Ok(Message {
        to: endpoint.copy(alloc)?,
        auth: Some(print_basic(alloc, client)?),
        body: Some(grant_form(alloc, code, redirect)?),
    })
}

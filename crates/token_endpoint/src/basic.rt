// HTTP Basic: a client's id and secret in an `Authorization` header, read and written (RFC 7617, 2; RFC 6749, 2.3.1).

ghost use Rattle.std.specs.Prelude.{◌≡◌, IfOk, option_map, string_bytes};
ghost use Rattle.form_urlencoded.specs.Form.{byte_serialize};
ghost use Rattle.request_params.specs.Form.{text_of};
ghost use Rattle.token_endpoint.specs.Base64.{unb64};
ghost use Rattle.token_endpoint.specs.Basic.{is_basic_scheme, basic_header as basic_header_of, divided as divided_of, basic_read, basic_auth};

use base64::DecodeAllocError;
use base64::engine::general_purpose::STANDARD;
use client_registry::Client;
use form_urlencoded::{Serializer, decode};
use request_params::{scheme_of, split_once};
use sso_base::{NoMemory, Text};
use std::alloc::Global;

/// The credentials of a client: its id and a secret.
#[derive(Drop)]
pub(crate) struct Credentials {
    pub(crate) id: Text,
    pub(crate) secret: Text,
}

// Whether the scheme is `Basic`, in any case (RFC 9110, 11.1).
fn is_basic(scheme: &[u8]) -> bool
    ensures { result ≡ is_basic_scheme scheme.now }
{
    scheme.eq_ignore_ascii_case(b"basic")
}

/// The header, if its scheme is `Basic`.
pub(crate) fn basic_header(auth: Option<&[u8]>) -> Option<&[u8]>
    ensures { option_map (λ h. h.now) result ≡ basic_header_of (option_map (λ h. h.now) auth.entry) }
{
    let header = auth?;
    if is_basic(scheme_of(header)) {
        Some(header)
    } else {
        None
    }
}

// The text whose form encoding this is (the URL Standard, 5.1).
fn decoded(alloc: Global, bytes: &[u8]) -> Result<Text, NoMemory>
    ensures { IfOk result (λ t. t ≡ text_of bytes.now) }
{
    Ok(Text::from_string(decode(alloc, bytes)?.into_owned(alloc)?))
}

// The bytes that a text encodes in base64.
fn spelled(alloc: Global, text: &[u8]) -> Result<Option<Vec<u8>>, NoMemory>
    ensures { IfOk result (λ o. option_map (λ v. v.items) o ≡ unb64 text.now) }
{
    match STANDARD.decode(alloc, text) {
        Ok(bytes) => Ok(Some(bytes)),
        Err(DecodeAllocError::DecodeError(_)) => Ok(None),
        Err(DecodeAllocError::OutOfMemory) => Err(NoMemory),
    }
}

// The id and the secret in bytes, separated by the first colon.
fn divided(alloc: Global, bytes: &[u8]) -> Result<Option<Credentials>, NoMemory>
    ensures { IfOk result (λ o. o ≡ divided_of bytes.now) }
{
    let Some((id, secret)) = split_once(bytes, b':') else {
        return Ok(None);
    };
    Ok(Some(Credentials {
        id: decoded(alloc, id)?,
        secret: decoded(alloc, secret)?,
    }))
}

/// The id and the secret in a header of the scheme `Basic`; `None` if they cannot be read.
#[tactic(auto, unfolding(crate::specs::Basic::basic_read))]
pub(crate) fn read_basic(alloc: Global, header: &[u8]) -> Result<Option<Credentials>, NoMemory>
    ensures { IfOk result (λ o. o ≡ basic_read header.now) }
{
    let Some((_scheme, text)) = split_once(header, b' ') else {
        return Ok(None);
    };
    match spelled(alloc, text)? {
        Some(bytes) => divided(alloc, &bytes),
        None => Ok(None),
    }
}

// The form encoding of the text (the URL Standard, 5.2).
fn encoded(alloc: Global, text: &Text) -> Result<String, NoMemory>
    ensures { IfOk result (λ s. string_bytes s ≡ byte_serialize text.now) }
{
    let mut form = Serializer::new(String::new(alloc));
    form.append_key_only(text.as_str())?;
    Ok(form.finish())
}

/// The header with a client's id and the secret that it seals with.
#[tactic(auto, unfolding(crate::specs::Basic::basic_auth, crate::specs::Base64::b64))]
pub(crate) fn print_basic(alloc: Global, client: &Client) -> Result<Text, NoMemory>
    ensures { IfOk result (λ t. t ≡ basic_auth client.now) }
{
    let mut shown = encoded(alloc, &client.id)?;
    shown.push_str(":")?;
    shown.push_str(encoded(alloc, client.sealing())?.as_str())?;
    let mut header = String::from_str(alloc, "Basic ")?;
    STANDARD.encode_string(shown.as_bytes(), &mut header)?;
    Ok(Text::from_string(header))
}

// Reading a logout request as a value of `RpAsk` (OpenID Connect Back-Channel Logout 1.0, 2.5).

ghost use Rattle.std.specs.Prelude.{◌≡◌, IfOk, length, filter};
ghost use Rattle.std.specs.Option.{option_copied};
ghost use Rattle.std.specs.Str.{bytes_eq};
ghost use Rattle.sso_base.specs.Words.{Text};
ghost use Rattle.request_params.specs.Form.{posted as posted_form};
ghost use Rattle.rp_request.specs.Opened.{logout_read_for};
ghost use Rattle.rp_request.specs.Prepared as spec;

use client_keys::opening_key;
use client_registry::Client;
use logout_token::{LogoutClaims, LogoutNo, read_logout};
use request_params::{Pair, posted, read_pairs, value_of};
use rp_exchange::RpAsk;
use sso_base::{Ask, NoMemory, Text};
use std::alloc::Global;

// The name of the field with the logout token.
const LOGOUT_TOKEN: &str = "logout_token";

// How many fields have the name.
fn count(fields: &[Pair], name: &str) -> usize
    ensures { result ≡ length (filter (λ (field : Text × Text). bytes_eq field.0 name.now) fields.now) }
{
    let mut count = 0;
    for field in fields {
        if field.0.as_str() == name {
            count += 1;
        }
    }
    count
}

// The value of the field with this name, if exactly one has it.
fn only_value<'a>(fields: &'a [Pair], name: &str) -> Option<&'a Text>
    ensures { option_copied result ≡ spec.only_value name.now fields.now }
{
    if count(fields, name) > 1 {
        return None;
    }
    value_of(fields, name)
}

// The logout token of a form; the empty text if there is none, or more than one.
fn logout_token_in(alloc: Global, form: &[u8]) -> Result<Text, NoMemory>
    ensures { IfOk result (λ t. t ≡ spec.logout_token_in form.now) }
{
    let fields = read_pairs(alloc, form)?;
    match only_value(&fields, LOGOUT_TOKEN) {
        Some(token) => token.copy(alloc),
        None => Text::new(alloc, ""),
    }
}

/// The logout token of a logout request; the empty text if its form has none, or more than one.
pub fn logout_token_of(alloc: Global, ask: &Ask) -> Result<Text, NoMemory>
    ensures { IfOk result (λ t. t ≡ spec.logout_token_in (posted_form ask.now.body)) }
{
    logout_token_in(alloc, posted(&ask.body))
}

// The claims of a logout token of the client, or why it is rejected.
fn read_as_logout(
    alloc: Global,
    client: &Client,
    text: &Text,
) -> Result<Result<LogoutClaims, LogoutNo>, NoMemory>
    ensures { IfOk result (λ claims. claims ≡ logout_read_for client.now text.now) }
{
    let text = text.as_str().as_bytes();
    let key = opening_key(alloc, client, text)?;
    match read_logout(alloc, key.as_str().as_bytes(), text) {
        Err(LogoutNo::NoMemory) => Err(NoMemory),
        claims => Ok(claims),
    }
}

// The value for a logout request, from its form.
pub(crate) fn logout_asked(alloc: Global, client: &Client, form: &[u8]) -> Result<RpAsk, NoMemory>
    ensures { IfOk result (λ asked. asked ≡ spec.logout_asked client.now form.now) }
{
    let token = logout_token_in(alloc, form)?;
    let claims = read_as_logout(alloc, client, &token)?;
    Ok(RpAsk::Logout { claims })
}

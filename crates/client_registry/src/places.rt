// The first index, counted from 0, of a name or a value.

ghost use Rattle.std.specs.Prelude.{◌≡◌, ◌<◌, length, IfSome};
ghost use Rattle.sso_base.specs.Texts.{has_text};
ghost use Rattle.client_registry.specs.Rules as spec;
ghost use Rattle.client_registry.specs.Secrets as secrets;

use crate::records::{Client, Party, User};
use sso_base::Text;

pub(crate) fn user_place(users: &[User], id: &[u8]) -> Option<usize>
    ensures value { result ≡ spec.user_place id.now users.now }
    ensures within { IfSome result (λ place. place < length users.now) }
{
    for (place, user) in users.iter().enumerate() {
        if user.id.as_str().as_bytes() == id {
            return Some(place);
        }
    }
    None
}

fn is_old(text: &str, old: &Option<Text>) -> bool
    ensures { result ≡ secrets.is_old text.now old.now }
{
    match old {
        Some(old) => old.as_str() == text,
        None => false,
    }
}

// The first client with this secret, as its secret or its old one.
pub(crate) fn secret_place(clients: &[Client], secret: &str) -> Option<usize>
    ensures { result ≡ spec.secret_place secret.now clients.now }
{
    for (place, client) in clients.iter().enumerate() {
        if client.secret.as_str() == secret || is_old(secret, &client.old_secret) {
            return Some(place);
        }
    }
    None
}

// The first client with this redirect URI.
pub(crate) fn redirect_place(clients: &[Client], uri: &str) -> Option<usize>
    ensures value { result ≡ spec.redirect_place uri.now clients.now }
    ensures within { IfSome result (λ place. place < length clients.now) }
{
    for (place, client) in clients.iter().enumerate() {
        if client.redirects.has(uri) {
            return Some(place);
        }
    }
    None
}

pub(crate) fn party_place(parties: &[Party], name: &[u8]) -> Option<usize>
    ensures value { result ≡ spec.party_place name.now parties.now }
    ensures within { IfSome result (λ place. place < length parties.now) }
{
    for (place, party) in parties.iter().enumerate() {
        if party.name.as_str().as_bytes() == name {
            return Some(place);
        }
    }
    None
}

// The first party that uses the client with this number.
pub(crate) fn use_place(parties: &[Party], client: u32) -> Option<usize>
    ensures { result ≡ spec.use_place client parties.now }
{
    for (place, party) in parties.iter().enumerate() {
        if party.client == client {
            return Some(place);
        }
    }
    None
}

// Whether the value at an index also occurs earlier. `first` is its first index.
pub(crate) fn is_again(place: usize, first: Option<usize>) -> bool
    ensures { result ≡ spec.is_again place first }
{
    match first {
        Some(first) => first != place,
        None => true,
    }
}

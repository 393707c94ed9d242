// Reading a request to a relying party, a token response or a UserInfo response as a value of `RpAsk`.

ghost use Rattle.std.specs.Prelude.{◌≡◌, ◌<◌, length, IfOk, option_map};
ghost use Rattle.std.specs.Option.{option_copied};
ghost use Rattle.auth_answer.specs.Reading.{answer_read};
ghost use Rattle.client_registry.specs.Numbers.{party_row, party_client};
ghost use Rattle.rp_request.specs.Opened.{id_read_for};
ghost use Rattle.rp_request.specs.Prepared as spec;

use crate::logout::logout_asked;
use crate::routes::{Endpoint, endpoint_asked};
use auth_answer::{AnswerNo, read_answer};
use client_keys::opening_key;
use client_registry::{Client, Registry};
use id_token::{IdClaims, IdNo, read_id};
use oidc_words::Types;
use request_params::{form_of, posted};
use rp_exchange::RpAsk;
use sso_base::{Answered, Ask, Method, NoMemory, Text, Word};
use std::alloc::Global;
use token_endpoint::{TokensNo, read_tokens};
use userinfo::{InfoNo, read_info};

// The claims of an ID Token, or why it is rejected.
type IdRead = Result<IdClaims, IdNo>;

// The party's client.
fn client_of(registry: &Registry, party: u32) -> &Client
    requires { party < length registry.now.parties }
    ensures { result.now ≡ party_client registry.now party }
{
    // The contract of `parties` states the invariant of every registry: the client of each of its parties exists.
    let _parties = registry.parties();
    let number = registry.party(party).client;
    registry.client(number)
}

// The response type of the party's requests.
#[tactic(auto, using(crate::proofs::Parties::row_there))]
fn types_of(registry: &Registry, party: u32) -> &Types
    requires { party < length registry.now.parties }
    ensures { result.now ≡ (party_row registry.now party).types }
{
    &registry.party(party).types
}

// The path of the logout URI of the party's client, if it has one.
fn logout_path<'a>(client: &'a Client) -> Option<&'a Text>
    ensures { option_copied result ≡ spec.logout_path_of client.now }
{
    match &client.logout_url {
        Some(url) => Some(&url.path),
        None => None,
    }
}

// The endpoint of a request.
#[tactic(auto, using(crate::proofs::Parties::known_client))]
fn endpoint_of(registry: &Registry, party: u32, ask: &Ask) -> Option<Endpoint>
    requires { party < length registry.now.parties }
    ensures { result ≡ spec.endpoint_at registry.now party ask.now }
{
    // The contract of `parties` states the invariant of every registry: the client of each of its parties exists.
    let _parties = registry.parties();
    let row = registry.party(party);
    let logout = logout_path(registry.client(row.client));
    endpoint_asked(&row.redirect_url.path, logout, ask)
}

// Reads an ID Token of the client.
fn read_as_id(alloc: Global, client: &Client, text: &Text) -> Result<IdRead, NoMemory>
    ensures { IfOk result (λ id. id ≡ id_read_for client.now text.now) }
{
    let text = text.as_str().as_bytes();
    let key = opening_key(alloc, client, text)?;
    match read_id(alloc, key.as_str().as_bytes(), text) {
        Err(IdNo::NoMemory) => Err(NoMemory),
        id => Ok(id),
    }
}

// Reads an ID Token, if there is one.
fn read_if_there(
    alloc: Global,
    client: &Client,
    text: &Option<Text>,
) -> Result<Option<IdRead>, NoMemory>
    ensures { IfOk result (λ id. id ≡ option_map (id_read_for client.now) text.now) }
{
    match text {
        Some(text) => Ok(Some(read_as_id(alloc, client, text)?)),
        None => Ok(None),
    }
}

// Whether the fragment page is requested.
fn wants_page(types: &Types, ask: &Ask) -> bool
    ensures { result ≡ spec.wants_page types.now ask.now }
{
    matches!(ask.method, Method::Get) && ask.query.as_bytes().is_empty() && types.is_in_fragment()
}

// The value for an authorization response, from its form (OpenID Connect Core 1.0, 3.1.2.5 and 3.2.2.5).
fn callback(
    alloc: Global,
    client: &Client,
    browser: Option<Word>,
    form: &[u8],
) -> Result<RpAsk, NoMemory>
    ensures { IfOk result (λ asked. asked ≡ spec.callback_asked client.now browser (answer_read form.now)) }
{
    let heard = match read_answer(alloc, form) {
        Ok(heard) => heard,
        Err(AnswerNo::NoMemory) => return Err(NoMemory),
        Err(why) => {
            return Ok(RpAsk::Callback {
                heard: Err(why),
                id: None,
                browser,
            });
        }
    };
    let id = read_if_there(alloc, client, &heard.id)?;
    Ok(RpAsk::Callback {
        heard: Ok(heard),
        id,
        browser,
    })
}

// A request to the redirect URI: for the fragment page, or with an authorization response.
fn redirected(alloc: Global, client: &Client, types: &Types, ask: &Ask) -> Result<RpAsk, NoMemory>
    ensures { IfOk result (λ asked. asked ≡ spec.redirected client.now types.now ask.now) }
{
    if wants_page(types, ask) {
        return Ok(RpAsk::Fragment);
    }
    callback(alloc, client, ask.first, form_of(ask))
}

/// Reads a request to the relying party with this number in the registry, as an [`RpAsk`]. `first` of the request is the
/// browser's cookie and `second` the session's.
///
/// | Request | Result |
/// |---|---|
/// | GET `/login` | [`RpAsk::Begin`] |
/// | GET of the path of the redirect URI with an empty query, if the response is in the fragment | [`RpAsk::Fragment`] |
/// | other GET or POST of that path | [`RpAsk::Callback`], from the query or the posted form |
/// | GET `/` | [`RpAsk::Visit`] |
/// | POST `/leave` | [`RpAsk::Leave`] |
/// | POST of the path of the logout URI of the party's client | [`RpAsk::Logout`], from the posted form |
///
/// Any other request, also one with another method, is [`RpAsk::NotHere`]. An absent form is empty.
///
/// The parts of an authorization response are read as in `read_answer`, and an ID Token in it as in `read_id`, under the secret
/// of the party's client that opens it ([`opening_key`]). Whether it is for this login at this moment is verified later (OpenID
/// Connect Core 1.0, 3.1.3.7). The `logout_token` of a logout request is read as in `read_logout`, under the secret that opens
/// it. If there is none, or more than one, the empty text is read (OpenID Connect Back-Channel Logout 1.0, 2.5).
#[tactic(auto, unfolding(crate::specs::Prepared::prepared))]
pub fn prepare_rp(
    alloc: Global,
    registry: &Registry,
    party: u32,
    ask: &Ask,
) -> Result<RpAsk, NoMemory>
    requires { party < length registry.now.parties }
    ensures { IfOk result (λ asked. asked ≡ spec.prepared registry.now party ask.now) }
{
    let Some(endpoint) = endpoint_of(registry, party, ask) else {
        return Ok(RpAsk::NotHere);
    };
    let client = client_of(registry, party);
    match endpoint {
        Endpoint::Login => Ok(RpAsk::Begin { browser: ask.first }),
        Endpoint::Home => Ok(RpAsk::Visit {
            session: ask.second,
        }),
        Endpoint::Redirection => redirected(alloc, client, types_of(registry, party), ask),
        Endpoint::Leave => Ok(RpAsk::Leave {
            session: ask.second,
        }),
        Endpoint::Logout => logout_asked(alloc, client, posted(&ask.body)),
    }
}

/// Reads a token response to the relying party with this number, in the exchange that is waiting for it under the word
/// `pending` (OpenID Connect Core 1.0, 3.1.3.3).
///
/// Returns [`RpAsk::Tokens`] of that word, with the tokens as in `read_tokens`, and their ID Token as in `read_id`, under the
/// secret of the party's client that opens it. If the response is rejected, no ID Token is read.
///
/// The precondition is that of [`prepare_rp`].
#[tactic(auto, unfolding(crate::specs::Prepared::tokens_prepared))]
pub fn prepare_tokens(
    alloc: Global,
    registry: &Registry,
    party: u32,
    pending: Word,
    answer: &Answered,
) -> Result<RpAsk, NoMemory>
    requires { party < length registry.now.parties }
    ensures { IfOk result (λ asked. asked ≡ spec.tokens_prepared registry.now party pending answer.now) }
{
    let tokens = match read_tokens(alloc, answer) {
        Ok(tokens) => tokens,
        Err(TokensNo::NoMemory) => return Err(NoMemory),
        Err(why) => {
            return Ok(RpAsk::Tokens {
                pending,
                tokens: Err(why),
                id: None,
            });
        }
    };
    let id = read_as_id(alloc, client_of(registry, party), &tokens.id)?;
    Ok(RpAsk::Tokens {
        pending,
        tokens: Ok(tokens),
        id: Some(id),
    })
}

/// Reads a UserInfo response to a relying party, in the exchange that is waiting for it under the word `pending` (OpenID
/// Connect Core 1.0, 5.3.2).
///
/// Returns [`RpAsk::Info`] of that word, with the subject as in `read_info`.
#[tactic(auto, unfolding(crate::specs::Prepared::info_prepared))]
pub fn prepare_info(alloc: Global, pending: Word, answer: &Answered) -> Result<RpAsk, NoMemory>
    ensures { IfOk result (λ asked. asked ≡ spec.info_prepared pending answer.now) }
{
    match read_info(alloc, answer) {
        Err(InfoNo::NoMemory) => Err(NoMemory),
        sub => Ok(RpAsk::Info { pending, sub }),
    }
}

// The records of a configuration's rows.

ghost use Rattle.std.specs.Prelude.{◌≡◌, ◌<◌, ◌^◌, map, length, codes, unwrap_or, option_copied, IfOk, IfSome};
ghost use Rattle.toml.specs.View.{view};
ghost use Rattle.claim_set.specs.Fitting.{ClaimsFit};
ghost use Rattle.client_registry.specs.Registered.{HoldsClaims, AllHoldClaims};
ghost use Rattle.client_registry.specs.Records as spec;

use crate::records::{Client, Party, PartySettings, Provider, Settings, User};
use claim_set::{ClaimSet, write_claims};
use configuration_rows::claims::claims_of;
use configuration_rows::party_rules::{has_type, response_texts};
use configuration_rows::server_keys::host_cookies;
use configuration_rows::values::{
    flag_at, hex_at, natural_at, text_at, text_or, texts_at, url_at, url_of,
};
use configuration_rows::version::Version;
use oidc_words::{AUTHORIZE_PATH, OPENID, TOKEN_PATH, Types, USERINFO_PATH, number_of_type};
use registered_url::{WebUrl, WebUrls};
use sso_base::{Blob, NoMemory, Text, Texts};
use std::alloc::Global;
use toml::Value;

// The text without its last slash; a backslash is one.
pub(crate) fn without_slash(text: &str) -> &str
    ensures { result.now ≡ spec.without_slash text.now }
{
    match text.strip_suffix('/') {
        Some(front) => front,
        None => match text.strip_suffix('\\') {
            Some(front) => front,
            None => text,
        },
    }
}

/// The endpoint at a path below an issuer, which is written without its last slash.
pub fn endpoint(alloc: Global, issuer: &str, path: &str) -> Result<Text, NoMemory>
    ensures { IfOk result (λ t. t ≡ spec.endpoint issuer.now path.now) }
{
    let mut text = String::from_str(alloc, without_slash(issuer))?;
    text.push_str(path)?;
    Ok(Text::from_string(text))
}

// The provider with this issuer.
pub(crate) fn provider_of(alloc: Global, issuer: &str) -> Result<Provider, NoMemory>
    ensures { IfOk result (λ p. p ≡ spec.provider_of issuer.now) }
{
    Ok(Provider {
        issuer: Text::new(alloc, issuer)?,
        authorize: endpoint(alloc, issuer, AUTHORIZE_PATH)?,
        token: endpoint(alloc, issuer, TOKEN_PATH)?,
        userinfo: Some(endpoint(alloc, issuer, USERINFO_PATH)?),
    })
}

fn no_url(alloc: Global) -> Result<WebUrl, NoMemory>
    ensures { IfOk result (λ u. u ≡ spec.no_url) }
{
    Ok(WebUrl {
        secure: false,
        host: Text::new(alloc, "")?,
        port: 0,
        path: Text::new(alloc, "")?,
        query: None,
    })
}

// The URL, or else an empty one.
fn url_or_none(alloc: Global, url: Option<WebUrl>) -> Result<WebUrl, NoMemory>
    ensures { IfOk result (λ u. u ≡ unwrap_or url spec.no_url) }
{
    match url {
        Some(url) => Ok(url),
        None => no_url(alloc),
    }
}

// The URL at a key, or else an empty one.
pub(crate) fn url_in(alloc: Global, row: &Value, key: &str) -> Result<WebUrl, NoMemory>
    ensures { IfOk result (λ u. u ≡ spec.url_or_none key.now (view row.now)) }
{
    let url = url_at(alloc, row, key)?;
    url_or_none(alloc, url)
}

fn rounds_of(number: Option<u64>) -> u32
    ensures { result ≡ spec.rounds_of number }
{
    match number {
        Some(number) if number <= 1_000_000 => number as u32,
        _ => 0,
    }
}

fn proof_of(bytes: &[u8]) -> [u8; 32]
    ensures { result ≡ spec.proof_of bytes.now }
{
    let mut proof = [0; 32];
    if bytes.len() == 32 {
        proof.copy_from_slice(bytes);
    }
    proof
}

// The claims of a user, or else none.
#[tactic(auto, using(configuration_rows::proofs::FittingClaims::none_fits))]
fn user_claims(alloc: Global, row: &Value) -> Result<ClaimSet, NoMemory>
    ensures value { IfOk result (λ c. c ≡ spec.user_claims (view row.now)) }
    ensures fits { IfOk result (λ c. ClaimsFit c) }
{
    let Some(value) = row.get("claims") else {
        return Ok(ClaimSet::new(alloc));
    };
    match claims_of(alloc, value)? {
        Some(claims) => Ok(claims),
        None => Ok(ClaimSet::new(alloc)),
    }
}

#[tactic(auto, using(crate::proofs::HeldClaims::holds))]
fn user_of(alloc: Global, row: &Value) -> Result<User, NoMemory>
    ensures value { IfOk result (λ u. u ≡ spec.user_of (view row.now)) }
    ensures claims { IfOk result (λ u. HoldsClaims u.claims) }
{
    let claims = user_claims(alloc, row)?;
    let proof = hex_at(alloc, row, "proof")?;
    Ok(User {
        id: Text::new(alloc, text_or(row, "id", ""))?,
        salt: Blob::from_vec(hex_at(alloc, row, "salt")?),
        rounds: rounds_of(natural_at(row, "rounds")),
        proof: proof_of(&proof),
        claims: write_claims(&claims)?,
    })
}

// A text of its own, where there is one.
fn text_of(alloc: Global, text: Option<&str>) -> Result<Option<Text>, NoMemory>
    ensures { IfOk result (λ o. o ≡ option_copied text.entry) }
{
    match text {
        Some(text) => Ok(Some(Text::new(alloc, text)?)),
        None => Ok(None),
    }
}

// The texts, in a list of texts.
fn list_of(alloc: Global, texts: &[Text]) -> Result<Texts, NoMemory>
    ensures { IfOk result (λ t. t ≡ texts.now) }
{
    let mut list = Texts::new(alloc);
    for text in texts {
        list.push(text.copy(alloc)?)?;
    }
    Ok(list)
}

fn urls_of(alloc: Global, texts: &[Text]) -> Result<WebUrls, NoMemory>
    ensures { IfOk result (λ u. u ≡ spec.urls_of texts.now) }
{
    let mut urls = WebUrls::new(alloc);
    for text in texts {
        let url = url_of(alloc, text.as_str())?;
        urls.push(url_or_none(alloc, url)?)?;
    }
    Ok(urls)
}

fn types_of(texts: &[Text]) -> [bool; 6]
    ensures { result ≡ spec.types_of texts.now }
{
    [
        has_type(0, texts),
        has_type(1, texts),
        has_type(2, texts),
        has_type(3, texts),
        has_type(4, texts),
        has_type(5, texts),
    ]
}

// Whether the histories last, in the second version.
pub(crate) fn lasting_of(version: Version, provider: &Value) -> bool
    ensures { result ≡ spec.lasting_of version (view provider.now) }
{
    match version {
        Version::First => false,
        Version::Second => text_or(provider, "history", "") == "lasting",
    }
}

// Whether pages are full, in the second version.
pub(crate) fn full_pages_of(version: Version, provider: &Value) -> bool
    ensures { result ≡ spec.full_pages_of version (view provider.now) }
{
    match version {
        Version::First => false,
        Version::Second => text_or(provider, "pages", "") == "full",
    }
}

// The title of the provider whose issuer has this host.
pub(crate) fn provider_title(
    alloc: Global,
    version: Version,
    provider: &Value,
    host: &str,
) -> Result<Text, NoMemory>
    requires { host.now ≡ (spec.url_or_none (codes "issuer") (view provider.now)).host }
    ensures { IfOk result (λ t. t ≡ spec.provider_title version (view provider.now)) }
{
    match version {
        Version::First => Text::new(alloc, host),
        Version::Second => Text::new(alloc, text_or(provider, "title", host)),
    }
}

// The number of workers: 4 if none is given, or too great a one, which is rejected.
fn workers_in(number: Option<u64>) -> u32
    ensures { result ≡ spec.workers_in number }
{
    match number {
        Some(number) if number <= 64 => number as u32,
        _ => 4,
    }
}

// How many workers the row gives, in the second version.
fn workers_of(version: Version, row: &Value) -> u32
    ensures { result ≡ spec.workers_of version (view row.now) }
{
    match version {
        Version::First => 4,
        Version::Second => workers_in(natural_at(row, "workers")),
    }
}

pub(crate) fn settings_of(version: Version, provider: &Value) -> Settings
    ensures { result ≡ spec.settings_of version (view provider.now) }
{
    Settings {
        host_cookies: host_cookies(version, provider),
        workers: workers_of(version, provider),
    }
}

fn party_settings_of(version: Version, row: &Value) -> PartySettings
    ensures { result ≡ spec.party_settings_of version (view row.now) }
{
    PartySettings {
        workers: workers_of(version, row),
    }
}

// The old secret of a client, in the second version.
fn old_secret_of(alloc: Global, version: Version, row: &Value) -> Result<Option<Text>, NoMemory>
    ensures { IfOk result (λ o. o ≡ spec.old_secret_of version (view row.now)) }
{
    match version {
        Version::First => Ok(None),
        Version::Second => text_of(alloc, text_at(row, "old_secret")),
    }
}

// Whether a client seals with its old secret, in the second version.
fn seals_old_of(version: Version, row: &Value) -> bool
    ensures { result ≡ spec.seals_old_of version (view row.now) }
{
    match version {
        Version::First => false,
        Version::Second => text_or(row, "seals", "") == "old",
    }
}

fn client_title(alloc: Global, version: Version, row: &Value) -> Result<Text, NoMemory>
    ensures { IfOk result (λ t. t ≡ spec.client_title version (view row.now)) }
{
    let id = text_or(row, "id", "");
    match version {
        Version::First => Text::new(alloc, id),
        Version::Second => Text::new(alloc, text_or(row, "title", id)),
    }
}

fn client_of(alloc: Global, version: Version, row: &Value) -> Result<Client, NoMemory>
    ensures { IfOk result (λ c. c ≡ spec.client_of_row version (view row.now)) }
{
    let redirects = texts_at(alloc, row, "redirect_uris")?;
    let types = response_texts(alloc, row)?;
    Ok(Client {
        id: Text::new(alloc, text_or(row, "id", ""))?,
        secret: Text::new(alloc, text_or(row, "secret", ""))?,
        old_secret: old_secret_of(alloc, version, row)?,
        seals_old: seals_old_of(version, row),
        redirects: list_of(alloc, &redirects)?,
        types: types_of(&types),
        pairwise: text_or(row, "subject", "") == "pairwise",
        asks_consent: text_or(row, "consent", "") != "given",
        logout: text_of(alloc, text_at(row, "logout_uri"))?,
        logout_session: flag_at(row, "logout_session"),
        redirect_urls: urls_of(alloc, &redirects)?,
        logout_url: url_at(alloc, row, "logout_uri")?,
        title: client_title(alloc, version, row)?,
    })
}

// The place of the client of this id, from 0.
pub(crate) fn client_place(clients: &[Client], id: &[u8]) -> Option<usize>
    ensures value { result ≡ spec.client_place id.now clients.now }
    ensures within { IfSome result (λ place. place < length clients.now) }
{
    for (place, client) in clients.iter().enumerate() {
        if client.id.as_str().as_bytes() == id {
            return Some(place);
        }
    }
    None
}

// The number of the client of this id, or else that of clients.
fn client_number(clients: &[Client], id: &[u8]) -> u32
    requires { length clients.now < 2 ^ 32 }
    ensures { result ≡ spec.client_number id.now clients.now }
{
    match client_place(clients, id) {
        Some(place) => place as u32,
        None => clients.len() as u32,
    }
}

#[tactic(auto, unfolding(crate::specs::Records::party_of))]
fn party_of(
    alloc: Global,
    version: Version,
    clients: &[Client],
    row: &Value,
) -> Result<Party, NoMemory>
    requires { length clients.now < 2 ^ 32 }
    ensures { IfOk result (λ p. p ≡ spec.party_of version clients.now (view row.now)) }
{
    let number = number_of_type(text_or(row, "response_type", "code"));
    Ok(Party {
        name: Text::new(alloc, text_or(row, "name", ""))?,
        client: client_number(clients, text_or(row, "client", "").as_bytes()),
        redirect: Text::new(alloc, text_or(row, "redirect_uri", ""))?,
        listen: Text::new(alloc, text_or(row, "listen", ""))?,
        types: Types::of_number(number),
        scope: Text::new(alloc, text_or(row, "scope", OPENID))?,
        prompt: text_of(alloc, text_at(row, "prompt"))?,
        max_age: natural_at(row, "max_age"),
        userinfo: flag_at(row, "userinfo"),
        signed: flag_at(row, "signed"),
        redirect_url: url_in(alloc, row, "redirect_uri")?,
        settings: party_settings_of(version, row),
    })
}

#[tactic(auto, using(crate::proofs::HeldClaims::none_hold))]
pub(crate) fn users_of(alloc: Global, rows: &[Value]) -> Result<Vec<User>, NoMemory>
    ensures value { IfOk result (λ v. v.items ≡ map spec.user_of (map view rows.now)) }
    ensures claims { IfOk result (λ v. AllHoldClaims v.items) }
{
    let mut users = Vec::new(alloc);
    for row in rows {
        users.push(user_of(alloc, row)?)?;
    }
    Ok(users)
}

pub(crate) fn clients_of(
    alloc: Global,
    version: Version,
    rows: &[Value],
) -> Result<Vec<Client>, NoMemory>
    ensures { IfOk result (λ v. v.items ≡ map (spec.client_of_row version) (map view rows.now)) }
{
    let mut clients = Vec::new(alloc);
    for row in rows {
        clients.push(client_of(alloc, version, row)?)?;
    }
    Ok(clients)
}

// The parties. If there were 2^32 clients, which no memory holds, `NoMemory` would be returned.
pub(crate) fn parties_of(
    alloc: Global,
    version: Version,
    clients: &[Client],
    rows: &[Value],
) -> Result<Vec<Party>, NoMemory>
    ensures { IfOk result (λ v. v.items ≡ map (spec.party_of version clients.now) (map view rows.now)) }
{
    let mut parties = Vec::new(alloc);
    if clients.len() > u32::MAX as usize {
        return Err(NoMemory);
    }
    for row in rows {
        parties.push(party_of(alloc, version, clients, row)?)?;
    }
    Ok(parties)
}

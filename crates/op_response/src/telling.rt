// Replies in HTTP.

ghost use Rattle.std.specs.Prelude.{◌≡◌, IfOk};
ghost use Rattle.sso_base.specs.Words.{word_text};
ghost use Rattle.op_response.specs.Cookies.{session_cookies};
ghost use Rattle.http_reply.specs.Replies.{sent_to};
ghost use Rattle.op_response.specs.Telling as spec;

use crate::cookies::{browser_cookies, push_session};
use crate::full_pages::{
    error_line, error_page, full_consent_page, full_login_page, missing_page, signed_out_page,
    table_page,
};
use crate::html::{consent_page, login_page};
use auth_answer::{print_answer, print_refusal};
use auth_request::PageNo;
use client_registry::Registry;
use html_pages::shown;
use http_reply::{html, joined};
use oidc_words::{BEARER, INVALID_TOKEN, Scopes};
use op_exchange::OpReply;
use sso_base::{Blob, HttpReply, Kind, NoMemory, Text, Texts, Word};
use std::alloc::Global;
use token_endpoint::{TokenError, print_token_error, print_tokens};

// The body of the reply with the provider's keys (RFC 7517, 5).
const NO_KEYS: &str = "{\"keys\":[]}";

fn json(alloc: Global, body: &[u8]) -> Result<HttpReply, NoMemory>
    ensures { IfOk result (λ h. h ≡ spec.json body.now) }
{
    Ok(HttpReply {
        status: 200,
        pragma: false,
        location: None,
        cookies: Texts::new(alloc),
        challenge: None,
        kind: Kind::Json,
        body: Blob::new(alloc, body)?,
    })
}

// A redirect of the user agent to this location, with the session cookie if there is a session word.
fn sent_with_session(
    alloc: Global,
    registry: &Registry,
    location: Text,
    session: &Option<Word>,
) -> Result<HttpReply, NoMemory>
    ensures { IfOk result (λ h. h ≡ sent_to location (session_cookies registry.now session.now)) }
{
    let mut cookies = Texts::new(alloc);
    push_session(&mut cookies, alloc, registry, session)?;
    Ok(http_reply::sent_to(alloc, location, cookies))
}

/// A response of the token endpoint with this body, which must not be cached (RFC 6749, 5.1 and 5.2).
pub fn token_response(alloc: Global, status: u16, challenge: Option<Text>, body: Blob) -> HttpReply
    ensures { result ≡ spec.token_response status challenge body }
{
    HttpReply {
        status,
        pragma: true,
        location: None,
        cookies: Texts::new(alloc),
        challenge,
        kind: Kind::Json,
        body,
    }
}

fn unauthorized(alloc: Global, challenge: Text) -> HttpReply
    ensures { result ≡ spec.unauthorized challenge }
{
    HttpReply {
        status: 401,
        pragma: false,
        location: None,
        cookies: Texts::new(alloc),
        challenge: Some(challenge),
        kind: Kind::Empty,
        body: Blob::from_vec(Vec::new(alloc)),
    }
}

fn token_refused(alloc: Global, code: TokenError) -> Result<HttpReply, NoMemory>
    ensures { IfOk result (λ h. h ≡ spec.token_refused code) }
{
    let body = print_token_error(alloc, code)?;
    match code {
        TokenError::InvalidClient => {
            let challenge = Text::new(alloc, "Basic realm=\"sso\"")?;
            Ok(token_response(alloc, 401, Some(challenge), body))
        }
        TokenError::InvalidRequest | TokenError::InvalidGrant | TokenError::UnsupportedGrantType =>
            Ok(token_response(alloc, 400, None, body)),
    }
}

fn bearer_challenge(alloc: Global, given: bool) -> Result<Text, NoMemory>
    ensures { IfOk result (λ t. t ≡ spec.bearer_challenge given) }
{
    let challenge = if given {
        joined(alloc, &[BEARER, " error=\"", INVALID_TOKEN, "\""])?
    } else {
        joined(alloc, &[BEARER, " realm=\"sso\""])?
    };
    Ok(Text::from_string(challenge))
}

// The login page, full or plain.
fn login_body(
    alloc: Global,
    registry: &Registry,
    turn: &Word,
    again: bool,
) -> Result<Blob, NoMemory>
    ensures { IfOk result (λ b. b ≡ spec.login_body registry.now.full_pages registry.now.title registry.now.prefix (word_text turn.now) again) }
{
    if registry.full_pages() {
        full_login_page(alloc, registry.title(), registry.prefix(), turn, again)
    } else {
        login_page(alloc, registry.prefix(), turn, again)
    }
}

fn login_shown(
    alloc: Global,
    registry: &Registry,
    turn: &Word,
    browser: &Word,
    again: bool,
) -> Result<HttpReply, NoMemory>
    ensures { IfOk result (λ h. h ≡ spec.login_shown registry.now turn.now browser.now again) }
{
    let cookies = browser_cookies(alloc, registry, browser)?;
    let page = login_body(alloc, registry, turn, again)?;
    Ok(html(cookies, page))
}

// The title of the client with this id.
#[tactic(auto, using(auth_request::proofs::Numbers::below))]
fn application_title<'a>(registry: &'a Registry, client: &'a Text) -> &'a str
    ensures { result.now ≡ spec.application_title registry.now client.now }
{
    match registry.find_client(client.as_str().as_bytes()) {
        Some(number) => registry.client(number).title.as_str(),
        None => client.as_str(),
    }
}

// The consent page, full or plain.
fn consent_body(
    alloc: Global,
    registry: &Registry,
    turn: &Word,
    client: &Text,
    scopes: &Scopes,
) -> Result<Blob, NoMemory>
    ensures { IfOk result (λ b. b ≡ spec.consent_body registry.now.full_pages registry.now (word_text turn.now) client.now scopes.now) }
{
    if registry.full_pages() {
        let application = application_title(registry, client);
        full_consent_page(alloc, registry, turn, application, scopes)
    } else {
        consent_page(alloc, registry.prefix(), turn, client, scopes)
    }
}

fn consent_shown(
    alloc: Global,
    registry: &Registry,
    turn: &Word,
    browser: &Word,
    session: &Option<Word>,
    client: &Text,
    scopes: &Scopes,
) -> Result<HttpReply, NoMemory>
    ensures { IfOk result (λ h. h ≡ spec.consent_shown registry.now turn.now browser.now session.now client.now scopes.now) }
{
    let mut cookies = browser_cookies(alloc, registry, browser)?;
    push_session(&mut cookies, alloc, registry, session)?;
    let page = consent_body(alloc, registry, turn, client, scopes)?;
    Ok(html(cookies, page))
}

fn error_shown(alloc: Global, registry: &Registry, why: PageNo) -> Result<HttpReply, NoMemory>
    ensures { IfOk result (λ h. h ≡ spec.error_shown registry.now why) }
{
    let line = error_line(alloc, why)?;
    let page = error_page(alloc, registry, why)?;
    shown(alloc, 400, page, line.as_str())
}

/// The reply after a sign-out: a line of text, or a page if pages are full.
pub fn signed_out_shown(alloc: Global, registry: &Registry) -> Result<HttpReply, NoMemory>
    ensures { IfOk result (λ h. h ≡ spec.signed_out_shown registry.now) }
{
    let page = signed_out_page(alloc, registry)?;
    shown(alloc, 200, page, "signed out")
}

/// The reply if a table is full: a line of text, or a page if pages are full, with status 503.
pub fn full_shown(alloc: Global, registry: &Registry) -> Result<HttpReply, NoMemory>
    ensures { IfOk result (λ h. h ≡ spec.full_shown registry.now) }
{
    let page = table_page(alloc, registry)?;
    shown(alloc, 503, page, "full")
}

fn missing_shown(alloc: Global, registry: &Registry) -> Result<HttpReply, NoMemory>
    ensures { IfOk result (λ h. h ≡ spec.missing_shown registry.now) }
{
    let page = missing_page(alloc, registry)?;
    shown(alloc, 404, page, "not here")
}

/// The HTTP reply for this reply of a provider with this registry.
///
/// A login page and a consent page are HTML, plain or full as the registry says, and set the browser's cookie `op_b`.
/// Authorization responses redirect the user agent to their location, with status 303. Each of these, except a login page, sets
/// the session's cookie `op_s` if it has a session word. A cookie is a word's text, for every path, `HttpOnly`, `SameSite=Lax`
/// and, if the issuer is https, `Secure` (RFC 6265, 4.1). If the registry says so, both names begin with `__Host-`.
///
/// Token responses are JSON with `Pragma: no-cache` (RFC 6749, 5.1 and 5.2). The claims of a user, the provider's metadata and
/// its keys are JSON. Error pages, sign-outs, and replies for an unknown path or a full table are one line of text, or HTML if
/// pages are full. A client that is not authenticated, and a UserInfo request without a valid token, get a
/// challenge with status 401 (RFC 6749, 5.2; RFC 6750, 3).
#[tactic(auto, unfolding(crate::specs::Telling::http_of))]
pub fn op_http(alloc: Global, registry: &Registry, reply: &OpReply) -> Result<HttpReply, NoMemory>
    ensures { IfOk result (λ h. h ≡ spec.http_of registry.now reply.now) }
{
    match reply {
        OpReply::LoginPage {
            turn,
            browser,
            again,
        } => login_shown(alloc, registry, turn, browser, *again),
        OpReply::ConsentPage {
            turn,
            browser,
            session,
            client,
            scopes,
        } => consent_shown(alloc, registry, turn, browser, session, client, scopes),
        OpReply::Answered { answer, session } => {
            sent_with_session(alloc, registry, print_answer(alloc, answer)?, session)
        }
        OpReply::Refused { refusal, session } => {
            sent_with_session(alloc, registry, print_refusal(alloc, refusal)?, session)
        }
        OpReply::ErrorPage { why } => error_shown(alloc, registry, *why),
        OpReply::Tokens { access, id } => {
            let body = print_tokens(alloc, access, id)?;
            Ok(token_response(alloc, 200, None, body))
        }
        OpReply::TokenRefused { code } => token_refused(alloc, *code),
        OpReply::Info { claims } => json(alloc, claims.as_bytes()),
        OpReply::InfoRefused { given } => {
            Ok(unauthorized(alloc, bearer_challenge(alloc, *given)?))
        }
        OpReply::SignedOut { .. } => signed_out_shown(alloc, registry),
        OpReply::Metadata { text } => json(alloc, text.as_str().as_bytes()),
        OpReply::Keys => json(alloc, NO_KEYS.as_bytes()),
        OpReply::NotHere => missing_shown(alloc, registry),
        OpReply::Full => full_shown(alloc, registry),
    }
}

// The core as one that the provider is in.

ghost use Rattle.std.specs.Prelude.{◌≡◌, ◌&&◌, IfOk, option_map};
ghost use Rattle.std.specs.Option.{option_copied};
ghost use Rattle.refresh_request.specs.Reading.{refresh_read, is_refresh as is_refresh_of};
ghost use Rattle.request_params.specs.Form.{posted as posted_of};
ghost use Rattle.refresh_book.specs.Prepared as spec;

use crate::entries::known;
use crate::refresh_core::RefreshCore;
use client_registry::Registry;
use code_grant::CodeRow;
use core_stack::Provides;
use oidc_words::Scopes;
use op_exchange::{OpAsk, OpReply};
use op_response::{op_http, token_response};
use refresh_answer::{OwnReply, RefreshAsk, RefreshGrant, RefreshReply};
use refresh_request::{asks_offline, is_refresh, print_first, print_refreshed, read_refresh};
use request_params::posted;
use sso_base::{Ask, Blob, Entry, HttpReply, Messages, Moment, NoMemory, Word, bytes_if};
use std::alloc::Global;
use token_endpoint::GrantNo;

// ---- requests

fn is_token(ask: Option<&OpAsk>) -> bool
    ensures { result ≡ spec.is_token (option_copied ask.entry) }
{
    matches!(ask, Some(OpAsk::Token { .. }))
}

// The bytes of a body, if there is one.
fn body_of(body: &Option<Blob>) -> Option<&[u8]>
    ensures { option_map (λ b. b.now) result ≡ body.now }
{
    match body {
        Some(body) => Some(body.as_bytes()),
        None => None,
    }
}

// The contents of a refresh request, or why it is rejected.
fn grant_in(
    alloc: Global,
    registry: &Registry,
    request: &Ask,
) -> Result<Result<RefreshGrant, GrantNo>, NoMemory>
    ensures { IfOk result (λ g. g ≡ refresh_read registry.now request.now.auth request.now.body) }
{
    match read_refresh(
        alloc,
        registry,
        bytes_if(&request.auth),
        body_of(&request.body),
    ) {
        Err(GrantNo::NoMemory) => Err(NoMemory),
        grant => Ok(grant),
    }
}

// Whether a request is a refresh request, by the provider's request in it.
fn is_refresh_in(alloc: Global, request: &Ask, ask: Option<&OpAsk>) -> Result<bool, NoMemory>
    ensures { IfOk result (λ b. b ≡ (spec.is_token (option_copied ask.entry) && is_refresh_of (posted_of request.now.body))) }
{
    if is_token(ask) {
        is_refresh(alloc, posted(&request.body))
    } else {
        Ok(false)
    }
}

// The request in an HTTP request that has this request of the inner core.
fn asked_around<P: Provides>(
    alloc: Global,
    registry: &Registry,
    request: &Ask,
    inner: P::Ask,
) -> Result<RefreshAsk<P::Ask>, NoMemory>
    ensures { IfOk result (λ a. a ≡ spec.asked_around P.plain_ask registry.now request.now inner) }
{
    if is_refresh_in(alloc, request, P::plain(&inner))? {
        let grant = grant_in(alloc, registry, request)?;
        return Ok(RefreshAsk::Refresh { grant });
    }
    let offline = asks_offline(alloc, registry, request, P::plain(&inner))?;
    Ok(RefreshAsk::Through { inner, offline })
}

// ---- replies

// The same reply with another body.
fn with_body(reply: HttpReply, body: Blob) -> HttpReply
    ensures { result ≡ record reply { body = body } }
{
    let HttpReply {
        status,
        pragma,
        location,
        cookies,
        challenge,
        kind,
        ..
    } = reply;
    HttpReply {
        status,
        pragma,
        location,
        cookies,
        challenge,
        kind,
        body,
    }
}

// A token response of the inner core, with a refresh token.
fn with_refresh(
    alloc: Global,
    told: Option<&OpReply>,
    reply: HttpReply,
    refresh: &Word,
) -> Result<HttpReply, NoMemory>
    ensures { IfOk result (λ h. h ≡ spec.with_refresh (option_copied told.entry) reply refresh.now) }
{
    match told {
        Some(OpReply::Tokens { access, id }) => {
            let body = print_first(alloc, access, id, refresh)?;
            Ok(with_body(reply, body))
        }
        _ => Ok(reply),
    }
}

fn refreshed_http(
    alloc: Global,
    access: &Word,
    refresh: &Word,
    scopes: Scopes,
) -> Result<HttpReply, NoMemory>
    ensures { IfOk result (λ h. h ≡ spec.refreshed_http access.now refresh.now scopes) }
{
    let body = print_refreshed(alloc, access, refresh, scopes)?;
    Ok(token_response(alloc, 200, None, body))
}

// A reply without the inner core.
fn own_http(alloc: Global, registry: &Registry, reply: &OwnReply) -> Result<HttpReply, NoMemory>
    ensures { IfOk result (λ h. h ≡ spec.own_http registry.now reply.now) }
{
    match reply {
        OwnReply::Refreshed {
            access,
            refresh,
            scopes,
        } => refreshed_http(alloc, access, refresh, *scopes),
        OwnReply::Refused { code } => {
            op_http(alloc, registry, &OpReply::TokenRefused { code: *code })
        }
        OwnReply::Info { claims } => {
            let claims = claims.copy(alloc)?;
            op_http(alloc, registry, &OpReply::Info { claims })
        }
        OwnReply::NotHere => op_http(alloc, registry, &OpReply::NotHere),
        OwnReply::Full => op_http(alloc, registry, &OpReply::Full),
    }
}

impl<P: Provides> Provides for RefreshCore<P> {
    ghost use Rattle.sso_base.specs.Legal.{IsEntry};
    ghost use Rattle.refresh_answer.specs.Around.{inner_history, outer_plain, outer_told, outer_given, outer_notices, IsRefreshAsk};
    ghost use Rattle.refresh_answer.specs.Answering.{inner_setup};
    ghost use Rattle.refresh_answer.proofs.Passed.{last_inside, outer_adds, outer_given_told, outer_refusals, outer_signs_out, outer_notices_tell};

    ghost provider_registry = { λ x. P.provider_registry x.inner };

    ghost provided = { λ h. P.provided (inner_history h) };

    ghost plain_ask = { outer_plain P.plain_ask };

    ghost op_reply = { outer_told P.op_reply };

    ghost given_reply = { outer_given P.given_reply };

    ghost notices = { outer_notices P.notices };

    ghost prepared = { λ c request. spec.asked_around P.plain_ask c request (P.prepared c request) };

    ghost from_op = { λ a. spec.alone (P.from_op a) };

    ghost http_of = { spec.outer_http P.http_of P.op_reply };

    ghost IsAsk = { IsRefreshAsk P.IsAsk };

    fn prepare(
        alloc: Global,
        registry: &Registry,
        request: &Ask,
    ) -> Result<RefreshAsk<P::Ask>, NoMemory> {
        let inner = P::prepare(alloc, registry, request)?;
        asked_around::<P>(alloc, registry, request, inner)
    }

    fn from_plain(alloc: Global, ask: OpAsk) -> Result<RefreshAsk<P::Ask>, NoMemory> {
        Ok(RefreshAsk::Through {
            inner: P::from_plain(alloc, ask)?,
            offline: false,
        })
    }

    fn plain<'a>(ask: &'a RefreshAsk<P::Ask>) -> Option<&'a OpAsk> {
        match ask {
            RefreshAsk::Through { inner, .. } => P::plain(inner),
            RefreshAsk::Refresh { .. } => None,
        }
    }

    fn answer<'a>(reply: &'a RefreshReply<P::Reply>) -> Option<&'a OpReply> {
        match reply {
            RefreshReply::Through(reply) => P::answer(reply),
            RefreshReply::First { inner, .. } => P::answer(inner),
            RefreshReply::Own(_) => None,
        }
    }

    fn given<'a>(reply: &'a RefreshReply<P::Reply>) -> Option<&'a OpReply> {
        match reply {
            RefreshReply::Through(reply) => P::given(reply),
            RefreshReply::First { inner, .. } => P::given(inner),
            RefreshReply::Own(_) => None,
        }
    }

    fn messages<'a>(reply: &'a RefreshReply<P::Reply>) -> Option<&'a Messages> {
        match reply {
            RefreshReply::Through(reply) => P::messages(reply),
            RefreshReply::First { inner, .. } => P::messages(inner),
            RefreshReply::Own(_) => None,
        }
    }

    fn code(&self, word: Word, at: Moment) -> Option<&CodeRow> {
        self.inner.code(word, at)
    }

    fn http(
        alloc: Global,
        registry: &Registry,
        reply: &RefreshReply<P::Reply>,
    ) -> Result<HttpReply, NoMemory> {
        match reply {
            RefreshReply::Through(reply) => P::http(alloc, registry, reply),
            RefreshReply::First { inner, refresh } => {
                let sent = P::http(alloc, registry, inner)?;
                with_refresh(alloc, P::answer(inner), sent, refresh)
            }
            RefreshReply::Own(reply) => own_http(alloc, registry, reply),
        }
    }

    fn known(entry: Entry<RefreshAsk<P::Ask>>) -> Entry<RefreshAsk<P::Ask>>
        ensures same { result ≡ entry }
        ensures values { IsEntry (IsRefreshAsk P.IsAsk) result }
    {
        known::<P>(entry)
    }

    ghost begins = { P.begins };

    ghost registry_is = { λ x y same. P.registry_is x.inner y.inner (inner_setup _ _ same) };

    ghost is_provider = { λ x h legal. P.is_provider x.inner (inner_history h) legal.inner };

    ghost adds_what_it_gives = { λ s h p legal. outer_adds P.plain_ask P.given_reply P.provided P.IsAsk P.weighs P.most P.is_legal s h p legal
        (λ q is. P.adds_what_it_gives s.inner (inner_history h) q
        (last_inside P.plain_ask P.given_reply P.provided P.IsAsk P.weighs P.most P.is_legal s h p legal q is)) };

    ghost given_is_told = { λ t r same. outer_given_told P.given_reply P.op_reply P.given_is_told t r same };

    ghost only_refusals_are_own = { λ s h p r legal told own. outer_refusals P.plain_ask P.given_reply P.provided P.IsAsk P.weighs P.most P.is_legal s h p
        legal P.op_reply r told (λ q inside said. P.only_refusals_are_own s.inner (inner_history h) q r inside said own) };

    ghost signs_out = { λ s h p w legal asked. outer_signs_out P.plain_ask P.given_reply P.provided P.IsAsk P.weighs P.most P.is_legal s h p
        legal P.notices w asked (λ q inside plain. P.signs_out s.inner (inner_history h) q w inside plain) };

    ghost notices_are = { λ s h p legal. outer_notices_tell P.plain_ask P.given_reply P.provided P.IsAsk P.weighs P.most P.is_legal s h p
        legal P.notices (λ q is. P.notices_are s.inner (inner_history h) q
        (last_inside P.plain_ask P.given_reply P.provided P.IsAsk P.weighs P.most P.is_legal s h p legal q is)) };

    ghost reads_requests = { λ c request a same. P.reads_requests c request a
        (spec.plain_around P.plain_ask c request (P.prepared c request) a same) };

    ghost plain_of = { P.plain_of };
}

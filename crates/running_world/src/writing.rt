// Notes the tokens that a place writes.

ghost use Rattle.std.specs.Prelude.{◌≡◌, ◌<◌, length, Some, IfSome, OnOk};
ghost use Rattle.op_answer.specs.Replies.{sign_out_of as sign_out};
ghost use Rattle.op_exchange.specs.declared.ask.OpAsk.TheVariants as op_ask;
ghost use Rattle.sso_places.specs.Site.{own_site};
ghost use Rattle.sso_places.specs.Tokens.{token_if};
ghost use Rattle.sso_places.specs.Written.{rp_written};
ghost use Rattle.running_world.specs.Foreknowing.{IsKnown};
ghost use Rattle.running_world.specs.Noting as spec;

use crate::foreknown::Foreknown;
use crate::kept::Asked;
use client_registry::Registry;
use code_grant::SessionRow;
use login_request::login_object;
use op_exchange::OpReply;
use op_issue::{Authentication, SignOut, logout_token_for};
use rp_exchange::RpReply;
use sso_base::{NoMemory, Text};
use std::alloc::Global;
use world_index::Written;

// Notes that the token is written for the client, if there are both.
fn note_text(
    written: &mut Written,
    alloc: Global,
    client: Option<u32>,
    text: &Option<Text>,
) -> Result<(), NoMemory>
    requires { IfSome client (λ n. n < length written.old) }
    ensures count { length written.new ≡ length written.old }
    ensures ok { OnOk result (spec.AreNoted written.old written.new (token_if client text.now)) }
    ensures either { spec.ArePartlyNoted written.old written.new (token_if client text.now) }
{
    match (client, text) {
        (Some(client), Some(text)) => written.note(alloc, text, client),
        _ => Ok(()),
    }
}

// The sign-out that ends a session at a place.
fn sign_out_of(asked: &Asked, session: &SessionRow) -> SignOut
    ensures { result ≡ sign_out (record { at = asked.now.at; fresh = asked.now.fresh; ask = op_ask.NotHere }) session.now }
{
    SignOut {
        who: Authentication {
            user: session.user,
            sid: session.sid,
            auth_time: session.auth_time,
        },
        at: asked.at,
        word: asked.fresh[0],
    }
}

// Notes the logout token for a client, if the client is notified.
fn note_logout(
    written: &mut Written,
    alloc: Global,
    registry: &Registry,
    client: u32,
    out: &SignOut,
    session: &SessionRow,
) -> Result<(), NoMemory>
    requires count { length written.old ≡ length registry.now.clients }
    requires client { client < length registry.now.clients }
    requires user { out.now.who.user < length registry.now.users }
    ensures count { length written.new ≡ length written.old }
    ensures ok { OnOk result (spec.AreNoted written.old written.new (spec.logout_written registry.now out.now session.now.clients client)) }
    ensures either { spec.ArePartlyNoted written.old written.new (spec.logout_written registry.now out.now session.now.clients client) }
{
    if session.clients.has(client) && registry.client(client).logout.is_some() {
        let token = logout_token_for(alloc, registry, client, out)?;
        written.note(alloc, &token, client)?;
    }
    Ok(())
}

// Notes the logout tokens of the sign-out of a session.
fn note_logouts(
    written: &mut Written,
    alloc: Global,
    registry: &Registry,
    asked: &Asked,
    session: &SessionRow,
) -> Result<(), NoMemory>
    requires count { length written.old ≡ length registry.now.clients }
    requires user { session.now.user < length registry.now.users }
    ensures count { length written.new ≡ length written.old }
    ensures ok { OnOk result (spec.AreNoted written.old written.new (spec.ended_writes registry.now asked.now.at asked.now.fresh (Some session.now))) }
    ensures either { spec.ArePartlyNoted written.old written.new (spec.ended_writes registry.now asked.now.at asked.now.fresh (Some session.now)) }
{
    let out = sign_out_of(asked, session);
    for client in 0..registry.clients() {
        note_logout(written, alloc, registry, client, &out, session)?;
    }
    Ok(())
}

/// Notes the tokens that a reply of the provider writes.
pub(crate) fn note_op_written(
    written: &mut Written,
    alloc: Global,
    registry: &Registry,
    asked: &Asked,
    reply: &OpReply,
    fore: &Foreknown,
) -> Result<(), NoMemory>
    requires count { length written.old ≡ length registry.now.clients }
    requires fore { IsKnown registry.now fore.now }
    ensures count { length written.new ≡ length written.old }
    ensures ok { OnOk result (spec.AreNoted written.old written.new (spec.op_writes registry.now asked.now fore.now reply.now)) }
    ensures either { spec.ArePartlyNoted written.old written.new (spec.op_writes registry.now asked.now fore.now reply.now) }
{
    match reply {
        OpReply::Answered { answer, .. } => note_text(
            written,
            alloc,
            registry.client_of_uri(answer.redirect.as_str()),
            &answer.id,
        ),
        OpReply::Tokens { id, .. } => match fore.client {
            Some(client) => written.note(alloc, id, client),
            None => Ok(()),
        },
        OpReply::SignedOut { .. } => match &fore.ended {
            Some(session) => note_logouts(written, alloc, registry, asked, session),
            None => Ok(()),
        },
        _ => Ok(()),
    }
}

/// Notes the request object of a login that begins, if the party signs its requests.
pub(crate) fn note_rp_written(
    written: &mut Written,
    alloc: Global,
    registry: &Registry,
    party: u32,
    asked: &Asked,
    reply: &RpReply,
) -> Result<(), NoMemory>
    requires count { length written.old ≡ length registry.now.clients }
    requires party { party < length registry.now.parties }
    ensures count { length written.new ≡ length written.old }
    ensures ok { OnOk result (spec.AreNoted written.old written.new (rp_written (own_site registry.now) party asked.now.fresh reply.now)) }
    ensures either { spec.ArePartlyNoted written.old written.new (rp_written (own_site registry.now) party asked.now.fresh reply.now) }
{
    let RpReply::Ask { .. } = reply else {
        return Ok(());
    };
    let row = registry.party(party);
    if row.signed {
        let issuer = &registry.provider().issuer;
        let object = login_object(
            alloc,
            registry,
            party,
            issuer,
            &asked.fresh[1],
            &asked.fresh[2],
        )?;
        written.note(alloc, &object, row.client)?;
    }
    Ok(())
}

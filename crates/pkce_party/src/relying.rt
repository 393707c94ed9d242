// The core as one that a relying party is in.

use crate::party::PkceParty;
use crate::reply::PartyReply;
use crate::telling::{party_http, party_message};
use client_registry::Registry;
use core_stack::{Relies, Sending};
use rp_exchange::{RpAsk, RpReply};
use rp_request::{prepare_info, prepare_rp, prepare_tokens};
use sso_base::{Answered, Ask, HttpReply, NoMemory, Word};
use std::alloc::Global;

impl Relies for PkceParty {
    ghost use Rattle.std.specs.Prelude.{refl};
    ghost use Rattle.rp_request.specs.Prepared as requests;
    ghost use Rattle.pkce_party.specs.Adding.{inner_history};
    ghost use Rattle.pkce_party.specs.Telling as telling;
    ghost use Rattle.pkce_party.specs.Inside as inside;

    ghost party_setup = { λ c. c.setup };

    ghost relied = { inner_history };

    ghost plain_ask = { λ a. a };

    ghost rp_reply = { inside.reply_inside };

    ghost sent = { telling.party_sending };

    ghost prepared = { requests.prepared };

    ghost tokens_prepared = { requests.tokens_prepared };

    ghost info_prepared = { requests.info_prepared };

    ghost from_rp = { λ a. a };

    ghost http_of = { telling.party_http };

    fn prepare(
        alloc: Global,
        registry: &Registry,
        party: u32,
        request: &Ask,
    ) -> Result<RpAsk, NoMemory> {
        prepare_rp(alloc, registry, party, request)
    }

    fn prepare_tokens(
        alloc: Global,
        registry: &Registry,
        party: u32,
        pending: Word,
        response: &Answered,
    ) -> Result<RpAsk, NoMemory> {
        prepare_tokens(alloc, registry, party, pending, response)
    }

    fn prepare_info(alloc: Global, pending: Word, response: &Answered) -> Result<RpAsk, NoMemory> {
        prepare_info(alloc, pending, response)
    }

    fn from_plain(_alloc: Global, ask: RpAsk) -> Result<RpAsk, NoMemory> {
        Ok(ask)
    }

    fn plain<'a>(ask: &'a RpAsk) -> &'a RpAsk {
        ask
    }

    fn answer<'a>(reply: &'a PartyReply) -> &'a RpReply {
        &reply.inner
    }

    fn message(alloc: Global, reply: &PartyReply) -> Result<Option<Sending>, NoMemory> {
        party_message(alloc, reply)
    }

    fn http(
        alloc: Global,
        registry: &Registry,
        party: u32,
        reply: &PartyReply,
    ) -> Result<HttpReply, NoMemory> {
        party_http(alloc, registry, party, reply)
    }

    ghost begins = { refl };

    ghost setup_is = { λ x y same. same };

    ghost most_is = { λ x. refl };

    ghost is_party = { λ x h legal. inside.inner_is_legal x.setup h legal };

    ghost adds_what_it_says = { λ s h p legal. inside.inner_more h p };

    ghost reads_requests = { λ c n request. refl };

    ghost reads_tokens = { λ c n w response. refl };

    ghost reads_info = { λ w response. refl };

    ghost plain_of = { λ a. refl };

    ghost sends_in_exchanges = { inside.sends_as_named };

    ghost tokens_end = { λ s h p c n w response legal asked. inside.tokens_end_exchanges c n s h p w response legal asked };

    ghost info_ends = { λ s h p w response legal asked. inside.info_ends_requests s h p w response legal asked };
}

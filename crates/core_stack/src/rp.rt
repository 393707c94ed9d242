// The relying party's core alone.

use crate::relies::Relies;
use crate::sending::Sending;
use client_registry::Registry;
use rp_core::RpCore;
use rp_exchange::{RpAsk, RpReply};
use rp_request::{prepare_info, prepare_rp, prepare_tokens};
use rp_response::rp_http;
use sso_base::{Answered, Ask, HttpReply, NoMemory, Word};
use std::alloc::Global;

impl Relies for RpCore {
    ghost use Rattle.std.specs.Prelude.{refl};
    ghost use Rattle.rp_request.specs.Prepared as requests;
    ghost use Rattle.rp_response.specs.Telling as telling;
    ghost use Rattle.core_stack.specs.Relied.{sending_in, sends_as_named, one_more};
    ghost use Rattle.core_stack.specs.Rounds.{exchanges_end, requests_end};

    ghost party_setup = { λ c. c.setup };

    ghost relied = { λ h. h };

    ghost plain_ask = { λ a. a };

    ghost rp_reply = { λ r. r };

    ghost sent = { sending_in };

    ghost prepared = { requests.prepared };

    ghost tokens_prepared = { requests.tokens_prepared };

    ghost info_prepared = { requests.info_prepared };

    ghost from_rp = { λ a. a };

    ghost http_of = { telling.http_of };

    fn prepare(
        alloc: Global,
        registry: &Registry,
        party: u32,
        request: &Ask,
    ) -> Result<RpAsk, NoMemory> {
        prepare_rp(alloc, registry, party, request)
    }

    fn prepare_tokens(
        alloc: Global,
        registry: &Registry,
        party: u32,
        pending: Word,
        response: &Answered,
    ) -> Result<RpAsk, NoMemory> {
        prepare_tokens(alloc, registry, party, pending, response)
    }

    fn prepare_info(alloc: Global, pending: Word, response: &Answered) -> Result<RpAsk, NoMemory> {
        prepare_info(alloc, pending, response)
    }

    fn from_plain(_alloc: Global, ask: RpAsk) -> Result<RpAsk, NoMemory> {
        Ok(ask)
    }

    fn plain<'a>(ask: &'a RpAsk) -> &'a RpAsk {
        ask
    }

    fn answer<'a>(reply: &'a RpReply) -> &'a RpReply {
        reply
    }

    fn message(alloc: Global, reply: &RpReply) -> Result<Option<Sending>, NoMemory> {
        match reply {
            RpReply::Exchange { pending, message } | RpReply::Fetch { pending, message } => {
                Ok(Some(Sending {
                    pending: *pending,
                    message: message.copy(alloc)?,
                }))
            }
            _ => Ok(None),
        }
    }

    fn http(
        alloc: Global,
        registry: &Registry,
        party: u32,
        reply: &RpReply,
    ) -> Result<HttpReply, NoMemory> {
        rp_http(alloc, registry, party, reply)
    }

    ghost begins = { refl };

    ghost setup_is = { λ x y same. same };

    ghost most_is = { λ x. refl };

    ghost is_party = { λ x h legal. legal };

    ghost adds_what_it_says = { λ s h p legal. one_more h p };

    ghost reads_requests = { λ c n request. refl };

    ghost reads_tokens = { λ c n w response. refl };

    ghost reads_info = { λ w response. refl };

    ghost plain_of = { λ a. refl };

    ghost sends_in_exchanges = { sends_as_named };

    ghost tokens_end = { λ s h p c n w response legal asked. exchanges_end c n s h p w response legal asked };

    ghost info_ends = { λ s h p w response legal asked. requests_end s h p w response legal asked };
}

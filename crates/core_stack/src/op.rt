// The provider alone, as a core that the provider is in.

use crate::provides::Provides;
use client_registry::Registry;
use code_grant::CodeRow;
use op_core::OpCore;
use op_exchange::{OpAsk, OpReply, know_op_entry};
use op_request::prepare_op;
use op_response::op_http;
use sso_base::{Ask, Entry, HttpReply, Messages, Moment, NoMemory, Word};
use std::alloc::Global;

impl Provides for OpCore {
    ghost use Rattle.std.specs.Prelude.{◌≡◌, Some, refl};
    ghost use Rattle.sso_base.specs.Legal.{IsEntry};
    ghost use Rattle.op_exchange.specs.Values.{IsOpAsk};
    ghost use Rattle.op_request.specs.Prepared.{prepared as op_prepared};
    ghost use Rattle.op_response.specs.Telling as telling;
    ghost use Rattle.core_stack.specs.OpStack as op;

    ghost provider_registry = { λ c. c.registry };

    ghost provided = { λ h. h };

    ghost plain_ask = { λ a. Some a };

    ghost op_reply = { λ r. Some r };

    ghost given_reply = { λ r. Some r };

    ghost notices = { op.op_notices };

    ghost prepared = { op_prepared };

    ghost from_op = { λ a. a };

    ghost http_of = { telling.http_of };

    ghost IsAsk = { IsOpAsk };

    fn prepare(alloc: Global, registry: &Registry, request: &Ask) -> Result<OpAsk, NoMemory> {
        prepare_op(alloc, registry, request)
    }

    fn from_plain(_alloc: Global, ask: OpAsk) -> Result<OpAsk, NoMemory> {
        Ok(ask)
    }

    fn plain<'a>(ask: &'a OpAsk) -> Option<&'a OpAsk> {
        Some(ask)
    }

    fn answer<'a>(reply: &'a OpReply) -> Option<&'a OpReply> {
        Some(reply)
    }

    fn given<'a>(reply: &'a OpReply) -> Option<&'a OpReply> {
        Some(reply)
    }

    fn messages<'a>(reply: &'a OpReply) -> Option<&'a Messages> {
        match reply {
            OpReply::SignedOut { messages } => Some(messages),
            _ => None,
        }
    }

    fn code(&self, word: Word, at: Moment) -> Option<&CodeRow> {
        let tables = self.tables();
        tables.held_code(word, at)
    }

    fn http(alloc: Global, registry: &Registry, reply: &OpReply) -> Result<HttpReply, NoMemory> {
        op_http(alloc, registry, reply)
    }

    fn known(entry: Entry<OpAsk>) -> Entry<OpAsk>
        ensures same { result ≡ entry }
        ensures values { IsEntry IsOpAsk result }
    {
        know_op_entry(&entry);
        entry
    }

    ghost begins = { refl };

    ghost registry_is = { λ x y same. same };

    ghost is_provider = { λ x h legal. legal };

    ghost adds_what_it_gives = { λ s h p legal. op.op_adds h p };

    ghost given_is_told = { λ t r same. same };

    ghost only_refusals_are_own = { λ s h p r legal told own. told };

    ghost signs_out = { λ s h p w legal asked. op.op_signs_out s h p w legal asked };

    ghost notices_are = { λ s h p legal. op.op_notices_are h p };

    ghost reads_requests = { λ c request a same. op.op_reads (op_prepared c request) a same };

    ghost plain_of = { λ a. refl };
}

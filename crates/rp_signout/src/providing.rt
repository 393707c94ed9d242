// The core as one that the provider is in.

use crate::preparing::prepare_end;
use crate::signout_core::SignoutCore;
use crate::step::known;
use crate::telling::end_http;
use client_registry::Registry;
use code_grant::CodeRow;
use core_stack::Provides;
use op_exchange::{OpAsk, OpReply};
use signout_answer::{EndAsk, EndReply};
use sso_base::{Ask, Entry, HttpReply, Messages, Moment, NoMemory, Word};
use std::alloc::Global;

impl<P: Provides> Provides for SignoutCore<P> {
    ghost use Rattle.std.specs.Prelude.{◌≡◌};
    ghost use Rattle.sso_base.specs.Legal.{IsEntry};
    ghost use Rattle.signout_answer.specs.Around.{inner_history, plain_inside, reply_inside, notices_inside, IsEndAsk};
    ghost use Rattle.signout_answer.proofs.Providing.{same_inside, end_adds, end_given_told, end_refusals, end_signs_out, end_notices_tell};
    ghost use Rattle.rp_signout.specs.Prepared as spec;
    ghost use Rattle.rp_signout.specs.Reading as reading;
    ghost use Rattle.rp_signout.specs.Pages as pages;

    ghost provider_registry = { λ x. P.provider_registry x.inner };

    ghost provided = { λ h. P.provided (inner_history h) };

    ghost plain_ask = { plain_inside P.plain_ask };

    ghost op_reply = { reply_inside P.op_reply };

    ghost given_reply = { reply_inside P.given_reply };

    ghost notices = { notices_inside P.notices };

    ghost prepared = { λ c request. spec.end_asked P.prepared P.from_op c request (spec.route_asked c.prefix request) };

    ghost from_op = { λ a. spec.alone (P.from_op a) };

    ghost http_of = { pages.end_http P.http_of };

    ghost IsAsk = { IsEndAsk P.IsAsk };

    fn prepare(
        alloc: Global,
        registry: &Registry,
        request: &Ask,
    ) -> Result<EndAsk<P::Ask>, NoMemory> {
        prepare_end::<P>(alloc, registry, request)
    }

    fn from_plain(alloc: Global, ask: OpAsk) -> Result<EndAsk<P::Ask>, NoMemory> {
        Ok(EndAsk::Through(P::from_plain(alloc, ask)?))
    }

    fn plain<'a>(ask: &'a EndAsk<P::Ask>) -> Option<&'a OpAsk> {
        match ask {
            EndAsk::Through(inner) => P::plain(inner),
            _ => None,
        }
    }

    fn answer<'a>(reply: &'a EndReply<P::Reply>) -> Option<&'a OpReply> {
        match reply {
            EndReply::Through(inner) => P::answer(inner),
            _ => None,
        }
    }

    fn given<'a>(reply: &'a EndReply<P::Reply>) -> Option<&'a OpReply> {
        match reply {
            EndReply::Through(inner) => P::given(inner),
            _ => None,
        }
    }

    fn messages<'a>(reply: &'a EndReply<P::Reply>) -> Option<&'a Messages> {
        match reply {
            EndReply::Through(inner) => P::messages(inner),
            EndReply::Gone { inner, .. } => P::messages(inner),
            _ => None,
        }
    }

    fn code(&self, word: Word, at: Moment) -> Option<&CodeRow> {
        self.inner.code(word, at)
    }

    fn http(
        alloc: Global,
        registry: &Registry,
        reply: &EndReply<P::Reply>,
    ) -> Result<HttpReply, NoMemory> {
        end_http::<P>(alloc, registry, reply)
    }

    fn known(entry: Entry<EndAsk<P::Ask>>) -> Entry<EndAsk<P::Ask>>
        ensures same { result ≡ entry }
        ensures values { IsEntry (IsEndAsk P.IsAsk) result }
    {
        known::<P>(entry)
    }

    ghost begins = { P.begins };

    ghost registry_is = { λ x y same. P.registry_is x.inner y.inner (same_inside same) };

    ghost is_provider = { λ x h legal. P.is_provider x.inner (inner_history h) legal.inner };

    ghost adds_what_it_gives = { λ s h p legal. end_adds P.plain_ask P.given_reply P.IsAsk P.weighs P.most P.is_legal s h p P.notices P.provided
        (λ q inside. P.adds_what_it_gives s.inner (inner_history h) q inside)
        (λ q w inside asked. P.signs_out s.inner (inner_history h) q w inside asked) legal };

    ghost given_is_told = { λ t r same. end_given_told P.given_reply P.op_reply P.given_is_told t r same };

    ghost only_refusals_are_own = { λ s h p r legal told own. end_refusals P.plain_ask P.given_reply P.IsAsk P.weighs P.most P.is_legal s h p
        P.op_reply r legal told own (λ q inside said. P.only_refusals_are_own s.inner (inner_history h) q r inside said own) };

    ghost signs_out = { λ s h p w legal asked. end_signs_out P.plain_ask P.given_reply P.IsAsk P.weighs P.most P.is_legal s h p P.notices w legal asked
        (λ q inside plain. P.signs_out s.inner (inner_history h) q w inside plain) };

    ghost notices_are = { λ s h p legal. end_notices_tell P.plain_ask P.given_reply P.IsAsk P.weighs P.most P.is_legal s h p P.notices P.provided legal
        (λ q inside. P.notices_are s.inner (inner_history h) q inside) };

    ghost reads_requests = { λ c request a same. P.reads_requests c request a
        (reading.plain_read P.plain_ask P.prepared P.from_op c request a same) };

    ghost plain_of = { P.plain_of };
}

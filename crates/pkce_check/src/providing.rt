// The core as one that the provider is in.

ghost use Rattle.std.specs.Prelude.{◌≡◌, IfOk};
ghost use Rattle.std.specs.Option.{option_copied};
ghost use Rattle.pkce_check.specs.Prepared as spec;

use crate::pkce_core::PkceCore;
use crate::reading::{read_challenge, read_verifier};
use crate::step::known;
use client_registry::Registry;
use code_grant::CodeRow;
use core_stack::Provides;
use op_exchange::{OpAsk, OpReply};
use op_response::op_http;
use pkce_answer::{Challenge, PkceAsk, PkceReply, Verifier};
use request_params::{form_of, posted};
use sso_base::{Ask, Entry, HttpReply, Messages, Moment, NoMemory, Word};
use std::alloc::Global;

// The challenge of a request.
fn challenge_asked(alloc: Global, request: &Ask, ask: Option<&OpAsk>) -> Result<Challenge, NoMemory>
    ensures { IfOk result (λ c. c ≡ spec.challenge_asked request.now (option_copied ask.entry)) }
{
    match ask {
        Some(OpAsk::Authorize { .. }) => read_challenge(alloc, form_of(request)),
        _ => Ok(Challenge::Absent),
    }
}

// The verifier of a request.
fn verifier_asked(alloc: Global, request: &Ask, ask: Option<&OpAsk>) -> Result<Verifier, NoMemory>
    ensures { IfOk result (λ v. v ≡ spec.verifier_asked request.now (option_copied ask.entry)) }
{
    match ask {
        Some(OpAsk::Token { .. }) => read_verifier(alloc, posted(&request.body)),
        _ => Ok(Verifier::Absent),
    }
}

// The request in an HTTP request that has this request of the inner core.
fn asked_around<P: Provides>(
    alloc: Global,
    request: &Ask,
    inner: P::Ask,
) -> Result<PkceAsk<P::Ask>, NoMemory>
    ensures { IfOk result (λ a. a ≡ spec.asked_around P.plain_ask request.now inner) }
{
    let challenge = challenge_asked(alloc, request, P::plain(&inner))?;
    let verifier = verifier_asked(alloc, request, P::plain(&inner))?;
    Ok(PkceAsk {
        inner,
        challenge,
        verifier,
    })
}

impl<P: Provides> Provides for PkceCore<P> {
    ghost use Rattle.sso_base.specs.Legal.{IsEntry};
    ghost use Rattle.core_stack.proofs.Stacking.{outer_adds, legal_inside};
    ghost use Rattle.pkce_answer.specs.Challenges.{IsPkceAsk};
    ghost use Rattle.pkce_answer.specs.Around.{passed, inner_history, outer_plain, outer_told, outer_given, outer_notices, outer_weight};
    ghost use Rattle.pkce_answer.specs.Answering.{IsPkceReply};
    ghost use Rattle.pkce_answer.proofs.Refusing.{pkce_is_around, outer_given_told, outer_refusals, outer_signs_out, outer_notices_tell};

    ghost provider_registry = { λ x. P.provider_registry x.inner };

    ghost provided = { λ h. P.provided (inner_history h) };

    ghost plain_ask = { outer_plain P.plain_ask };

    ghost op_reply = { outer_told P.op_reply };

    ghost given_reply = { outer_given P.given_reply };

    ghost notices = { outer_notices P.notices };

    ghost prepared = { λ c request. spec.asked_around P.plain_ask request (P.prepared c request) };

    ghost from_op = { λ a. spec.alone (P.from_op a) };

    ghost http_of = { spec.outer_http P.http_of };

    ghost IsAsk = { IsPkceAsk P.IsAsk };

    fn prepare(
        alloc: Global,
        registry: &Registry,
        request: &Ask,
    ) -> Result<PkceAsk<P::Ask>, NoMemory> {
        let inner = P::prepare(alloc, registry, request)?;
        asked_around::<P>(alloc, request, inner)
    }

    fn from_plain(alloc: Global, ask: OpAsk) -> Result<PkceAsk<P::Ask>, NoMemory> {
        Ok(PkceAsk {
            inner: P::from_plain(alloc, ask)?,
            challenge: Challenge::Absent,
            verifier: Verifier::Absent,
        })
    }

    fn plain<'a>(ask: &'a PkceAsk<P::Ask>) -> Option<&'a OpAsk> {
        P::plain(&ask.inner)
    }

    fn answer<'a>(reply: &'a PkceReply<P::Reply>) -> Option<&'a OpReply> {
        match reply {
            PkceReply::Through(reply) => P::answer(reply),
            PkceReply::Own(reply) => Some(reply),
        }
    }

    fn given<'a>(reply: &'a PkceReply<P::Reply>) -> Option<&'a OpReply> {
        match reply {
            PkceReply::Through(reply) => P::given(reply),
            PkceReply::Own(_) => None,
        }
    }

    fn messages<'a>(reply: &'a PkceReply<P::Reply>) -> Option<&'a Messages> {
        match reply {
            PkceReply::Through(reply) => P::messages(reply),
            PkceReply::Own(_) => None,
        }
    }

    fn code(&self, word: Word, at: Moment) -> Option<&CodeRow> {
        self.inner.code(word, at)
    }

    fn http(
        alloc: Global,
        registry: &Registry,
        reply: &PkceReply<P::Reply>,
    ) -> Result<HttpReply, NoMemory> {
        match reply {
            PkceReply::Through(reply) => P::http(alloc, registry, reply),
            PkceReply::Own(reply) => op_http(alloc, registry, reply),
        }
    }

    fn known(entry: Entry<PkceAsk<P::Ask>>) -> Entry<PkceAsk<P::Ask>>
        ensures same { result ≡ entry }
        ensures values { IsEntry (IsPkceAsk P.IsAsk) result }
    {
        known::<P>(entry)
    }

    ghost begins = { P.begins };

    ghost registry_is = { λ x y same. P.registry_is x.inner y.inner same };

    ghost is_provider = { λ x h legal. P.is_provider x.inner (inner_history h) legal.inner };

    ghost adds_what_it_gives = { λ s h p legal. outer_adds P.plain_ask P.given_reply (outer_plain P.plain_ask) (outer_given P.given_reply) passed
        (pkce_is_around P.plain_ask P.given_reply) P.provided h p
        (λ q is. P.adds_what_it_gives s (inner_history h) q
        (legal_inside (IsPkceAsk P.IsAsk) (IsPkceReply P.plain_ask P.given_reply) passed (outer_weight P.weighs) P.most P.is_legal s h p q is legal)) };

    ghost given_is_told = { λ t r same. outer_given_told P.given_reply P.op_reply P.given_is_told t r same };

    ghost only_refusals_are_own = { λ s h p r legal told own. outer_refusals P.plain_ask P.given_reply P.IsAsk P.weighs P.most P.is_legal s h p
        P.op_reply r legal told own (λ q inside said. P.only_refusals_are_own s (inner_history h) q r inside said own) };

    ghost signs_out = { λ s h p w legal asked. outer_signs_out P.plain_ask P.given_reply P.IsAsk P.weighs P.most P.is_legal s h p P.notices w legal asked
        (λ q inside plain. P.signs_out s (inner_history h) q w inside plain) };

    ghost notices_are = { λ s h p legal. outer_notices_tell P.notices P.provided h p
        (λ q is. P.notices_are s (inner_history h) q
        (legal_inside (IsPkceAsk P.IsAsk) (IsPkceReply P.plain_ask P.given_reply) passed (outer_weight P.weighs) P.most P.is_legal s h p q is legal)) };

    ghost reads_requests = { λ c request a same. P.reads_requests c request a same };

    ghost plain_of = { P.plain_of };
}

// A core that a relying party is in, as a role.

use client_registry::Registry;
use core_stack::{Relies, Sending};
use rp_exchange::{RpAsk, RpReply, is_small};
use rp_response::{browser_cookie, session_cookie};
use serving::Role;
use sso_base::{Answered, Ask, HttpReply, Message, Messages, NoMemory, Text};
use std::alloc::Global;
use std::marker::PhantomData;

/// The role of a relying party's server: a core of this type, which the party with this number in the registry is in.
#[derive(Drop)]
pub struct RpRole<'a, P> {
    pub registry: &'a Registry,
    pub party: u32,
    pub core: PhantomData<P>,
}

impl<'a, P: Relies + Send + Sync> Role for RpRole<'a, P> {
    ghost use Rattle.std.specs.Prelude.{refl, ◌<◌, length};
    ghost use Rattle.rp_exchange.specs.declared.ask.RpAsk.TheVariants as rp_ask;
    ghost use Rattle.core_stack.specs.Rounds.{rounds_of};
    ghost use Rattle.server_roles.specs.Roles.{party_manner};
    ghost use Rattle.server_roles.specs.Rounds.{rp_few_rounds, rp_fewer_rounds};

    type Core = P;

    /// The party is in the registry.
    ghost ready = { λ role. role.party < length role.registry.now.parties };

    ghost manner = { λ role. party_manner P.plain_ask P.rp_reply P.sent P.prepared P.tokens_prepared P.info_prepared P.from_rp P.http_of P.weighs
        role.registry.now role.party };

    ghost rounds = { λ reply. rounds_of (P.rp_reply reply) };

    fn cookies(&self, alloc: Global) -> Result<(Text, Text), NoMemory> {
        Ok((
            browser_cookie(alloc, self.registry, self.party)?,
            session_cookie(alloc, self.registry, self.party)?,
        ))
    }

    fn prepare(&self, alloc: Global, request: &Ask) -> Result<P::Ask, NoMemory> {
        P::prepare(alloc, self.registry, self.party, request)
    }

    fn proves(&self, _request: &Ask) -> bool {
        false
    }

    fn question(&self, alloc: Global, reply: &P::Reply) -> Result<Option<Message>, NoMemory> {
        match P::message(alloc, reply)? {
            Some(Sending { message, .. }) => Ok(Some(message)),
            None => Ok(None),
        }
    }

    fn prepare_answer(
        &self,
        alloc: Global,
        reply: &P::Reply,
        answer: &Answered,
    ) -> Result<P::Ask, NoMemory> {
        match P::answer(reply) {
            RpReply::Exchange { pending, .. } => {
                P::prepare_tokens(alloc, self.registry, self.party, *pending, answer)
            }
            RpReply::Fetch { pending, .. } => P::prepare_info(alloc, *pending, answer),
            _ => P::from_plain(alloc, RpAsk::NotHere),
        }
    }

    fn workers(&self) -> u32 {
        self.registry.party(self.party).settings.workers
    }

    fn takes(&self, ask: &P::Ask) -> bool {
        !self.registry.lasting() || is_small(P::plain(ask))
    }

    fn notices<'r>(&self, _reply: &'r P::Reply) -> Option<&'r Messages> {
        None
    }

    fn http(&self, alloc: Global, reply: &P::Reply) -> Result<HttpReply, NoMemory> {
        P::http(alloc, self.registry, self.party, reply)
    }

    ghost same_weights = { λ _. refl };

    ghost few_rounds = { λ _ reply. rp_few_rounds P.rp_reply P.sent P.sends_in_exchanges reply };

    ghost fewer_rounds = { λ role s before pair reply answer legal asked question.
        rp_fewer_rounds P.rp_reply P.sent P.sends_in_exchanges (P.tokens_prepared role.registry.now role.party) P.info_prepared
        (P.from_rp rp_ask.NotHere) pair.entry.ask answer reply pair.reply
        (λ w is. P.tokens_end s before pair role.registry.now role.party w answer legal is) (λ w is. P.info_ends s before pair w answer legal is)
        asked question };
}

// A core that the provider is in, as a role.

ghost use Rattle.std.specs.Prelude.{◌≡◌};
ghost use Rattle.std.specs.Option.{option_copied};
ghost use Rattle.server_roles.specs.Roles.{is_small_if};

use client_registry::Registry;
use core_stack::Provides;
use op_exchange::{OpAsk, is_small};
use op_request::is_login;
use op_response::{browser_cookie, session_cookie};
use serving::Role;
use sso_base::{Answered, Ask, HttpReply, Message, Messages, NoMemory, Text};
use std::alloc::Global;
use std::marker::PhantomData;

/// The role of the provider's server: a core of this type, which the provider of this registry is in.
#[derive(Drop)]
pub struct OpRole<'a, P> {
    pub registry: &'a Registry,
    pub core: PhantomData<P>,
}

// Whether the provider's request in a request is small. If there is none, the tables keep nothing of the request.
fn is_small_if(ask: Option<&OpAsk>) -> bool
    ensures { result ≡ is_small_if (option_copied ask.entry) }
{
    match ask {
        Some(ask) => is_small(ask),
        None => true,
    }
}

impl<'a, P: Provides + Send + Sync> Role for OpRole<'a, P> {
    ghost use Rattle.std.specs.Prelude.{refl};
    ghost use Rattle.server_roles.specs.Roles.{provider_manner};
    ghost use Rattle.std.proofs.Common.{arith};

    type Core = P;

    ghost ready = { λ _. Unit {0} };

    ghost manner = { λ role. provider_manner P.plain_ask P.notices P.prepared P.from_op P.http_of P.weighs role.registry.now };

    ghost rounds = { λ _. 0 };

    fn cookies(&self, alloc: Global) -> Result<(Text, Text), NoMemory> {
        Ok((
            browser_cookie(alloc, self.registry)?,
            session_cookie(alloc, self.registry)?,
        ))
    }

    fn prepare(&self, alloc: Global, request: &Ask) -> Result<P::Ask, NoMemory> {
        P::prepare(alloc, self.registry, request)
    }

    fn proves(&self, request: &Ask) -> bool {
        is_login(self.registry, request)
    }

    fn question(&self, _alloc: Global, _reply: &P::Reply) -> Result<Option<Message>, NoMemory> {
        Ok(None)
    }

    fn prepare_answer(
        &self,
        alloc: Global,
        _reply: &P::Reply,
        _answer: &Answered,
    ) -> Result<P::Ask, NoMemory> {
        P::from_plain(alloc, OpAsk::NotHere)
    }

    fn workers(&self) -> u32 {
        self.registry.workers()
    }

    fn takes(&self, ask: &P::Ask) -> bool {
        !self.registry.lasting() || is_small_if(P::plain(ask))
    }

    fn notices<'r>(&self, reply: &'r P::Reply) -> Option<&'r Messages> {
        P::messages(reply)
    }

    fn http(&self, alloc: Global, reply: &P::Reply) -> Result<HttpReply, NoMemory> {
        P::http(alloc, self.registry, reply)
    }

    ghost same_weights = { λ _. refl };

    ghost few_rounds = { λ _ _. (Prim.omega arith, λ question. Prim.absurd (question refl)) };

    ghost fewer_rounds = { λ _ _ _ _ _ _ _ _ question. Prim.absurd (question refl) };
}

// The role over the counting core.

use crate::tally::Tally;
use crate::tick::Tick;
use http_reply::plain;
use serving::Role;
use sso_base::{Answered, Ask, HttpReply, Message, Messages, Method, NoMemory, Text};
use std::alloc::Global;

/// The extra weight of each request: two such requests exceed the limit of a history.
const HEAVY: u32 = 200_000_000;

/// Whatever the HTTP request is, the core receives one more request, and replies with one line. Each POST proves a password.
#[derive(Drop)]
pub struct TallyRole;

impl Role for TallyRole {
    ghost use Rattle.std.specs.Prelude.{refl};
    ghost use Rattle.std.proofs.Common.{arith};
    ghost use Rattle.serve_cases.specs.Tally.{tally_manner};

    type Core = Tally;

    ghost ready = { λ _. Unit {0} };

    ghost manner = { λ _. tally_manner };

    ghost rounds = { λ _. 0 };

    fn cookies(&self, alloc: Global) -> Result<(Text, Text), NoMemory> {
        Ok((Text::new(alloc, "one")?, Text::new(alloc, "two")?))
    }

    fn prepare(&self, _alloc: Global, _request: &Ask) -> Result<Tick, NoMemory> {
        Ok(Tick { more: HEAVY })
    }

    fn proves(&self, request: &Ask) -> bool {
        match request.method {
            Method::Post => true,
            _ => false,
        }
    }

    fn question(&self, _alloc: Global, _reply: &u64) -> Result<Option<Message>, NoMemory> {
        Ok(None)
    }

    fn prepare_answer(
        &self,
        _alloc: Global,
        _reply: &u64,
        _answer: &Answered,
    ) -> Result<Tick, NoMemory> {
        Ok(Tick { more: HEAVY })
    }

    fn workers(&self) -> u32 {
        64
    }

    fn takes(&self, _ask: &Tick) -> bool {
        true
    }

    fn notices<'r>(&self, _reply: &'r u64) -> Option<&'r Messages> {
        None
    }

    fn http(&self, alloc: Global, _reply: &u64) -> Result<HttpReply, NoMemory> {
        plain(alloc, 200, "counted")
    }

    ghost same_weights = { λ _. refl };

    ghost few_rounds = { λ _ _. (Prim.omega arith, λ question. Prim.absurd (question refl)) };

    ghost fewer_rounds = { λ _ _ _ _ _ _ _ _ question. Prim.absurd (question refl) };
}

// A call: one step of the core, in turn.

ghost use Rattle.std.specs.Prelude.{◌≡◌, ◌<◌, ℕ, length, Err, IfOk, OnErr};
ghost use Rattle.sso_base.specs.Journal.{extended};
ghost use Rattle.turn_store.specs.Places.{Begins, before_last};
ghost use Rattle.turn_store.specs.Passes.{number_of, front_of, calls_of, pair_of, setup_of, IsPassOf, IsAfterSeen, HasCalled, SeesFull};

use crate::calls::Placed;
use crate::store::{Pass, Turn};
use crate::taking::{count_entry, leave_full, leave_turn, take_turn};
use sso_base::{Core, CoreNo, Moment, Word};
use std::alloc::Global;
use std::sync::Wait;

impl<C: Core + Send> Turn<C> {
    /// Steps the core once it is this pass's turn, and returns the core's reply. The pass must be one of this store. The call
    /// may wait for another pass. The entry has the four random words, and the later of this moment and the last entry's.
    ///
    /// # Errors
    ///
    /// - `NoMemory` if memory ran out: the pass has seen nothing new.
    /// - `JournalFull` if the core's history is too heavy for the entry: the pass has seen that history.
    pub fn call<R: Wait>(
        &self,
        rt: &R,
        alloc: Global,
        pass: &mut Pass<C>,
        at: Moment,
        fresh: [Word; 4],
        ask: C::Ask,
    ) -> Result<Placed<C::Reply>, CoreNo>
        requires { IsPassOf C.setup C.is_legal self.now pass.old }
        ensures pass { IsPassOf C.setup C.is_legal self.now pass.new }
        ensures number { number_of pass.new ≡ number_of pass.old }
        ensures entry { IfOk result (λ placed. front_of pass.new ≡ extended (before_last (front_of pass.new)) at fresh ask placed.reply) }
        ensures front { IfOk result (λ placed. Begins (front_of pass.old) (before_last (front_of pass.new))) }
        ensures place { IfOk result (λ placed. placed.place ≡ length (front_of pass.new)) }
        ensures later { IfOk result (λ placed. IsAfterSeen pass.old placed.place) }
        ensures calls { IfOk result (λ placed. HasCalled pass.old pass.new placed.place (pair_of (before_last (front_of pass.new)) at fresh ask placed.reply)) }
        ensures refused { OnErr result (calls_of pass.new ≡ calls_of pass.old) }
        ensures no_memory { (result ≡ Err CoreNo.NoMemory) → front_of pass.new ≡ front_of pass.old }
        ensures full { (w : ℕ) → (result ≡ Err (CoreNo.JournalFull w)) → SeesFull C.weighs (C.most (setup_of C.setup self.now)) pass.old pass.new ask w }
    {
        let mut core = take_turn(rt, &self.table.shared, &self.waiting, &mut pass.seat);
        match core.step(alloc, at, fresh, ask) {
            Ok(reply) => {
                let place = core.count();
                count_entry(&self.table.shared, &self.waiting, &mut pass.seat, core);
                pass.calls.push(place);
                Ok(Placed { reply, place })
            }
            Err(CoreNo::NoMemory) => {
                leave_turn(&self.table.shared, &self.waiting, &mut pass.seat, core);
                Err(CoreNo::NoMemory)
            }
            Err(CoreNo::JournalFull(weight)) => {
                leave_full(&self.table.shared, &self.waiting, &mut pass.seat, core);
                Err(CoreNo::JournalFull(weight))
            }
        }
    }
}

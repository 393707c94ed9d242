// Permits are taken and given back.

ghost use Rattle.std.specs.Prelude.{◌≡◌, IfOk, IfErr};
ghost use Rattle.work_permits.specs.Permitted.{most_of, IsPermitOf, IsRefusalOf, SitsAt};

use crate::permits::{AllTaken, Permit, Permits};
use crate::rule::{Giving, Looking, PermitSeat, Sitting, Taking};
use atomic_table::Table;
use sso_base::NoMemory;
use std::alloc::Global;
use std::sync::Wait;

impl Permits {
    /// So many permits, none of which is out.
    ///
    /// # Errors
    ///
    /// `NoMemory` if memory ran out.
    #[tactic(auto, using(crate::proofs::Counting::opens))]
    pub fn new(alloc: Global, most: u32) -> Result<Permits, NoMemory>
        ensures { IfOk result (λ permits. most_of permits ≡ most) }
    {
        let most = u64::from(most);
        let (table, _seat) = Table::of_words(alloc, &[0], &most)?;
        Ok(Permits { table, most })
    }

    // A new seat, which knows nothing.
    #[tactic(auto, using(crate::proofs::Counting::sits))]
    fn sit(&self) -> PermitSeat
        ensures { SitsAt self.now result }
    {
        let (_found, seat) = self.table.shared.load_new_seat::<Sitting>(0);
        seat
    }

    /// Takes a permit, or says that all are taken. It does not wait for one. It tries again only if another thread took or gave one
    /// in between.
    #[tactic(auto, using(crate::proofs::Counting::looks, crate::proofs::Counting::takes))]
    pub fn try_take<R: Wait>(&self, rt: &R) -> Result<Permit, AllTaken>
        ensures taken { IfOk result (IsPermitOf self.now) }
        ensures none { IfErr result (IsRefusalOf self.now) }
    {
        let shared = &self.table.shared;
        let mut seat = self.sit();
        for _ in rt.forever() {
            let out = shared.load::<Looking>(&mut seat, 0);
            if out >= self.most {
                return Err(AllTaken { seat });
            }
            let found = shared.compare_exchange::<Taking>(&mut seat, 0, out, out + 1);
            if found == out {
                return Ok(Permit { seat });
            }
        }
        unreachable!()
    }

    /// Takes a permit. It waits until one is free.
    #[tactic(auto, using(crate::proofs::Counting::takes))]
    pub fn take<R: Wait>(&self, rt: &R) -> Permit
        ensures { IsPermitOf self.now result }
    {
        let shared = &self.table.shared;
        let mut seat = self.sit();
        for _ in rt.forever() {
            let out = shared.peek(0);
            if out < self.most {
                let found = shared.compare_exchange::<Taking>(&mut seat, 0, out, out + 1);
                if found == out {
                    return Permit { seat };
                }
            } else {
                shared.park(rt, 0, self.most as u32);
            }
        }
        unreachable!()
    }

    /// Gives a permit back, and wakes one of the threads that wait.
    #[tactic(auto, using(crate::proofs::Counting::gives))]
    pub fn give(&self, permit: Permit)
        requires { IsPermitOf self.now permit }
    {
        let Permit { mut seat } = permit;
        let _found = self.table.shared.fetch_sub::<Giving>(&mut seat, 0, 1);
        self.table.shared.wake_one(0);
    }
}

ghost use Rattle.std.specs.Prelude.{ℕ, Option};
ghost use Rattle.server_desk.specs.Ahead.{IsTold, MovedOn};

use sso_base::Moment;

/// The time.
pub trait Clock: Send + Drop {
    /// The moments that it will return, from 0, if they are known.
    ghost ahead: { Self → ℕ → Option ℕ };

    /// The current moment. It may be before the last one that was returned.
    fn now(&mut self) -> Moment
        ensures told { IsTold (ahead self.old 0) result }
        ensures moved { MovedOn (ahead self.old) (ahead self.new) 1 };
}

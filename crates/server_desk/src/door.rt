ghost use Rattle.std.specs.Prelude.{◌≡◌, ℕ, ◌<◌, ◌≤◌, Ok, None, IfOk, IfSome, OnOk, OnErr};
ghost use Rattle.sso_base.specs.Faults.{Rose, HasCause};
ghost use Rattle.server_desk.specs.Doors.{started, shared, with_served, GaveConnection};

use crate::connection::Connection;
use crate::source::Source;
use sso_base::{Sink, Text};

/// A call of a door failed.
#[derive(Clone, Copy, Debug, PartialEq, Eq)]
pub struct DoorFault;

/// Accepts connections.
pub trait Door: Send + Drop {
    ghost use Rattle.server_desk.specs.Doors.{DoorState};

    type Source: Source + Send + Drop;

    type Sink: Sink + Send + Drop;

    /// The place at which it listens, the connections to come and those given back, if they are known; the number of
    /// connections that it gave, and of those that are out.
    ghost state: { Self → DoorState Self.Source Self.Sink };

    /// How often it reported that it is closed.
    ghost closings: { Self → ℕ };

    /// How often it has failed.
    ghost faults: { Self → ℕ };

    /// Listens at this place, `HOST:PORT`. On an error its state is unchanged.
    fn start(&mut self, place: &Text) -> Result<(), DoorFault>
        ensures started { OnOk result (state self.new ≡ started (state self.old) place.now) }
        ensures kept { OnErr result (state self.new ≡ state self.old) }
        ensures later { closings self.old ≤ closings self.new }
        ensures cause { HasCause (faults self.old) (faults self.new) result };

    /// Listens at the place of the other door. On an error its state is unchanged.
    fn share(&mut self, first: &Self) -> Result<(), DoorFault>
        ensures shared { OnOk result (state self.new ≡ shared (state self.old) (state first.now)) }
        ensures kept { OnErr result (state self.new ≡ state self.old) }
        ensures later { closings self.old ≤ closings self.new }
        ensures cause { HasCause (faults self.old) (faults self.new) result };

    /// The next connection, or `None` if the door is closed.
    fn next(&mut self) -> Result<Option<Connection<Self::Source, Self::Sink>>, DoorFault>
        ensures gave { IfOk result (λ next. IfSome next (λ c. GaveConnection (state self.old) (state self.new) c)) }
        ensures closed { result ≡ Ok None → (state self.new ≡ state self.old) × Rose (closings self.old) (closings self.new) }
        ensures kept { OnErr result (state self.new ≡ state self.old) }
        ensures later { closings self.old ≤ closings self.new }
        ensures cause { HasCause (faults self.old) (faults self.new) result };

    /// Takes a served connection back, one of those that are out.
    fn done(&mut self, connection: Connection<Self::Source, Self::Sink>)
        requires out { 0 < (state self.old).out }
        ensures served { state self.new ≡ with_served (state self.old) connection }
        ensures later { closings self.old ≤ closings self.new }
        ensures faults { faults self.old ≤ faults self.new };
}

// Sets of clients.

ghost use Rattle.std.specs.Prelude.{◌≡◌, ◌<◌};
ghost use Rattle.client_registry.specs.ClientSets as spec;

use std::marker::Model;

// The greatest number of clients.
const CLIENTS: u32 = 128;

/// A set of client numbers below 128. It allocates nothing.
#[derive(Clone, Copy, PartialEq, Eq)]
pub struct ClientSet {
    flags: [bool; 128],
}

impl Model for ClientSet {
    ghost use Rattle.std.specs.Prelude.{List, Bool};

    ghost Value = { List Bool };

    ghost view = { λ c. c.flags };

    ghost inverse = { λ flags. record { flags = flags } };
}

impl ClientSet {
    /// The empty set.
    #[tactic(auto, unfolding(crate::specs::ClientSets::no_clients))]
    pub fn new() -> ClientSet
        ensures { result ≡ spec.no_clients }
    {
        ClientSet {
            flags: [false; 128],
        }
    }

    /// Whether the set contains this number.
    pub fn has(&self, client: u32) -> bool
        ensures { result ≡ spec.has_client client self.now }
    {
        client < CLIENTS && self.flags[client as usize]
    }

    /// Adds the number.
    pub fn add(&mut self, client: u32)
        requires { client < 128 }
        ensures { self.new ≡ spec.with_client client self.old }
    {
        self.flags[client as usize] = true;
    }
}

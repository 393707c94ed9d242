// Where a browser may be sent after a sign-out.

ghost use Rattle.std.specs.Prelude.{◌≡◌};
ghost use Rattle.end_request.specs.Returning.{has_return};

use sso_base::Texts;
use std::marker::Model;

/// Where a browser may be sent after a sign-out (RP-Initiated Logout 1.0, 3.1). The model is the list of the clients' lists of URIs,
/// in the order of the registry.
#[derive(Drop)]
pub struct Returns {
    clients: Vec<Texts>,
}

impl Model for Returns {
    ghost use Rattle.std.specs.Prelude.{List, ℕ};

    ghost Value = { List (List (List ℕ)) };

    ghost view = { λ r. r.clients.items };
}

impl Returns {
    // These, client by client.
    pub(crate) fn from_clients(clients: Vec<Texts>) -> Returns
        ensures { result ≡ clients.items }
    {
        Returns { clients }
    }

    /// Whether the URI is registered for the client with this number: one of its URIs has the same bytes. It allocates nothing.
    pub fn has(&self, client: u32, uri: &str) -> bool
        ensures { result ≡ has_return self.now client uri.now }
    {
        match self.clients.get(client as usize) {
            Some(uris) => uris.has(uri),
            None => false,
        }
    }
}

// The scopes that users have granted to clients.

ghost use Rattle.std.specs.Prelude.{◌≡◌, ◌<◌, ◌+◌, ◌*◌, length, IfOk};
ghost use Rattle.code_grant.specs.Consents as spec;

use oidc_words::Scopes;
use sso_base::NoMemory;
use std::alloc::Global;
use std::marker::Model;

// The number of pairs of 512 users and 128 clients.
const PAIRS: usize = 65_536;

/// The scopes that each user has granted to each client.
#[derive(Drop)]
pub struct Consents {
    scopes: Vec<Scopes>,
}

impl Model for Consents {
    ghost use Rattle.std.specs.Prelude.{◌≡◌, List, length};
    ghost use Rattle.oidc_words.specs.declared.scopes.Scopes.{Scopes};

    ghost Value = { List Scopes };

    ghost view = { λ c. c.scopes.items };

    ghost invariant = { λ c. length c.scopes.items ≡ 65536 };
}

impl Consents {
    /// No grants.
    #[tactic(auto, unfolding(crate::specs::Consents::no_consents))]
    pub fn new(alloc: Global) -> Result<Consents, NoMemory>
        ensures { IfOk result (λ c. c ≡ spec.no_consents) }
    {
        Ok(Consents {
            scopes: vec![in alloc; Scopes::none(); PAIRS]?,
        })
    }

    /// The scopes that the user has granted to the client.
    #[tactic(auto, unfolding(crate::specs::Consents::granted_to))]
    pub fn granted(&self, user: u32, client: u32) -> Scopes
        requires user { user < 512 }
        requires client { client < 128 }
        ensures scopes { result ≡ spec.granted_to user client self.now }
        ensures whole { length self.now ≡ 65536 }
    {
        self.scopes[place_of(user, client)]
    }

    /// Adds these scopes to those that the user has granted to the client.
    #[tactic(auto, unfolding(crate::specs::Consents::with_grant))]
    pub fn grant(&mut self, user: u32, client: u32, scopes: Scopes)
        requires user { user < 512 }
        requires client { client < 128 }
        ensures { self.new ≡ spec.with_grant user client scopes self.old }
    {
        let place = place_of(user, client);
        self.scopes[place] = self.scopes[place].joined(scopes);
    }
}

fn place_of(user: u32, client: u32) -> usize
    requires user { user < 512 }
    requires client { client < 128 }
    ensures value { result ≡ user * 128 + client }
    ensures bound { result < 65536 }
{
    user as usize * 128 + client as usize
}

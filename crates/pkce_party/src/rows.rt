// The verifiers of logins.

ghost use Rattle.std.specs.Prelude.{Some, None, refl};
ghost use Rattle.held_rows.specs.Held.{AnyRow, one_of};

use held_rows::{By, Row};
use oidc_words::LOGIN_LIFE;
use sso_base::{Moment, Word};

/// The verifier of a login. It lives as long as the login, for 600 seconds.
#[derive(Clone, Copy)]
pub struct VerifierRow {
    /// The `state` of the authorization request, which names the login.
    pub state: Word,
    /// The word whose text is the verifier (RFC 7636, 4.1).
    pub word: Word,
    /// When the login began.
    pub begun: Moment,
}

impl Row for VerifierRow {
    ghost use Rattle.oidc_words.specs.Lives.{login_life};
    ghost use Rattle.pkce_party.specs.Verifiers.{verifier_name, verifier_begun};

    ghost name = { verifier_name };

    ghost key = { λ by row. one_of (Some row.state) None None by };

    ghost begun = { verifier_begun };

    ghost IsSound = { AnyRow };

    ghost LIFE = { login_life };

    const LIFE: u32 = LOGIN_LIFE;

    fn key(&self, by: By) -> Option<&[u8]> {
        match by {
            By::Name => Some(self.state.as_bytes()),
            By::Group | By::OtherGroup => None,
        }
    }

    fn begun(&self) -> Moment {
        self.begun
    }

    ghost named = { λ row. refl };
}

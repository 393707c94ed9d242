// The rows that a pair makes.

ghost use Rattle.std.specs.Prelude.{◌≡◌, None};

use code_grant::{CodeRow, SessionRow, TokenRow, TurnRow};

/// The rows that a request and its reply make: at most one of each kind.
#[derive(Drop)]
pub struct Made {
    pub turn: Option<TurnRow>,
    pub session: Option<SessionRow>,
    pub code: Option<CodeRow>,
    pub token: Option<TokenRow>,
}

impl Made {
    /// No row.
    pub fn none() -> Made
        ensures { result ≡ record { turn = None; session = None; code = None; token = None } }
    {
        Made {
            turn: None,
            session: None,
            code: None,
            token: None,
        }
    }
}

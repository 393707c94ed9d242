// A successful authorization response.

ghost use Rattle.std.specs.Prelude.{◌≡◌, IfOk};

use sso_base::{NoMemory, Text, Word, copied_text};
use std::alloc::Global;

/// A successful authorization response (OpenID Connect Core 1.0, 3.1.2.5, 3.2.2.5 and 3.3.2.5). The response type decides which
/// parts are present.
#[derive(Drop)]
pub struct Answer {
    /// The client's redirect URI that the response is sent to.
    pub redirect: Text,
    /// Whether the response is in the fragment; otherwise it is in the query.
    pub fragment: bool,
    /// The code.
    pub code: Option<Word>,
    /// The access token.
    pub access: Option<Word>,
    /// The ID Token.
    pub id: Option<Text>,
    /// The request's state (RFC 6749, 4.1.2).
    pub state: Option<Text>,
}

impl Answer {
    /// A copy of the response.
    pub fn copy(&self, alloc: Global) -> Result<Answer, NoMemory>
        ensures { IfOk result (λ a. a ≡ self.now) }
    {
        Ok(Answer {
            redirect: self.redirect.copy(alloc)?,
            fragment: self.fragment,
            code: self.code,
            access: self.access,
            id: copied_text(alloc, &self.id)?,
            state: copied_text(alloc, &self.state)?,
        })
    }
}

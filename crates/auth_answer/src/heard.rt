// A response as a relying party receives it.

use oidc_words::AuthError;
use sso_base::{Text, Word};

/// A received authorization response. Each of its parts may be absent (OpenID Connect Core 1.0, 3.1.2.5, 3.1.2.6, 3.2.2.5 and
/// 3.3.2.5).
#[derive(Drop)]
pub struct Heard {
    /// The word whose text `state` is. A state that is not the text of a word belongs to no login, and counts as absent.
    pub state: Option<Word>,
    /// The error code. An undefined code is [`AuthError::Other`].
    pub error: Option<AuthError>,
    /// The code.
    pub code: Option<Text>,
    /// The access token.
    pub access: Option<Text>,
    /// The ID Token.
    pub id: Option<Text>,
}

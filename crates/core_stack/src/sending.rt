use sso_base::{Message, Word};

/// A message to the provider, and the word of the exchange that is waiting for the response (OpenID Connect Core 1.0, 3.1.3.1
/// and 5.3.1).
#[derive(Drop)]
pub struct Sending {
    /// The word of the exchange.
    pub pending: Word,
    /// The message.
    pub message: Message,
}

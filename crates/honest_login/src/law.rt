//! The theorem, as the contract of a function with an empty body.

ghost use Rattle.honest_login.specs.Laws.{HonestLoginsAlwaysSucceed};

/// Honest logins succeed. The registry must be one that was read, and each party trusts its provider. Take any legal world
/// whose words are distinct and in which time goes on, with any other requests, and any of the six response types. Each reply
/// of an honest login leads on, and after at most nine places the party begins a session for the browser. If the password was
/// given, the session is its user's.
pub fn honest_entry()
    ensures { HonestLoginsAlwaysSucceed }
{}

//! Lemmas about the provider's rows, as contracts of functions with empty bodies.

ghost use Rattle.honest_provider.specs.Laws.{TurnsPersist, CodesPersist, AccessTokensPersist, SessionsPersist, LiveTokensAreAnswered};

/// A row is unchanged by pairs that neither draw its word nor present it. This is true for a turn, a code that is not spent,
/// and an access token whose code is spared too. It is true for a session, except for the clients that it has answered.
pub fn rows_persist()
    ensures turns { TurnsPersist }
    ensures codes { CodesPersist }
    ensures accesses { AccessTokensPersist }
    ensures sessions { SessionsPersist }
{}

/// A UserInfo request with a live access token is answered with the claims that the token grants (OpenID Connect Core 1.0,
/// 5.3.2).
pub fn live_tokens_are_answered()
    ensures { LiveTokensAreAnswered }
{}

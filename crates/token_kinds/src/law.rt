// No token of one kind is accepted as one of the other.

ghost use Rattle.std.specs.Prelude.{◌≡◌, ℕ, List, None, codes};
ghost use Rattle.serde_json.specs.Find.{get_member};
ghost use Rattle.id_token.specs.declared.claims.IdClaims.{IdClaims};
ghost use Rattle.id_token.specs.Token.{IsIdToken};
ghost use Rattle.logout_token.specs.declared.claims.LogoutClaims.{LogoutClaims};
ghost use Rattle.logout_token.specs.Token.{IsLogoutToken};
ghost use Rattle.token_kinds.specs.Laws.{LogoutTokensAreNoIdTokens, LogoutTokensAreNotReadAsIdTokens, SealedLogoutTokensAreNoIdTokens};
ghost use Rattle.token_kinds.specs.Laws.{IdTokensAreNotReadAsLogoutTokens, SealedIdTokensAreNoLogoutTokens};

/// A logout token is not a good ID Token, for any keys, rules and moment, because it has no nonce. So a text sealed as a logout
/// token is not accepted as an ID Token.
pub fn logout_tokens_are_no_id_tokens()
    ensures apart { LogoutTokensAreNoIdTokens }
    ensures read { LogoutTokensAreNotReadAsIdTokens }
    ensures sealed { SealedLogoutTokensAreNoIdTokens }
{}

/// An ID Token with no `jti` among its other claims is no logout token, for any keys. So a text sealed as such an ID Token is
/// not read as a logout token.
pub fn id_tokens_are_no_logout_tokens()
    ensures apart { (k l t : List ℕ) (x : IdClaims) (y : LogoutClaims) → IsIdToken k t x → get_member (codes "jti") x.more ≡ None → IsLogoutToken l t y → ⊥ }
    ensures read { IdTokensAreNotReadAsLogoutTokens }
    ensures sealed { SealedIdTokensAreNoLogoutTokens }
{}

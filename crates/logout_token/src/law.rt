// Laws about logout tokens, for the crates above.

ghost use Rattle.std.specs.Prelude.{◌≡◌, ◌↔◌, ◌<◌, ◌^◌, ℕ, List, Ok, Err};
ghost use Rattle.claim_set.specs.Fitting.{ClaimsFit};
ghost use Rattle.claim_set.specs.Reading.{claims_read};
ghost use Rattle.claim_set.specs.declared.no.ClaimNo.{ClaimNo};
ghost use Rattle.jws_compact.specs.declared.no.JwsNo.{JwsNo};
ghost use Rattle.jws_compact.specs.declared.unsealing.Unsealed.{Unsealed};
ghost use Rattle.jws_compact.specs.Jws.{Sealed, Opens, verdict};
ghost use Rattle.logout_token.specs.declared.claims.LogoutClaims.{LogoutClaims};
ghost use Rattle.logout_token.specs.declared.no.LogoutNo.TheVariants as no;
ghost use Rattle.logout_token.specs.LogoutToken.{logout_members, logout_text, logout_read};
ghost use Rattle.logout_token.specs.Judging.{logout_judged, IsGoodLogoutToken};
ghost use Rattle.logout_token.specs.Token.{IsLogoutToken};
ghost use Rattle.logout_token.specs.Fitting.{HasTexts, IsSealable};
ghost use Rattle.logout_token.specs.Laws.{RefusedTokensHaveTheFirstReason, TokensWithoutReasonAreAccepted, GoodTokensAreRemembered};

/// A text is accepted if and only if it is a logout token under the key: a sealed claim set with the claims and the logout
/// event, and without a nonce (OpenID Connect Back-Channel Logout 1.0, 2.4).
pub fn read_tokens_are_sealed_claims()
    ensures token { (k t : List ℕ) (x : LogoutClaims) → logout_read k t ≡ Ok x → IsLogoutToken k t x }
    ensures read { (k t : List ℕ) (x : LogoutClaims) → IsLogoutToken k t x → logout_read k t ≡ Ok x }
{}

/// A text that is no logout token is rejected for the first of these reasons. It is not sealed under the key; its payload is no
/// claim set; or a condition of [`logout_refusals`] is true for its claims and its `typ`, the first of which counts.
pub fn refused_tokens_have_the_first_reason()
    ensures unopened { (k t : List ℕ) (e : JwsNo) → verdict k t ≡ Err e → logout_read k t ≡ Err (no.Jws e) }
    ensures unread { (k h p t : List ℕ) (e : ClaimNo) → Sealed k h p t → claims_read p ≡ Err e → logout_read k t ≡ Err (no.Claims e) }
    ensures refused { RefusedTokensHaveTheFirstReason }
    ensures accepted { TokensWithoutReasonAreAccepted }
{}

/// A text is rejected with `Jws` if and only if it is not sealed under the key, and the reason is the one for which it is not
/// (RFC 7515, 5.2). So a text that is accepted is sealed under the key.
pub fn unsealed_texts_are_refused()
    ensures unsealed { (k t : List ℕ) → ((e : JwsNo) × (logout_read k t ≡ Err (no.Jws e))) ↔ ((u : Unsealed) → ¬ Opens k t u) }
    ensures reason { (k t : List ℕ) (e : JwsNo) → (logout_read k t ≡ Err (no.Jws e)) ↔ (verdict k t ≡ Err e) }
    ensures sealed { (k t : List ℕ) (x : LogoutClaims) → logout_read k t ≡ Ok x → (u : Unsealed) × Opens k t u }
{}

/// The claim set of a logout token fits if the claims are values of their types.
pub fn claims_of_their_types_fit()
    ensures { (x : LogoutClaims) → HasTexts x → x.exp < 2 ^ 40 → x.iat < 2 ^ 40 → ClaimsFit (logout_members x) }
{}

/// Reading the text that is written for the claims of a logout token, under the same key, returns these claims.
pub fn sealed_claims_are_read()
    ensures { (k : List ℕ) (x : LogoutClaims) → IsSealable x → logout_read k (logout_text k x) ≡ Ok x }
{}

/// Verification accepts exactly the claims of a good logout token.
pub fn good_tokens_pass()
    ensures passes { (issuer client : List ℕ) (x : LogoutClaims) (at : ℕ) → IsGoodLogoutToken issuer client x at → logout_judged issuer client x at ≡ Ok tt }
    ensures good { (issuer client : List ℕ) (x : LogoutClaims) (at : ℕ) → logout_judged issuer client x at ≡ Ok tt → IsGoodLogoutToken issuer client x at }
{}

/// A logout token that is good at a moment is not good 661 seconds later or at any time after that. So a relying party that
/// remembers it for that long accepts it only once (OpenID Connect Back-Channel Logout 1.0, 2.6, step 8).
pub fn good_tokens_are_remembered()
    ensures { GoodTokensAreRemembered }
{}

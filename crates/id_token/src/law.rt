// Laws about ID Tokens, for the crates above.

ghost use Rattle.std.specs.Prelude.{◌≡◌, ◌↔◌, ℕ, List, Some, Ok, Err, IsOk};
ghost use Rattle.serde_json.specs.Data.{Members};
ghost use Rattle.sso_base.specs.Refusals.{first_refusal};
ghost use Rattle.claim_set.specs.declared.no.ClaimNo.{ClaimNo};
ghost use Rattle.claim_set.specs.Reading.{Reads, claims_read};
ghost use Rattle.jws_compact.specs.declared.no.JwsNo.{JwsNo};
ghost use Rattle.jws_compact.specs.declared.unsealing.Unsealed.{Unsealed};
ghost use Rattle.jws_compact.specs.Jws.{Sealed, Opens, verdict};
ghost use Rattle.id_token.specs.declared.claims.IdClaims.{IdClaims};
ghost use Rattle.id_token.specs.declared.rules.IdRules.{IdRules};
ghost use Rattle.id_token.specs.declared.no.IdNo.TheVariants as no;
ghost use Rattle.id_token.specs.Reading.{id_read, audience_in};
ghost use Rattle.id_token.specs.Sealing.{id_text, IsSealable};
ghost use Rattle.id_token.specs.Token.{IsIdToken, id_refusals};
ghost use Rattle.id_token.specs.Judging.{IsGoodIdToken, id_judged};
ghost use Rattle.id_token.specs.Laws.{RefusedTokensHaveTheFirstReason, ClaimsOfTheirTypesFit};

/// A text is accepted if and only if it is an ID Token under the key: a sealed claim set that contains the claims.
pub fn read_tokens_are_sealed_claims()
    ensures token { (k t : List ℕ) (x : IdClaims) → id_read k t ≡ Ok x → IsIdToken k t x }
    ensures read { (k t : List ℕ) (x : IdClaims) → IsIdToken k t x → id_read k t ≡ Ok x }
{}

/// A text that is no ID Token is rejected for the first of these reasons. It is not sealed under the key; its payload is no
/// claim set; or a condition of `id_refusals` is true, the first of which counts.
pub fn refused_tokens_have_the_first_reason()
    ensures unopened { (k t : List ℕ) (e : JwsNo) → verdict k t ≡ Err e → id_read k t ≡ Err (no.Jws e) }
    ensures unread { (k h p t : List ℕ) (e : ClaimNo) → Sealed k h p t → claims_read p ≡ Err e → id_read k t ≡ Err (no.Claims e) }
    ensures refused { RefusedTokensHaveTheFirstReason }
    ensures accepted { (k h p t : List ℕ) (ms : Members) → Sealed k h p t → Reads p ms → first_refusal (id_refusals ms) ≡ Ok tt → IsOk (id_read k t) }
{}

/// A text is rejected with `Jws` if and only if it is not sealed under the key, and the reason is the one for which it is not
/// (RFC 7515, 5.2). So a text that is accepted is sealed under the key.
pub fn unsealed_texts_are_refused()
    ensures unsealed { (k t : List ℕ) → ((e : JwsNo) × (id_read k t ≡ Err (no.Jws e))) ↔ ((u : Unsealed) → ¬ Opens k t u) }
    ensures reason { (k t : List ℕ) (e : JwsNo) → (id_read k t ≡ Err (no.Jws e)) ↔ (verdict k t ≡ Err e) }
    ensures sealed { (k t : List ℕ) (x : IdClaims) → id_read k t ≡ Ok x → (u : Unsealed) × Opens k t u }
{}

/// A text that is read as an ID Token, under some key, names the audience of its claims, whichever key that is.
pub fn read_tokens_name_their_audience()
    ensures { (k t : List ℕ) (x : IdClaims) → id_read k t ≡ Ok x → audience_in t ≡ Some x.aud }
{}

/// The claim set of an ID Token fits if the claims are values of their types.
pub fn claims_of_their_types_fit()
    ensures { ClaimsOfTheirTypesFit }
{}

/// Reading the sealed text of an ID Token's claims, under the same key, returns these claims.
pub fn sealed_claims_are_read()
    ensures { (k : List ℕ) (x : IdClaims) → IsSealable x → id_read k (id_text k x) ≡ Ok x }
{}

/// Verification accepts exactly the claims of a good ID Token.
pub fn good_tokens_pass()
    ensures passes { (rules : IdRules) (x : IdClaims) (at : ℕ) → IsGoodIdToken rules x at → id_judged rules x at ≡ Ok tt }
    ensures good { (rules : IdRules) (x : IdClaims) (at : ℕ) → id_judged rules x at ≡ Ok tt → IsGoodIdToken rules x at }
{}

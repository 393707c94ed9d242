// Laws about the words of the standards, for the crates above.

ghost use Rattle.std.specs.Prelude.{◌≡◌, ◌<◌, ◌↔◌, ◌&&◌, ◌||◌, ℕ, List, Some, None, is_some, slice_get, codes, decimal, ◌+◌, true, false};
ghost use Rattle.std.specs.List.{list_any};
ghost use Rattle.sso_base.specs.Words.{Text};
ghost use Rattle.oidc_words.specs.declared.scopes.Scopes.{Scopes};
ghost use Rattle.oidc_words.specs.Words.{is_one_of, parameter_words, chosen};
ghost use Rattle.oidc_words.specs.Scopes.{scope_words, scopes_among, scope_choices, scope_text, no_scopes, all_scopes, joined, covers};
ghost use Rattle.oidc_words.specs.Claims.{profile_claims, email_claims, address_claims, phone_claims, is_claim_of, is_standard_claim, scopes_with};
ghost use Rattle.oidc_words.specs.Claims.{scopes_with_any, kind_of};
ghost use Rattle.oidc_words.specs.declared.errors.AuthError.{AuthError};
ghost use Rattle.oidc_words.specs.Errors.{error_text, error_of, SaysError};
ghost use Rattle.oidc_words.specs.Lives.{code_usable, code_life, access_life, access_life_text, seen_life, leeway, oldest};
ghost use Rattle.oidc_words.specs.Types.{types_text, types_of_number, response_types, type_number, is_response_type, is_in_fragment};
ghost use Rattle.oidc_words.specs.Laws.{ResponseTypesAreReadInAnyOrder, ResponseTypesAreTheirWords};

/// `covers` is a partial order on sets of scope values. The greatest set has all of them, the smallest has none, and the union
/// of two sets is the smallest set that covers both.
pub fn scopes_are_ordered()
    ensures itself { (s : Scopes) → covers s s ≡ true }
    ensures same { (s t : Scopes) → covers s t ≡ true → covers t s ≡ true → s ≡ t }
    ensures through { (s t u : Scopes) → covers s t ≡ true → covers t u ≡ true → covers s u ≡ true }
    ensures all { (s : Scopes) → covers all_scopes s ≡ true }
    ensures none { (s : Scopes) → covers s no_scopes ≡ true }
    ensures either { (s t u : Scopes) → covers u (joined s t) ≡ (covers u s && covers u t) }
{}

/// If one set covers another, it requests each claim that the other requests. A union requests a claim if and only if one of
/// the two sets does. The empty set requests none.
pub fn covering_scopes_ask_for_more()
    ensures covering { (s t : Scopes) (k : List ℕ) → covers s t ≡ true → is_claim_of t k ≡ true → is_claim_of s k ≡ true }
    ensures either { (s t : Scopes) (k : List ℕ) → is_claim_of (joined s t) k ≡ (is_claim_of s k || is_claim_of t k) }
    ensures none { (k : List ℕ) → is_claim_of no_scopes k ≡ false }
    ensures standard { (s : Scopes) (k : List ℕ) → is_claim_of s k ≡ true → is_standard_claim k ≡ true }
{}

/// A set of scope values requests a standard claim if and only if it has the scope value of that claim. Each claim has one. A
/// scope value is among those of several claims if and only if one of these claims belongs to it.
pub fn asked_claims_need_their_scopes()
    ensures asked { (s : Scopes) (k : List ℕ) → is_standard_claim k ≡ true → is_claim_of s k ≡ covers s (scopes_with k) }
    ensures openid { (ks : List (List ℕ)) → (scopes_with_any ks).openid ≡ false }
    ensures profile { (ks : List (List ℕ)) → (scopes_with_any ks).profile ≡ list_any (is_one_of profile_claims) ks }
    ensures email { (ks : List (List ℕ)) → (scopes_with_any ks).email ≡ list_any (is_one_of email_claims) ks }
    ensures address { (ks : List (List ℕ)) → (scopes_with_any ks).address ≡ list_any (is_one_of address_claims) ks }
    ensures phone { (ks : List (List ℕ)) → (scopes_with_any ks).phone ≡ list_any (is_one_of phone_claims) ks }
    ensures each { (k : List ℕ) (ks : List (List ℕ)) → is_one_of ks k ≡ true → covers (scopes_with_any ks) (scopes_with k) ≡ true }
{}

/// Exactly the standard claims have a kind. `sub` is not one of them, because no scope value requests it.
pub fn standard_claims_have_kinds()
    ensures kind { (k : List ℕ) → is_some (kind_of k) ≡ is_standard_claim k }
    ensures sub { kind_of (codes "sub") ≡ None }
{}

/// Reading the text of a set of scope values gives that set. The set of all scope values has all the words, in order.
pub fn scope_texts_are_read()
    ensures read { (s : Scopes) → scopes_among (parameter_words (Some (scope_text s))) ≡ s }
    ensures all { chosen (scope_choices all_scopes) ≡ scope_words }
{}

/// Reading the text of a response type gives that type, with its words in any order. The list of the six texts has it at the
/// type's number. A text that is read as a type has the words of that type, and the number is below six.
pub fn type_texts_are_read()
    ensures read { (n : ℕ) → n < 6 → type_number (types_text (types_of_number (Some n))) ≡ Some n }
    ensures any_order { ResponseTypesAreReadInAnyOrder }
    ensures order { (n : ℕ) → n < 6 → slice_get response_types n ≡ Some (types_text (types_of_number (Some n))) }
    ensures words { ResponseTypesAreTheirWords }
    ensures below { (t : Text) (n : ℕ) → type_number t ≡ Some n → n < 6 }
{}

/// A response is in the fragment if and only if its type is one of the six and is not `code`.
pub fn all_types_but_code_answer_in_the_fragment()
    ensures { (t : Text) → (is_in_fragment (types_of_number (type_number t)) ≡ true) ↔ ((is_response_type t ≡ true) × (t ≡ codes "code" → ⊥)) }
{}

/// `expires_in` is the life of an access token, in decimal. A code is kept until an access token issued in its last usable
/// second has expired. A logout token is remembered for one second longer than it could be accepted, with clocks that differ.
pub fn lives_fit_together()
    ensures expires_in { access_life_text ≡ decimal access_life }
    ensures codes { code_life ≡ code_usable + access_life }
    ensures seen { seen_life ≡ (oldest + leeway) + 1 }
{}

/// Reading the text of an error code gives that code. Any other text is read as [`AuthError::Other`].
pub fn error_codes_have_texts()
    ensures read { (code : AuthError) → error_of (error_text code) ≡ code }
    ensures says { (t : Text) (code : AuthError) → error_of t ≡ code → SaysError t code }
    ensures said { (t : Text) (code : AuthError) → SaysError t code → error_of t ≡ code }
{}

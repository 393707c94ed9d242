// Laws about claims, requests and responses, for the crates above.

ghost use Rattle.std.specs.Prelude.{◌≡◌, ◌≢◌, ℕ, List, false, Some, None, Ok, Err};
ghost use Rattle.serde_json.specs.Find.{get_member};
ghost use Rattle.sso_base.specs.Words.{Word, IsWord, word_text};
ghost use Rattle.sso_base.specs.declared.message.Answered.{Answered};
ghost use Rattle.claim_set.specs.declared.no.ClaimNo.{ClaimNo};
ghost use Rattle.claim_set.specs.Fitting.{ClaimsFit};
ghost use Rattle.claim_set.specs.Reading.{claims_read, Reads};
ghost use Rattle.client_registry.specs.declared.records.User.{User};
ghost use Rattle.client_registry.specs.Configuration.{Configuration};
ghost use Rattle.client_registry.specs.Numbers.{user_at};
ghost use Rattle.client_registry.specs.Registered.{IsRegistry};
ghost use Rattle.oidc_words.specs.declared.scopes.Scopes.{Scopes};
ghost use Rattle.oidc_words.specs.Claims.{is_standard_claim};
ghost use Rattle.userinfo.specs.declared.header.Bearer.TheVariants.{Absent, Given};
ghost use Rattle.userinfo.specs.declared.no.InfoNo.TheVariants as no;
ghost use Rattle.userinfo.specs.Held.{user_claims, held_members};
ghost use Rattle.request_params.specs.Scheme.{is_bearer, IsScheme};
ghost use Rattle.userinfo.specs.Header.{bearer_read, IsBearer};
ghost use Rattle.userinfo.specs.Request.{info_message};
ghost use Rattle.userinfo.specs.Answer.{info_read, IsUserInfo};
ghost use Rattle.userinfo.specs.Laws.{WantedClaimsAreHeld, UnwantedClaimsAreAbsent, OtherNamesAreAbsent, ClaimsHaveTheirKind, ConfiguredClaimsAreStandard};
ghost use Rattle.userinfo.specs.Laws.{UserInfoHasTheSubject, UserInfoHasWantedClaims, UserInfoHasNoOtherClaims, UserInfoFits, HeldClaimsAreShort};
ghost use Rattle.userinfo.specs.Laws.{UserInfoIsShort, OtherBearersAreUnreadable, SubjectsOfAnotherKindAreRefused, ResponsesWithoutSubjectAreRefused};
ghost use Rattle.userinfo.specs.Laws.{WrittenClaimsNameTheSubject};

/// A user's claims are those in the user's text. A wanted claim has the user's value, or is absent if the user has none. An
/// unwanted claim is absent, and so is every name that is no standard claim.
pub fn held_claims_are_wanted()
    ensures read { (c : Configuration) (n : ℕ) (u : User) → IsRegistry c → user_at c n ≡ Some u → Reads u.claims (user_claims c n) }
    ensures wanted { WantedClaimsAreHeld }
    ensures unwanted { UnwantedClaimsAreAbsent }
    ensures standard { OtherNamesAreAbsent }
{}

/// The users of a registry have only standard claims, each of its kind. So no claim of a user is withheld because it is not
/// standard. A configuration cannot give a user other claims.
pub fn configured_claims_are_standard()
    ensures held { (c : Configuration) (n : ℕ) (k : List ℕ) → IsRegistry c → is_standard_claim k ≡ false → get_member k (user_claims c n) ≡ None }
    ensures kind { ClaimsHaveTheirKind }
    ensures configured { ConfiguredClaimsAreStandard }
{}

/// UserInfo has the user's subject at the client as `sub`, and for every other name the user's wanted claim.
pub fn info_is_the_subject_and_held_claims()
    ensures subject { UserInfoHasTheSubject }
    ensures wanted { UserInfoHasWantedClaims }
    ensures unwanted { UserInfoHasNoOtherClaims }
{}

/// The claims that are returned about a user of a registry fit. Their text has at most 2,048 bytes, and with the subject, as
/// UserInfo, at most 3,587 bytes.
pub fn told_claims_fit()
    ensures held { (c : Configuration) (n : ℕ) (s : Scopes) (asked : List (List ℕ)) → IsRegistry c → ClaimsFit (held_members c n s asked) }
    ensures info { UserInfoFits }
    ensures held_length { HeldClaimsAreShort }
    ensures info_length { UserInfoIsShort }
{}

/// Each header has exactly one scheme. It gives a word if and only if it is `Bearer` in any case, one space and the text of the
/// word. Any other header with the scheme `Bearer` is unreadable, and all others count as absent.
pub fn headers_are_read_by_their_scheme()
    ensures one_scheme { (s t h : List ℕ) → IsScheme s h → IsScheme t h → s ≡ t }
    ensures scheme { (h : List ℕ) → (s : List ℕ) × IsScheme s h }
    ensures given { (h : List ℕ) (w : Word) → bearer_read (Some h) ≡ Given w → IsBearer h w }
    ensures read { (h : List ℕ) (w : Word) → IsBearer h w → bearer_read (Some h) ≡ Given w }
    ensures unreadable { OtherBearersAreUnreadable }
    ensures other { (s h : List ℕ) → IsScheme s h → is_bearer s ≡ false → bearer_read (Some h) ≡ Absent }
    ensures none { bearer_read None ≡ Absent }
{}

/// The header of a printed request with the text of a word gives that word.
pub fn printed_requests_are_read()
    ensures { (endpoint : List ℕ) (w : Word) → IsWord w → bearer_read (info_message endpoint (word_text w)).auth ≡ Given w }
{}

/// A response is accepted if and only if it is a UserInfo response, and the result is its subject.
pub fn read_answers_are_user_info()
    ensures info { (a : Answered) (t : List ℕ) → info_read a ≡ Ok t → IsUserInfo a t }
    ensures read { (a : Answered) (t : List ℕ) → IsUserInfo a t → info_read a ≡ Ok t }
{}

/// Any other response is rejected for the first reason: its status, its body, the kind of its `sub`, or that `sub` is absent.
pub fn refused_answers_have_the_first_reason()
    ensures status { (a : Answered) → a.status ≢ 200 → info_read a ≡ Err (no.Status a.status) }
    ensures unread { (a : Answered) (e : ClaimNo) → a.status ≡ 200 → claims_read a.body ≡ Err e → info_read a ≡ Err (no.Claims e) }
    ensures wrong_kind { SubjectsOfAnotherKindAreRefused }
    ensures no_sub { ResponsesWithoutSubjectAreRefused }
{}

/// Reading the written UserInfo claims of a user of a registry, with status 200, returns the user's subject at the client.
pub fn written_claims_name_the_subject()
    ensures { WrittenClaimsNameTheSubject }
{}

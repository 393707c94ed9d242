// Laws about validation, for the crates above.

ghost use Rattle.std.specs.Prelude.{◌≡◌, ◌⊎◌, ℕ, Bool, true, List};
ghost use Rattle.client_registry.specs.Configuration.{Configuration};
ghost use Rattle.client_registry.specs.Registered.{IsSubject};
ghost use Rattle.oidc_words.specs.Words.{is_filled};
ghost use Rattle.request_params.specs.declared.params.Params.{Params};
ghost use Rattle.auth_request.specs.declared.wish.Wish.{Wish};
ghost use Rattle.oidc_words.specs.declared.errors.Refusal.{Refusal};
ghost use Rattle.auth_request.specs.declared.wish.PageNo.{PageNo};
ghost use Rattle.auth_request.specs.declared.wish.PageNo.TheVariants as page;
ghost use Rattle.auth_request.specs.declared.wish.Verdict.TheVariants as verdict;
ghost use Rattle.auth_request.specs.Judgement.{judgement};
ghost use Rattle.auth_request.specs.Granted.{IsRegistered, IsWish, IsWishOf};
ghost use Rattle.auth_request.specs.Laws.{RegisteredUrisGetNoErrorPage, ErrorsAreInTheFragmentOfTheType, RequestsWithoutErrorsAreGranted};
ghost use Rattle.auth_request.specs.Laws.{IdTokenClaimsAreStandardMembers, UserInfoClaimsAreStandardMembers, SubjectsAreNamedByValueOrValues};
ghost use Rattle.auth_request.specs.Laws.{NamedSubjectsAreKept};

/// A response is sent only to a redirect URI that is registered for the request's client. An error page is shown if and only if
/// the request has no such URI: its client is unknown, or the URI is none of that client's (RFC 6749, 3.1.2.4).
pub fn answers_go_to_registered_uris()
    ensures refused { (c : Configuration) (p : Params) (b : Bool) (x : Refusal) → judgement c p b ≡ verdict.Refuse x → (n : ℕ) × IsRegistered c p n x.redirect }
    ensures granted { (c : Configuration) (p : Params) (b : Bool) (w : Wish) → judgement c p b ≡ verdict.Grant w → IsRegistered c p w.client w.redirect }
    ensures shown { RegisteredUrisGetNoErrorPage }
    ensures pages { (c : Configuration) (p : Params) (b : Bool) (y : PageNo) → judgement c p b ≡ verdict.Page y → (y ≡ page.Client) ⊎ (y ≡ page.Redirect) }
{}

/// An error response has the request's state. It is in the fragment if and only if the response type is one of the five other
/// than `code`, even if that type is none of the client's.
pub fn refusals_answer_as_the_type_does()
    ensures state { (c : Configuration) (p : Params) (b : Bool) (x : Refusal) → judgement c p b ≡ verdict.Refuse x → x.state ≡ p.state }
    ensures fragment { ErrorsAreInTheFragmentOfTheType }
{}

/// A granted wish has the contents of the parameters, and satisfies the invariant of wishes.
pub fn granted_wishes_are_the_requests()
    ensures of_request { (c : Configuration) (p : Params) (b : Bool) (w : Wish) → judgement c p b ≡ verdict.Grant w → IsWishOf p w }
    ensures keeps { (c : Configuration) (p : Params) (b : Bool) (w : Wish) → judgement c p b ≡ verdict.Grant w → IsWish c w }
{}

/// A request with a registered redirect URI is granted if no error's condition is true.
pub fn requests_without_errors_are_granted()
    ensures { RequestsWithoutErrorsAreGranted }
{}

/// If a `claims` parameter has the right form, the claims that it requests, in the ID Token and from the UserInfo endpoint, are
/// exactly the standard claims among its members (OpenID Connect Core 1.0, 5.5).
pub fn asked_claims_are_standard_members()
    ensures id_asked { IdTokenClaimsAreStandardMembers }
    ensures info_asked { UserInfoClaimsAreStandardMembers }
{}

/// A `claims` parameter that has the right form, and requests the claim `sub` in the ID Token, names subjects if and only if it
/// has `value` or `values` there (OpenID Connect Core 1.0, 5.5.1).
///
/// A text that is not empty is among the named subjects if and only if it is `value`, or an element of `values`. No subject of
/// a registry is empty.
pub fn named_subjects_are_kept()
    ensures there { SubjectsAreNamedByValueOrValues }
    ensures named { NamedSubjectsAreKept }
    ensures subjects { (t : List ℕ) → IsSubject t → is_filled t ≡ true }
{}

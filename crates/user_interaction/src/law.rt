// Laws about the need of a request, for the crates above.

ghost use Rattle.std.specs.Prelude.{◌≡◌, ◌≢◌, ℕ, Some, None};
ghost use Rattle.client_registry.specs.Configuration.{Configuration};
ghost use Rattle.auth_request.specs.declared.wish.Wish.{Wish};
ghost use Rattle.user_interaction.specs.declared.standing.Standing.{Standing};
ghost use Rattle.user_interaction.specs.declared.need.Need.TheVariants as need;
ghost use Rattle.user_interaction.specs.Need.{needed};
ghost use Rattle.user_interaction.specs.Answerable.{IsAnswerable};
ghost use Rattle.user_interaction.specs.Laws.{SilentRequestsShowNoLoginPage, SilentRequestsShowNoConsentPage, GivenConsentIsNotAsked, RefusalsHaveTheirCauses};

/// A request is answered if and only if there is a session whose user logged in for it, or recently enough, is one of the
/// requested users, and has consented (OpenID Connect Core 1.0, 3.1.2.1 to 3.1.2.4).
pub fn answered_requests_are_answerable()
    ensures session { (c : Configuration) (wish : Wish) (at : ℕ) → needed c wish None at ≢ need.Answer }
    ensures answerable { (c : Configuration) (wish : Wish) (s : Standing) (at : ℕ) → needed c wish (Some s) at ≡ need.Answer → IsAnswerable c wish s at }
    ensures answered { (c : Configuration) (wish : Wish) (s : Standing) (at : ℕ) → IsAnswerable c wish s at → needed c wish (Some s) at ≡ need.Answer }
{}

/// If `prompt` has `none` and requests no login, no page is shown (OpenID Connect Core 1.0, 3.1.2.1).
pub fn silent_requests_show_no_page()
    ensures login { SilentRequestsShowNoLoginPage }
    ensures consent { SilentRequestsShowNoConsentPage }
{}

/// No consent page is shown for a client that does not require consent.
pub fn given_consent_is_not_asked()
    ensures { GivenConsentIsNotAsked }
{}

/// A request is refused only for these causes: a login or a consent is needed and `prompt` is `none`, or the user who logged in
/// for it is none of the requested users (OpenID Connect Core 1.0, 3.1.2.6).
pub fn refusals_have_their_causes()
    ensures { RefusalsHaveTheirCauses }
{}

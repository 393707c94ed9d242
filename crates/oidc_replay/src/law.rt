// What is true for every play, for the crates above.

ghost use Rattle.std.specs.Prelude.{◌≡◌, ◌<◌, ◌^◌, ℕ, suc, length, None, Some};
ghost use Rattle.client_registry.specs.Configuration.{Configuration};
ghost use Rattle.sso_places.specs.Premises.{HasDistinctWords, IsInOrder, IsJoined};
ghost use Rattle.trace_lines.specs.Lines.{places_after};
ghost use Rattle.trace_lines.specs.Order.{IsReadFor};
ghost use Rattle.trace_lines.specs.Trace.{Told};
ghost use Rattle.oidc_replay.specs.Play.{play_of};
ghost use Rattle.oidc_replay.specs.Laws.{RequestsAreFollowed, ResponsesAreFollowed, LoginFormsAreFilledIn, ConsentFormsAreFilledIn, TokenRequestsAreCarried};
ghost use Rattle.oidc_replay.specs.Laws.{UserInfoRequestsAreCarried, TokenResponsesGoBack, UserInfoResponsesGoBack, ReadTokensWereGiven};
ghost use Rattle.oidc_replay.specs.Laws.{UserInfoNeedsAHashedToken};

/// Two premises of the sign-on theorem are true for every play of fewer than 2^60 lines, by the way in which plays are made.
/// All words that the roles draw differ, and an answer of the provider comes under the number of the place that sent the
/// request. Each trace that is read has fewer lines.
pub fn plays_are_distinct_and_joined()
    ensures distinct { (c : Configuration) (told : Told) → length told.lines < 2 ^ 60 → HasDistinctWords (play_of c told).world }
    ensures joined { (c : Configuration) (told : Told) → length told.lines < 2 ^ 60 → IsJoined (play_of c told).world }
{}

/// Time goes on in the play of every trace that was read.
pub fn time_goes_on_in_plays()
    ensures { (c : Configuration) (told : Told) → IsReadFor c told → IsInOrder (play_of c told).world }
{}

/// The request that the last reply of a login calls for is what a line of a trace sends, with the cookies that the browser has:
///
/// - `follow` for a location,
/// - `login` for the login page,
/// - `consent` with `yes` for the consent page,
/// - `carry` for a message of the party,
/// - `back` for the provider's answer to it.
pub fn lines_do_what_is_asked()
    ensures follow_request { RequestsAreFollowed }
    ensures follow_response { ResponsesAreFollowed }
    ensures login { LoginFormsAreFilledIn }
    ensures consent { ConsentFormsAreFilledIn }
    ensures carry_tokens { TokenRequestsAreCarried }
    ensures carry_info { UserInfoRequestsAreCarried }
    ensures back_tokens { TokenResponsesGoBack }
    ensures back_info { UserInfoResponsesGoBack }
{}

/// A play that went to its end has as many places as its lines take. One that ended early ended before the place that was next.
pub fn plays_have_the_places_of_their_lines()
    ensures places { (c : Configuration) (told : Told) → (play_of c told).ended ≡ None → length (play_of c told).world ≡ places_after told.lines }
    ensures ended { (c : Configuration) (told : Told) (place : ℕ) → (play_of c told).ended ≡ Some place → place ≡ suc (length (play_of c told).world) }
{}

/// Of all that the roles of a legal world print, only a token response of the provider is read as one. What is read are the
/// access token and the ID Token that it has (OpenID Connect Core 1.0, 3.1.3.3).
pub fn tokens_that_are_read_were_given()
    ensures { ReadTokensWereGiven }
{}

/// In a play the last ID Token of a login that requests UserInfo has an `at_hash`. The ID Token of an authorization response
/// must have it (OpenID Connect Core 1.0, 3.2.2.9). The ID Token of a token response is the provider's own, because in a play a
/// party is handed what was printed, and the provider's always has it (3.1.3.6).
pub fn user_info_is_asked_for_with_hashed_tokens()
    ensures { UserInfoNeedsAHashedToken }
{}

//! Laws of worlds, as contracts of functions that do nothing.

ghost use Rattle.std.specs.Prelude.{◌≡◌, true, false, codes};
ghost use Rattle.authorization.specs.Laws.{UnforgedTokensAreNeeded};
ghost use Rattle.honest_places.specs.Conditions.{Condition, free_rows};
ghost use Rattle.honest_worlds.specs.Needed.{FailsWithout};
ghost use Rattle.honest_worlds.specs.Whole.{IsWholeLogin};

/// The definition of an honest login is met to its end: there is a whole login of each of the six response types, without
/// UserInfo or with it. It has the login page, the consent page and the answer, then the exchange of the code and the UserInfo
/// request if the party wants them, and the session.
///
/// So the sign-on theorem is not empty: the worlds of these logins keep all its premises together, and each ends with a session
/// that the sign-on machine and the party hold. Nor are the laws of authorization: no access token is shared in these worlds, and
/// in those with UserInfo the provider answers claims to the party's server.
pub fn whole_logins_are_honest()
    ensures code { IsWholeLogin (codes "code") false 7 }
    ensures code_with_info { IsWholeLogin (codes "code") true 9 }
    ensures id_token { IsWholeLogin (codes "id_token") true 5 }
    ensures id_token_token { IsWholeLogin (codes "id_token token") false 5 }
    ensures id_token_token_with_info { IsWholeLogin (codes "id_token token") true 7 }
    ensures code_id_token { IsWholeLogin (codes "code id_token") true 9 }
    ensures code_token { IsWholeLogin (codes "code token") true 9 }
    ensures code_id_token_token { IsWholeLogin (codes "code id_token token") true 9 }
{}

/// No condition of an honest login can be left out, with one exception: that a full table makes logins fail is not shown here, since
/// a full table has 65,536 rows. For each of the others there is a login in a legal world that keeps all conditions but this one, and
/// fails:
///
/// - `party_may_ask`: the party's `prompt` is `none`. The provider refuses its authorization request.
/// - `right_password`: a wrong password is typed. The login page is shown again.
/// - `last_cookies`: the login form is posted with the cookie of another role. An error page is shown.
/// - `own_words`: somebody else sends the party's token request first. The party's own one is refused.
/// - `within_lives`: the login form is posted after ten minutes. An error page is shown.
/// - `code_in_time`: the code is redeemed after two minutes. The token request is refused.
/// - `token_in_time`: the browser brings the ID Token after six minutes. The party refuses the login.
/// - `recent_sign_in`: the user signed in during an earlier login, and consents 61 seconds later. The party's `max_age` is 60 seconds,
///   so the provider refuses its authorization request.
/// - `no_logout`: while the party waits for its tokens, somebody who has its client's secret sends it a logout token with the `sid`
///   of the login. The party refuses the login.
pub fn no_condition_can_be_left_out()
    ensures { (k : Condition) → (k ≡ free_rows → ⊥) → FailsWithout k }
{}

/// The law `claims_reach_the_client` of `authorization` needs that no token is forged. Without it there is a world that keeps all
/// other premises, and the claims go to the server of another client. A browser brings this client an access token that is not for
/// it, beside an ID Token that somebody sealed under this client's secret, with the half hash of the access token.
pub fn unforged_tokens_are_needed()
    ensures { UnforgedTokensAreNeeded }
{}

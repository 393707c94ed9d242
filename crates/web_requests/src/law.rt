// Lemmas about the requests of browsers and servers, for the crates above.

ghost use Rattle.std.specs.Prelude.{◌≡◌, ℕ, Some, is_some};
ghost use Rattle.client_registry.specs.Configuration.{Configuration};
ghost use Rattle.op_exchange.specs.declared.ask.OpAsk.TheVariants as op_ask;
ghost use Rattle.sso_places.specs.declared.types.Jar.{Jar};
ghost use Rattle.sso_places.specs.declared.types.WorldReply.{WorldReply};
ghost use Rattle.web_requests.specs.declared.location.Location.{Location};
ghost use Rattle.web_requests.specs.Following.{receiver, followed};
ghost use Rattle.web_requests.specs.Visiting.{signed_out};
ghost use Rattle.web_requests.specs.Carrying.{carried};
ghost use Rattle.web_requests.specs.declared.sent.Sent.{Sent};
ghost use Rattle.web_requests.specs.Arriving.{Arrives};
ghost use Rattle.web_requests.specs.Asked.{AsksProvider};
ghost use Rattle.web_requests.specs.Laws.{AuthorizationRequestsAreFollowed, ResponsesAreFollowed, ErrorResponsesAreFollowed, MixedNameHasOtherValue};
ghost use Rattle.web_requests.specs.Laws.{OtherNamesKeepTheirValues, MixedLocationKeepsItsReceiver, MixesIfBothHaveTheName, OwnSubjectForgesNothing};
ghost use Rattle.web_requests.specs.Laws.{ForgedSubjectIsRead, ForgedResponsesAreFollowed, LoginFormsAreRead, ConsentFormsAreRead, LoginStartsAreRead};
ghost use Rattle.web_requests.specs.Laws.{VisitsAreRead, LocalSignOutsAreRead, TokenRequestsAreRead, UserInfoRequestsAreRead, LogoutRequestsAreRead};
ghost use Rattle.web_requests.specs.Laws.{TokenResponsesAreRead, UserInfoResponsesAreRead, FollowedRequestsArrive, HandedResponsesGoBack};

/// The request that follows a login's authorization request goes to the provider, which verifies the parameters of that login.
/// This is true with and without signed requests (OpenID Connect Core 1.0, 3.1.2.1, 3.1.2.2 and 6.1).
pub fn authorization_requests_are_followed()
    ensures { AuthorizationRequestsAreFollowed }
{}

/// The request that follows an authorization response goes to the party with its redirect URI. The party reads exactly the
/// parameters that were given, from the query as from the fragment, whatever query is registered (OpenID Connect Core 1.0,
/// 3.1.2.5, 3.1.2.6 and 3.2.2.5). An ID Token is verified under the secrets of the party's client.
pub fn responses_are_followed()
    ensures answer { ResponsesAreFollowed }
    ensures refusal { ErrorResponsesAreFollowed }
{}

/// A location is mixed if and only if both locations have a parameter with the name. The name then has the value of the other
/// location, every other name keeps its own, and the receiver is the same.
pub fn mixed_locations_differ_in_one_name()
    ensures value { MixedNameHasOtherValue }
    ensures others { OtherNamesKeepTheirValues }
    ensures receiver { MixedLocationKeepsItsReceiver }
    ensures exactly { MixesIfBothHaveTheName }
{}

/// A forged ID Token is sealed under the client's secret, not under its old one. With its own subject it has the same claims,
/// so it is unchanged if it was sealed under that secret. With another subject, the client reads it as the claims with that
/// subject. The request that follows a forged answer goes to the party with the answer's redirect URI. The party reads the
/// parameters of the answer, with this ID Token in place of the original one.
pub fn forged_tokens_differ_in_the_subject()
    ensures own { OwnSubjectForgesNothing }
    ensures other { ForgedSubjectIsRead }
    ensures followed { ForgedResponsesAreFollowed }
{}

/// The provider reads a posted form as that of its page's turn: a login form as that of the user with that password, and a
/// consent form as the chosen answer.
pub fn posted_forms_are_read()
    ensures login { LoginFormsAreRead }
    ensures consent { ConsentFormsAreRead }
{}

/// The requests that a browser sends on its own are read as what they are named for, with the cookie that the role looks at.
pub fn own_requests_are_read()
    ensures begin { LoginStartsAreRead }
    ensures visit { VisitsAreRead }
    ensures leave { LocalSignOutsAreRead }
    ensures sign_out { (c : Configuration) (from : ℕ) (jar : Jar) → AsksProvider c from (Some (signed_out c from jar)) (op_ask.SignOut jar.second) }
{}

/// A carried message is read as what it contains. A client's token request is read as its grant, and a UserInfo request as its
/// access token (OpenID Connect Core 1.0, 3.1.3.1 and 5.3.1). A logout request is read as its logout token, verified under the
/// secrets of the client of the first party whose client has the logout URI (OpenID Connect Back-Channel Logout 1.0, 2.5).
pub fn carried_messages_are_read()
    ensures token { TokenRequestsAreRead }
    ensures info { UserInfoRequestsAreRead }
    ensures logout { LogoutRequestsAreRead }
{}

/// A party reads a response that is passed back, in the exchange that requested it, as what the provider returned: the tokens,
/// and the subject of the user whose claims it returned (OpenID Connect Core 1.0, 3.1.3.3 and 5.3.2).
pub fn handed_responses_are_read()
    ensures tokens { TokenResponsesAreRead }
    ensures info { UserInfoResponsesAreRead }
{}

/// The request that follows a location goes to its receiver, and exists if and only if there is a receiver. A carried message
/// is a request by a server. Both go to a role of the registry. A reply that is passed back goes to a party, under the number
/// of its request; none goes to the provider.
pub fn requests_go_to_roles()
    ensures followed { FollowedRequestsArrive }
    ensures exactly { (c : Configuration) (from : ℕ) (l : Location) (jar : Jar) → is_some (followed c from l jar) ≡ is_some (receiver c l) }
    ensures carried { (c : Configuration) (told : WorldReply) (number : ℕ) (s : Sent) → carried c told number ≡ Some s → Arrives c 0 s }
    ensures handed { HandedResponsesGoBack }
{}

//! The laws of authorization, as contracts of functions with empty bodies.

ghost use Rattle.authorization.specs.Laws.{GiftsAreAuthorized, InfoIsNeeded, IdTokensAreNeeded};
ghost use Rattle.authorization.specs.Laws.{InfoIsConsented, IdTokensAreConsented, RedeemedIdTokensAreConsented};
ghost use Rattle.authorization.specs.Laws.{AnswersReachTheirOwn, InfosReachTheirOwn, ClaimsReachTheClient};
ghost use Rattle.authorization.specs.Laws.{SecretCookiesAreNeeded, SecretAccessTokensAreNeeded};

/// What the provider gives is authorized, in every legal history:
///
/// - An authorization response, and each code, access token and ID Token in it, answers a request of a client for a user. The user
///   signed in with the right password, in a session that is live at that moment, and granted the client all that the request
///   needs.
/// - A token response goes to a request of the same client, for the code of such a response.
/// - A UserInfo response has the claims that the request names, of the same user. It goes to the bearer of an access token that
///   came in such an authorization or token response.
pub fn gifts_are_authorized()
    ensures { GiftsAreAuthorized }
{}

/// UserInfo answers, besides the subject, only claims that the user holds and that the request needs: those of its scope values,
/// and those of the scope values of the claims that it names. The same is true for the claims of a user in an ID Token (OpenID
/// Connect Core 1.0, 5.4 and 5.5).
pub fn claims_are_needed()
    ensures info { InfoIsNeeded }
    ensures id { IdTokensAreNeeded }
{}

/// UserInfo answers, besides the subject, only claims that the user granted the client. So do the ID Tokens of authorization
/// responses and of token responses. Either the client is registered as one that requires no consent, or a consent form of this
/// user said yes, for this client, to the scope value that has the claim (OpenID Connect Core 1.0, 3.1.2.4).
pub fn claims_are_consented()
    ensures info { InfoIsConsented }
    ensures id { IdTokensAreConsented }
    ensures redeemed { RedeemedIdTokensAreConsented }
{}

/// Take any legal world in which no cookie is used under another number.
///
/// - Each authorization response goes to a number that posted a login form with the right password of the user.
/// - Each token response goes to a number that showed a secret of the client, for the code of such a response.
/// - If no access token is shared, the claims of UserInfo go to the browser that got the access token, to the number that showed
///   the client's secret, or to the server of a party. The party is then this client, or the browser or the number brought it the
///   access token.
pub fn answers_reach_their_own()
    ensures answers { AnswersReachTheirOwn }
    ensures infos { InfosReachTheirOwn }
{}

/// Let random words and half hashes be distinct, no cookie leak, no token be forged and no access token be shared. Then the claims
/// of UserInfo that go to a server go to the server of the party that is the client. A party takes an access token from the answer
/// to its own token request, or beside an ID Token that is for itself and has its half hash (OpenID Connect Core 1.0, 3.2.2.9 and
/// 16.14).
pub fn claims_reach_the_client()
    ensures { ClaimsReachTheClient }
{}

/// Neither premise on what browsers keep secret can be left out: without it the claims reach somebody else, even under all other
/// premises. The registry is one that was read, each request is real, and each reply is the answer of its core. (That no token is
/// forged is needed too: `unforged_tokens_are_needed` of `honest_worlds`.)
///
/// - A browser posts the consent page with the cookies of the one that signed in, and gets the code.
/// - A browser asks UserInfo with the access token that the provider gave the shop's server.
pub fn no_premise_can_be_left_out()
    ensures cookies { SecretCookiesAreNeeded }
    ensures access { SecretAccessTokensAreNeeded }
{}

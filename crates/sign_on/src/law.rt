//! The theorem and further properties, as contracts of functions with empty bodies.

ghost use Rattle.sso_model.specs.Founded.{HoldsOnlyFounded, OnceEach};
ghost use Rattle.sso_places.specs.Agreement.{SignsOn};
ghost use Rattle.sso_places.specs.Reading.{machine_of};
ghost use Rattle.sso_places.specs.Site.{Site};
ghost use Rattle.sso_places.specs.World.{World};
ghost use Rattle.sign_on.specs.Laws.{LegalWorldsSignOn, AnswersGoToTheBrowserThatAsked, LegalWorldsAreBound, LegalityIsNeeded, DistinctWordsAreNeeded};
ghost use Rattle.sign_on.specs.Laws.{SecretCookiesAreNeeded, UnforgedTokensAreNeeded, JoinedAnswersAreNeeded};

/// The sign-on theorem. The registry must be one that was read, and each party trusts a provider with its issuer. Take any
/// legal world that meets these premises: its random words are distinct, no cookie is used under another browser number, no
/// token is forged, and each answer of the provider comes under the number of its request. After each prefix of the world, its
/// reading is a run of the sign-on machine. The live rows of the machine are then, party by party and in order, the live
/// sessions of the party's history.
pub fn agreement()
    ensures { LegalWorldsSignOn }
{}

/// If the reading is such a run, each live session of the machine is founded. Its browser began that login there, and the
/// provider answered the login's nonce for that session's user, to a browser that had signed in as that user by password. No
/// login was entered twice, no answer redeemed twice, and no logout message accepted twice.
pub fn sessions_are_founded()
    ensures { (s : Site) (world : World) → SignsOn s world → HoldsOnlyFounded (machine_of s world) × OnceEach (machine_of s world) }
{}

/// Take any legal world in which no cookie is used under another number. If all authorization requests with a nonce came from
/// one browser, all answers to the nonce went to that browser.
pub fn same_browser()
    ensures { AnswersGoToTheBrowserThatAsked }
{}

/// Codes and access tokens are bound to ID Tokens (OpenID Connect Core 1.0, 3.1.3.8, 3.2.2.9 and 3.3.2.10). Needs the premises
/// of `agreement`, and that no two issued codes or access tokens have the same half hash.
///
/// - A party, whose response type has a code and an ID Token, exchanged the code of a response. The provider issued tokens for
///   that code. Then one earlier reply of the provider had the code together with the ID Token of the response.
/// - A party sent a UserInfo request with an access token, its last verified ID Token has an `at_hash`, and the provider answered
///   UserInfo for that access token. Then one earlier reply had the access token together with that ID Token.
pub fn binding()
    ensures { LegalWorldsAreBound }
{}

/// No premise of the sign-on theorem about worlds can be left out: without it the conclusion is false, even for a registry that
/// was read and under all other premises. The counterexamples are these, in the order of the clauses. In all but the first, each
/// request is real, and each reply is the answer of its core.
///
/// - The world is not legal: a browser leaves a session that nobody entered.
/// - The same words are drawn for two logins.
/// - A browser posts the consent page with the cookies of the one that signed in.
/// - A browser presents an ID Token that somebody else sealed under the client's secret.
/// - The token endpoint's answer comes under the number of another browser.
pub fn no_premise_can_be_left_out()
    ensures legal { LegalityIsNeeded }
    ensures words { DistinctWordsAreNeeded }
    ensures cookies { SecretCookiesAreNeeded }
    ensures tokens { UnforgedTokensAreNeeded }
    ensures answers { JoinedAnswersAreNeeded }
{}

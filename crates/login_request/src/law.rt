// Laws about the requests that begin logins, for the crates above.

ghost use Rattle.std.specs.Prelude.{◌≡◌, Some};
ghost use Rattle.sso_base.specs.Words.{Word, word_text};
ghost use Rattle.client_registry.specs.declared.records.Client.{Client};
ghost use Rattle.client_registry.specs.declared.records.Party.{Party};
ghost use Rattle.login_request.specs.Request.{login_params};
ghost use Rattle.login_request.specs.Laws.{LocationsHaveTheSentParameters, LoginRequestsAreRead, ParametersBesideAnObjectAreRead, LoginObjectsAreRead};
ghost use Rattle.login_request.specs.Laws.{SignedRequestsAreWhole, SignedLocationsEndWithTheObject, LoginRequestsHaveTheirWords};

/// A login begins at the authorization endpoint of the provider, with the form of the request as its query. If the party does
/// not sign its requests, reading this form returns the parameters of the login.
pub fn login_requests_are_read()
    ensures location { LocationsHaveTheSentParameters }
    ensures read { LoginRequestsAreRead }
{}

/// If the party signs its requests, reading the form returns the parameters outside the request object. Reading the object, as
/// one of its client for the provider's issuer, returns the parameters of the login. Merging both gives these parameters with
/// the object (OpenID Connect Core 1.0, 6.1).
pub fn signed_login_requests_are_read()
    ensures beside { ParametersBesideAnObjectAreRead }
    ensures object { LoginObjectsAreRead }
    ensures whole { SignedRequestsAreWhole }
{}

/// The location of a signed login ends with `&request=` and the text of its request object.
pub fn signed_locations_end_with_the_object()
    ensures { SignedLocationsEndWithTheObject }
{}

/// The `state` and the `nonce` of a request are the texts of its two words, and other words give another location.
pub fn login_requests_have_their_words()
    ensures state { (client : Client) (party : Party) (state nonce : Word) → (login_params client party state nonce).state ≡ Some (word_text state) }
    ensures nonce { (client : Client) (party : Party) (state nonce : Word) → (login_params client party state nonce).nonce ≡ Some (word_text nonce) }
    ensures apart { LoginRequestsHaveTheirWords }
{}

// Laws about the values that requests and responses produce.

ghost use Rattle.std.specs.Prelude.{◌≡◌, ℕ, List, [], true, IsFalse, codes, Some, Ok, Err};
ghost use Rattle.sso_base.specs.Words.{Word, Text};
ghost use Rattle.sso_base.specs.declared.http.Ask.{Ask};
ghost use Rattle.sso_base.specs.declared.message.Answered.{Answered};
ghost use Rattle.client_registry.specs.Configuration.{Configuration};
ghost use Rattle.request_params.specs.Form.{form_pairs};
ghost use Rattle.request_params.specs.Reading.{has_name, StandsTwice};
ghost use Rattle.jws_compact.specs.declared.no.JwsNo.TheVariants as jws_no;
ghost use Rattle.userinfo.specs.Answer.{IsUserInfo};
ghost use Rattle.logout_token.specs.declared.no.LogoutNo.TheVariants as logout_no;
ghost use Rattle.logout_token.specs.LogoutToken.{logout_read};
ghost use Rattle.rp_exchange.specs.declared.ask.RpAsk.TheVariants as ask;
ghost use Rattle.rp_exchange.specs.Asks.{is_prepared};
ghost use Rattle.rp_request.specs.declared.routes.Endpoint.{Endpoint};
ghost use Rattle.rp_request.specs.Prepared.{logout_token_in, prepared, tokens_prepared, info_prepared};
ghost use Rattle.rp_request.specs.Requests.{IsTo, own_endpoint, StandsAlone, HasCookies};
ghost use Rattle.rp_request.specs.Laws.{FragmentPagesAreWanted, WantedPagesAreAskedFor, ReadResponsesAreInTheForm, ResponsesInTheFormAreRead};
ghost use Rattle.rp_request.specs.Laws.{RefusedResponsesAreInTheForm, BadFormsAreRefused, IdTokensAreOpenedByASecret, IdTokensOfASecretAreAccepted};
ghost use Rattle.rp_request.specs.Laws.{ReadTokensAreInTheResponse, TokensInTheResponseAreRead, BadTokenResponsesAreRefused, IdTokensOfTokenResponsesAreOpened};
ghost use Rattle.rp_request.specs.Laws.{IdTokensOfTokenResponsesAreAccepted, ReadSubjectsAreInTheResponse, BadUserInfoResponsesAreRefused};
ghost use Rattle.rp_request.specs.Laws.{LogoutRequestsAreRead, LogoutTokensAreOpenedByASecret, LogoutTokensOfASecretAreAccepted};

/// A request gives `NotHere` if and only if it is to no endpoint: its path is not listed for its method, and is not that of the
/// redirect URI or of the logout URI. Any other value belongs to the endpoint that the request is to.
pub fn requests_are_told_by_method_and_path()
    ensures elsewhere { (c : Configuration) (n : ℕ) (request : Ask) → ((e : Endpoint) → ¬ IsTo c n request e) → prepared c n request ≡ ask.NotHere }
    ensures nothing { (c : Configuration) (n : ℕ) (request : Ask) (e : Endpoint) → prepared c n request ≡ ask.NotHere → ¬ IsTo c n request e }
    ensures own { (c : Configuration) (n : ℕ) (request : Ask) (e : Endpoint) → own_endpoint (prepared c n request) ≡ Some e → IsTo c n request e }
{}

/// The fragment page is requested by a GET of the redirect URI with an empty query, if the response is in the fragment for the
/// response type, and by no other request (OpenID Connect Core 1.0, 3.2.2.5).
pub fn the_page_is_asked_for_without_a_query()
    ensures wanted { FragmentPagesAreWanted }
    ensures asked { WantedPagesAreAskedFor }
{}

/// Any other authorization response is the form in the query of a GET, or in the body of a POST, of the redirect URI. It is
/// accepted if and only if no parameter name of a response occurs twice in the form. Otherwise it is rejected with the first
/// such name (RFC 6749, 3.1).
pub fn callbacks_are_read_from_forms()
    ensures heard { ReadResponsesAreInTheForm }
    ensures hears { ResponsesInTheFormAreRead }
    ensures refused { RefusedResponsesAreInTheForm }
    ensures refuses { BadFormsAreRefused }
{}

/// The ID Token in an authorization response is read as its claims if and only if it is an ID Token under a secret of the
/// party's client (OpenID Connect Core 1.0, 3.1.3.7, step 8; 10.1). Nothing is read if and only if there is none.
pub fn id_tokens_are_opened_by_a_secret()
    ensures opened { IdTokensAreOpenedByASecret }
    ensures accepted { IdTokensOfASecretAreAccepted }
{}

/// A token response is given to the exchange that is waiting for it. It is accepted, with its tokens, if and only if it is a
/// successful token response (Core 3.1.3.3). Otherwise it is rejected for the first reason, without an ID Token.
pub fn token_answers_are_read_for_their_exchange()
    ensures read { ReadTokensAreInTheResponse }
    ensures reads { TokensInTheResponseAreRead }
    ensures refuses { BadTokenResponsesAreRefused }
{}

/// The ID Token in a token response is read as its claims if and only if it is an ID Token under a secret of the party's
/// client.
pub fn token_answers_have_opened_id_tokens()
    ensures opened { IdTokensOfTokenResponsesAreOpened }
    ensures accepted { IdTokensOfTokenResponsesAreAccepted }
{}

/// A UserInfo response is given to the exchange that is waiting for it. It is accepted, with its subject, if and only if it is
/// a successful UserInfo response (Core 5.3.2). Otherwise it is rejected for the first reason.
pub fn info_answers_are_read_for_their_exchange()
    ensures read { ReadSubjectsAreInTheResponse }
    ensures reads { (pending : Word) (answer : Answered) (sub : Text) → IsUserInfo answer sub → info_prepared pending answer ≡ ask.Info pending (Ok sub) }
    ensures refuses { BadUserInfoResponsesAreRefused }
{}

/// A logout request is read as the logout token in its form. The result is the claims, if and only if it is a logout token
/// under a secret of the party's client, or why it is none (OpenID Connect Back-Channel Logout 1.0, 2.5 and 2.6).
pub fn logout_tokens_are_opened_by_a_secret()
    ensures reads { LogoutRequestsAreRead }
    ensures opened { LogoutTokensAreOpenedByASecret }
    ensures accepted { LogoutTokensOfASecretAreAccepted }
{}

/// The logout token of a form is the value of the only pair with the name `logout_token`. If no pair or several pairs have that
/// name, it is the empty text, which is rejected because it does not have three parts (OpenID Connect Back-Channel Logout 1.0,
/// 2.5; RFC 7515, 7.1).
pub fn the_one_logout_token_is_read()
    ensures one { (form : List ℕ) (t : Text) → StandsAlone (codes "logout_token") t (form_pairs form) → logout_token_in form ≡ t }
    ensures none { (form : List ℕ) → IsFalse (has_name (codes "logout_token") (form_pairs form)) → logout_token_in form ≡ [] }
    ensures several { (form : List ℕ) → StandsTwice (codes "logout_token") (form_pairs form) → logout_token_in form ≡ [] }
    ensures empty { (k : Text) → logout_read k [] ≡ Err (logout_no.Jws jws_no.NotThreeParts) }
{}

/// The value has the words of the request's cookies: the browser's is the first, the session's the second.
pub fn asks_have_the_cookies()
    ensures { (c : Configuration) (n : ℕ) (request : Ask) → HasCookies request (prepared c n request) }
{}

/// Reading requests and responses produces only possible values. An ID Token was read if and only if there is one, a logout
/// token that was read names a user or a session, and there is no `NoMemory` inside.
pub fn prepared_asks_are_given_by_requests()
    ensures request { (c : Configuration) (n : ℕ) (request : Ask) → is_prepared (prepared c n request) ≡ true }
    ensures answer { (c : Configuration) (n : ℕ) (pending : Word) (answer : Answered) → is_prepared (tokens_prepared c n pending answer) ≡ true }
    ensures info { (pending : Word) (answer : Answered) → is_prepared (info_prepared pending answer) ≡ true }
{}

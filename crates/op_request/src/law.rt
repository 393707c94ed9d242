// Laws about the values that requests produce.

ghost use Rattle.std.specs.Prelude.{◌≡◌, true, Some};
ghost use Rattle.sso_base.specs.declared.http.Ask.{Ask};
ghost use Rattle.client_registry.specs.Configuration.{Configuration};
ghost use Rattle.client_registry.specs.Registered.{IsRegistry};
ghost use Rattle.op_exchange.specs.declared.ask.OpAsk.TheVariants as ask;
ghost use Rattle.op_request.specs.declared.routes.Endpoint.{Endpoint};
ghost use Rattle.op_exchange.specs.Asks.{is_prepared};
ghost use Rattle.op_request.specs.Prepared.{prepared};
ghost use Rattle.op_request.specs.Requests.{IsTo, own_endpoint, RepeatsAName, HasCookies};
ghost use Rattle.op_request.specs.Laws.{SignedLoginsShowAPassword, ShownPasswordsSignLogins, LoginsAreToldByTheirPath};
ghost use Rattle.op_request.specs.Laws.{LoginFormsHaveTheirTurn, ConsentFormsHaveTheirTurn};
ghost use Rattle.op_request.specs.Laws.{AgreementIsInTheForm, GrantedWishesAreJudged, WholeRequestsAreJudged, JudgedWishesAreGranted};
ghost use Rattle.op_request.specs.Laws.{RequestsWithBadObjectsAreJudged};

/// A request gives `NotHere` if and only if it is to no endpoint: its path is not the provider's path followed by a path that
/// is listed for its method. Any other value, except `Twice`, belongs to the endpoint that the request is to.
pub fn requests_are_told_by_method_and_path()
    ensures elsewhere { (c : Configuration) (request : Ask) → ((e : Endpoint) → ¬ IsTo c request e) → prepared c request ≡ ask.NotHere }
    ensures nothing { (c : Configuration) (request : Ask) (e : Endpoint) → prepared c request ≡ ask.NotHere → ¬ IsTo c request e }
    ensures own { (c : Configuration) (request : Ask) (e : Endpoint) → own_endpoint (prepared c request) ≡ Some e → IsTo c request e }
{}

/// A request gives `Twice` if and only if it repeats a name (RFC 6749, 3.1): a field name of its login or consent form, with
/// any values, or a parameter of its authorization request, with values that are not empty.
pub fn repeated_names_are_refused()
    ensures twice { (c : Configuration) (request : Ask) → RepeatsAName c request → prepared c request ≡ ask.Twice }
    ensures cause { (c : Configuration) (request : Ask) → prepared c request ≡ ask.Twice → RepeatsAName c request }
{}

/// A login is signed as a user if and only if its form has that user's id and a password whose proof is the user's. A request is known to
/// be a login before it is read.
pub fn logins_are_signed_by_passwords()
    ensures shows { SignedLoginsShowAPassword }
    ensures signed { ShownPasswordsSignLogins }
    ensures told { LoginsAreToldByTheirPath }
{}

/// The turn of a login or of a consent is the word whose text the form's `turn` is. A consent is given if and only if the
/// form's `agree` is `yes`.
pub fn forms_have_their_turn()
    ensures login { LoginFormsHaveTheirTurn }
    ensures consent { ConsentFormsHaveTheirTurn }
    ensures agreed { AgreementIsInTheForm }
{}

/// A request is validated with its parameters merged with those of its request object, which must be one of the request's
/// client for this provider (OpenID Connect Core 1.0, 3.1.2.2 and 6.1). A wish is granted if and only if this validation grants
/// it. If the request object is not valid, or does not fit the parameters outside it, the parameters outside are validated as a
/// request whose object was rejected.
pub fn wishes_are_granted_by_the_judgement()
    ensures granted { GrantedWishesAreJudged }
    ensures judged { WholeRequestsAreJudged }
    ensures grants { JudgedWishesAreGranted }
    ensures refused { RequestsWithBadObjectsAreJudged }
{}

/// The value has the words of the request's cookies: the browser's is the first, the session's the second.
pub fn asks_have_the_cookies()
    ensures { (c : Configuration) (request : Ask) → HasCookies request (prepared c request) }
{}

/// Under a registry, reading a request produces only possible values: numbers of clients and users, wishes with a short nonce
/// and the scope value `openid`, and no `NoMemory` inside.
pub fn prepared_asks_are_given_by_requests()
    ensures { (c : Configuration) (request : Ask) → IsRegistry c → is_prepared c (prepared c request) ≡ true }
{}

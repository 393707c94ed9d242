// Laws about token requests and responses, for the crates above.

ghost use Rattle.std.specs.Prelude.{◌≡◌, ◌≢◌, ◌++◌, ℕ, List, [], true, false, codes, Option, Some, None, unwrap_or, Ok, Err, IsOk};
ghost use Rattle.std.specs.Str.{IsUtf8};
ghost use Rattle.serde_json.specs.Data.{Members};
ghost use Rattle.sso_base.specs.Refusals.{first_refusal, and_then};
ghost use Rattle.sso_base.specs.declared.message.Answered.{Answered};
ghost use Rattle.claim_set.specs.declared.no.ClaimNo.{ClaimNo};
ghost use Rattle.claim_set.specs.Reading.{Reads, claims_read};
ghost use Rattle.client_registry.specs.Configuration.{Configuration};
ghost use Rattle.client_registry.specs.Registered.{IsRegistry};
ghost use Rattle.token_endpoint.specs.declared.basic.Credentials.{Credentials};
ghost use Rattle.token_endpoint.specs.declared.granting.Grant.{Grant};
ghost use Rattle.request_params.specs.Scheme.{IsScheme};
ghost use Rattle.token_endpoint.specs.declared.error.TokenError.{TokenError};
ghost use Rattle.token_endpoint.specs.declared.no.GrantNo.{GrantNo};
ghost use Rattle.token_endpoint.specs.declared.no.GrantNo.TheVariants as no;
ghost use Rattle.token_endpoint.specs.declared.no.TokensNo.TheVariants as tokens_no;
ghost use Rattle.token_endpoint.specs.declared.reading.Tokens.{Tokens};
ghost use Rattle.token_endpoint.specs.Basic.{is_basic_scheme, basic_header, basic_read, IsBasic};
ghost use Rattle.request_params.specs.Form.{form_pairs};
ghost use Rattle.token_endpoint.specs.Request.{client_asked, code_read, grant_read};
ghost use Rattle.token_endpoint.specs.Granted.{IsGrant, Cause};
ghost use Rattle.token_endpoint.specs.Errors.{error_code, error_text};
ghost use Rattle.token_endpoint.specs.Answer.{tokens_read, HasTokens, token_refusals};
ghost use Rattle.token_endpoint.specs.Laws.{GrantedClientsShowTheirSecret, RefusedRequestsHaveACause, RequestsWithoutCauseAreAccepted};
ghost use Rattle.token_endpoint.specs.Laws.{PrintedRequestsAreGranted, WrittenRequestsHaveTheirText, TokenResponsesHaveTheirText};
ghost use Rattle.token_endpoint.specs.Laws.{RefusedResponsesHaveTheFirstReason, PrintedTextsAreRead, PrintedWordsAreRead};

/// A header has the scheme `Basic` if and only if this word, in any case, is the text before its first space or the whole
/// header. The id and the secret that are read are those that the header literally encodes, and every such header is read.
pub fn headers_are_read_literally()
    ensures basic { (s h : List ℕ) → IsScheme s h → is_basic_scheme s ≡ true → basic_header (Some h) ≡ Some h }
    ensures other { (s h : List ℕ) → IsScheme s h → is_basic_scheme s ≡ false → basic_header (Some h) ≡ None }
    ensures shows { (h : List ℕ) (k : Credentials) → basic_header (Some h) ≡ Some h → basic_read h ≡ Some k → IsBasic h k }
    ensures read { (h : List ℕ) (k : Credentials) → IsBasic h k → (basic_header (Some h) ≡ Some h) × (basic_read h ≡ Some k) }
{}

/// A token request for a code is read for the client that it authenticates: the errors of the client come first.
pub fn requests_are_read_for_their_client()
    ensures { (c : Configuration) (auth body : Option (List ℕ))
        → grant_read c auth body ≡ and_then (client_asked c auth body) (code_read (form_pairs (unwrap_or body []))) }
{}

/// A request is accepted if and only if it is a client's request for a code, and the result is its contents, in UTF-8.
pub fn requests_are_granted_literally()
    ensures grant { (c : Configuration) (auth body : Option (List ℕ)) (g : Grant) → grant_read c auth body ≡ Ok g → IsGrant c auth body g }
    ensures read { (c : Configuration) (auth body : Option (List ℕ)) (g : Grant) → IsRegistry c → IsGrant c auth body g → grant_read c auth body ≡ Ok g }
    ensures texts { (c : Configuration) (auth body : Option (List ℕ)) (g : Grant) → grant_read c auth body ≡ Ok g → IsUtf8 g.code × IsUtf8 g.redirect }
{}

/// A grant needs a secret of its client: the client is in the registry, and the request shows its id and either of its secrets.
pub fn granted_clients_show_their_secret()
    ensures { GrantedClientsShowTheirSecret }
{}

/// A request without a body gives `BadForm`. Any other is rejected if one of the conditions `grant_refusals` is true, of which
/// the first counts; otherwise it is accepted. Each error has its cause.
pub fn refused_requests_have_a_cause()
    ensures no_body { (c : Configuration) (auth : Option (List ℕ)) → grant_read c auth None ≡ Err no.BadForm }
    ensures refused { RefusedRequestsHaveACause }
    ensures accepted { RequestsWithoutCauseAreAccepted }
    ensures cause { (c : Configuration) (auth body : Option (List ℕ)) (e : GrantNo) → IsRegistry c → grant_read c auth body ≡ Err e → Cause c auth body e }
{}

/// The request that is written for a client of a registry is granted to this client, for the same code and redirect URI.
pub fn printed_requests_are_granted()
    ensures { PrintedRequestsAreGranted }
{}

/// The text of the body of a written request.
pub fn written_requests_have_their_text()
    ensures { WrittenRequestsHaveTheirText }
{}

/// The texts of the bodies of responses.
pub fn written_answers_have_their_text()
    ensures tokens { TokenResponsesHaveTheirText }
    ensures error { (e : TokenError) → error_text e ≡ codes "{\"error\":\"" ++ error_code e ++ codes "\"}" }
{}

/// A response is accepted if and only if it has tokens, and the result is these tokens.
pub fn answers_are_read_by_their_members()
    ensures has { (a : Answered) (t : Tokens) → tokens_read a ≡ Ok t → HasTokens a t }
    ensures read { (a : Answered) (t : Tokens) → HasTokens a t → tokens_read a ≡ Ok t }
{}

/// Any other response is rejected for the first reason: its status, its body, or the first condition of `token_refusals` that
/// is true for its members.
pub fn refused_answers_have_the_first_reason()
    ensures status { (a : Answered) → a.status ≢ 200 → tokens_read a ≡ Err (tokens_no.Status a.status) }
    ensures unread { (a : Answered) (e : ClaimNo) → a.status ≡ 200 → claims_read a.body ≡ Err e → tokens_read a ≡ Err (tokens_no.Claims e) }
    ensures refused { RefusedResponsesHaveTheFirstReason }
    ensures accepted { (a : Answered) (ms : Members) → a.status ≡ 200 → Reads a.body ms → first_refusal (token_refusals ms) ≡ Ok tt → IsOk (tokens_read a) }
{}

/// Reading the body that is written for an access token and an ID Token, with status 200, returns these.
pub fn printed_tokens_are_read()
    ensures texts { PrintedTextsAreRead }
    ensures words { PrintedWordsAreRead }
{}

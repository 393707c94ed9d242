// Laws about the output of replies.

ghost use Rattle.std.specs.Prelude.{◌≡◌, ◌↔◌, ℕ, [], true, false, Option, Some, is_some, map};
ghost use Rattle.sso_base.specs.Words.{Word, word_text};
ghost use Rattle.sso_base.specs.declared.http.Kind.TheVariants as kind;
ghost use Rattle.http_reply.specs.UserAgent.{cookie_read};
ghost use Rattle.client_registry.specs.Configuration.{Configuration};
ghost use Rattle.client_registry.specs.Numbers.{client_id};
ghost use Rattle.client_registry.specs.Registered.{IsRegistry};
ghost use Rattle.oidc_words.specs.declared.scopes.Scopes.{Scopes};
ghost use Rattle.oidc_words.specs.declared.errors.Refusal.{Refusal};
ghost use Rattle.oidc_words.specs.Words.{parameter_words};
ghost use Rattle.oidc_words.specs.Scopes.{scopes_among, scope_text};
ghost use Rattle.auth_answer.specs.declared.answer.Answer.{Answer};
ghost use Rattle.auth_answer.specs.Printing.{answer_location, refusal_location};
ghost use Rattle.op_exchange.specs.declared.reply.OpReply.{OpReply};
ghost use Rattle.op_exchange.specs.declared.reply.OpReply.TheVariants as reply;
ghost use Rattle.op_exchange.specs.Replied.{ends_turn, session_given};
ghost use Rattle.op_response.specs.Cookies.{browser_cookie, session_cookie};
ghost use Rattle.op_response.specs.Telling.{http_of};
ghost use Rattle.op_response.specs.Lines.{line_of};
ghost use Rattle.http_reply.specs.Told.{AreTaken, kept, sets_cookie};
ghost use Rattle.op_response.specs.Told.{browser_given, words_set, is_token_response, has_mark};
ghost use Rattle.op_response.specs.Laws.{WrittenTokensAreRead, LoginFormsArePostedToTheProvider, LoginFormsHaveTheirTurn, ConsentFormsArePostedToTheProvider};
ghost use Rattle.op_response.specs.Laws.{ConsentFormsHaveTheirTurn, ConsentPagesNameClientAndScopes, PlainBodiesAreLines, LinesTellTheParts};
ghost use Rattle.op_response.specs.Laws.{FullConsentPagesNameApplicationAndScopes, LoginPagesPostTheirForm, ConsentPagesPostTheirForm};

/// The cookies of a reply hold exactly the words that it sets, in order: the browser word of a page, and the session word, if
/// there is one. A user agent reads each under its name as the word's text, for every path, `HttpOnly`, `SameSite=Lax` and, if
/// and only if the issuer is https, `Secure` (RFC 6265, 5.2), and takes it, whether names begin with `__Host-` or not. A reply
/// without a session word sets no session cookie.
pub fn cookies_hold_the_words_of_replies()
    ensures read { (c : Configuration) (r : OpReply) → map cookie_read (http_of c r).cookies ≡ map (kept c.secure) (words_set c.settings.host_cookies r) }
    ensures session { (c : Configuration) (r : OpReply)
        → sets_cookie (session_cookie c.settings.host_cookies) (http_of c r).cookies ≡ is_some (session_given r) }
    ensures browser { (c : Configuration) (r : OpReply)
        → sets_cookie (browser_cookie c.settings.host_cookies) (http_of c r).cookies ≡ is_some (browser_given r) }
    ensures taken { (c : Configuration) (r : OpReply) → IsRegistry c → AreTaken c.secure (words_set c.settings.host_cookies r) }
{}

/// Authorization responses, and no other replies, redirect the user agent with status 303, to the location of the response.
pub fn responses_send_the_user_agent_on()
    ensures answer { (c : Configuration) (a : Answer) (given : Option Word) → (http_of c (reply.Answered a given)).location ≡ Some (answer_location a) }
    ensures refusal { (c : Configuration) (r : Refusal) (given : Option Word) → (http_of c (reply.Refused r given)).location ≡ Some (refusal_location r) }
    ensures location { (c : Configuration) (r : OpReply) → is_some (http_of c r).location ≡ ends_turn r }
    ensures status { (c : Configuration) (r : OpReply) → ((http_of c r).status ≡ 303) ↔ (ends_turn r ≡ true) }
{}

/// Token responses, and no other replies, have `Pragma: no-cache`, and they are JSON. Reading one with tokens returns these
/// tokens.
pub fn token_responses_are_not_cached()
    ensures pragma { (c : Configuration) (r : OpReply) → (http_of c r).pragma ≡ is_token_response r }
    ensures json { (c : Configuration) (r : OpReply) → is_token_response r ≡ true → (http_of c r).kind ≡ kind.Json }
    ensures read { WrittenTokensAreRead }
{}

/// A reply has a challenge if and only if its status is 401 (RFC 9110, 15.5.2).
pub fn challenges_are_unauthorized()
    ensures { (c : Configuration) (r : OpReply) → ((http_of c r).status ≡ 401) ↔ (is_some (http_of c r).challenge ≡ true) }
{}

/// The login form and the consent form are posted to the paths that the provider serves for them, with the text of their own
/// turn, on full and on plain pages. A plain consent page states the client and the scope values that it requests, a full one the
/// title of the application and the scope values in words.
pub fn forms_are_posted_to_the_provider()
    ensures login { LoginFormsArePostedToTheProvider }
    ensures login_turn { LoginFormsHaveTheirTurn }
    ensures consent { ConsentFormsArePostedToTheProvider }
    ensures consent_turn { ConsentFormsHaveTheirTurn }
    ensures asked { ConsentPagesNameClientAndScopes }
    ensures asked_in_words { FullConsentPagesNameApplicationAndScopes }
    ensures scopes { (s : Scopes) → scopes_among (parameter_words (Some (scope_text s))) ≡ s }
{}

/// A full page posts what a plain one posts: the same method and action, and the same names and values in the same order, if the
/// path of the issuer has no `"`, `<` and `>`. A full consent page also has a form that ends the session.
pub fn full_pages_post_what_plain_ones_post()
    ensures login { LoginPagesPostTheirForm }
    ensures consent { ConsentPagesPostTheirForm }
{}

/// The text of a word, the id of a registry's client and the scope values have no character with a meaning in HTML, so plain
/// pages escape nothing.
pub fn pages_have_nothing_to_escape()
    ensures word { (w : Word) → has_mark (word_text w) ≡ false }
    ensures client { (c : Configuration) (n : ℕ) → IsRegistry c → has_mark (client_id c n) ≡ false }
    ensures scopes { (s : Scopes) → has_mark (scope_text s) ≡ false }
{}

/// A plain body is one line, and a reply without a kind has an empty body.
pub fn plain_bodies_are_lines()
    ensures plain { PlainBodiesAreLines }
    ensures empty { (c : Configuration) (r : OpReply) → (http_of c r).kind ≡ kind.Empty → (http_of c r).body ≡ [] }
{}

/// A line shows which parts a response has but none of their values, and the code of an error.
pub fn lines_tell_parts_and_codes()
    ensures parts { LinesTellTheParts }
    ensures code { (a b : Refusal) (given other : Option Word) → line_of (reply.Refused a given) ≡ line_of (reply.Refused b other) → a.code ≡ b.code }
{}

// Laws about the output of replies.

ghost use Rattle.std.specs.Prelude.{◌≡◌, ◌++◌, ◌↔◌, ℕ, [], ◌∷◌, true, Some, is_some, codes};
ghost use Rattle.std.specs.Str.Iter.{HasSubslice};
ghost use Rattle.sso_base.specs.Words.{Word, Text};
ghost use Rattle.sso_base.specs.declared.http.Kind.TheVariants as kind;
ghost use Rattle.sso_base.specs.declared.message.Message.{Message};
ghost use Rattle.client_registry.specs.Configuration.{Configuration};
ghost use Rattle.oidc_words.specs.Paths.{home_path};
ghost use Rattle.oidc_words.specs.declared.errors.AuthError.{AuthError};
ghost use Rattle.rp_exchange.specs.declared.no.RpNo.{RpNo};
ghost use Rattle.rp_exchange.specs.declared.no.RpNo.TheVariants as no;
ghost use Rattle.rp_exchange.specs.declared.reply.RpReply.{RpReply};
ghost use Rattle.rp_exchange.specs.declared.reply.RpReply.TheVariants as reply;
ghost use Rattle.rp_response.specs.Telling.{http_of};
ghost use Rattle.rp_response.specs.Lines.{line_of};
ghost use Rattle.rp_response.specs.Told.{sends_on, is_full};
ghost use Rattle.rp_response.specs.Laws.{CookiesAreTheWordsOfReplies, BrowserCookiesAreSet, SessionCookiesAreSet, CookiesAreTaken};
ghost use Rattle.rp_response.specs.Laws.{PlainErrorsAreTheirLines, LogoutErrorsAreTheirLines, FullErrorsShowTheirLines, FullFrontPagesLeave};

/// The cookies of a reply hold exactly the words that it sets: the browser word when a login begins, and the session word when
/// a session begins. A user agent reads each under its name as the word's text, for every path, `HttpOnly`, `SameSite=Lax` and,
/// if and only if the issuer is https, `Secure` (RFC 6265, 5.2), and takes it, whether names begin with `__Host-` or not.
pub fn cookies_hold_the_words_of_replies()
    ensures read { CookiesAreTheWordsOfReplies }
    ensures browser { BrowserCookiesAreSet }
    ensures session { SessionCookiesAreSet }
    ensures taken { CookiesAreTaken }
{}

/// When a login or a session begins, the reply redirects the user agent with status 303: to the provider, or to the page that
/// shows who is logged in. No other reply does.
pub fn logins_send_the_user_agent_on()
    ensures ask { (c : Configuration) (n : ℕ) (to : Text) (browser : Word) → (http_of c n (reply.Ask to browser)).location ≡ Some to }
    ensures entered { (c : Configuration) (n : ℕ) (session : Word) (sub : Text) → (http_of c n (reply.Entered session sub)).location ≡ Some home_path }
    ensures location { (c : Configuration) (n : ℕ) (r : RpReply) → is_some (http_of c n r).location ≡ sends_on r }
    ensures status { (c : Configuration) (n : ℕ) (r : RpReply) → ((http_of c n r).status ≡ 303) ↔ (sends_on r ≡ true) }
{}

/// The body of an error is its line, unless pages are full; that of a logout token always is. The full page of any other error has
/// the line in it, escaped. The status is 503 if and only if a table has no room, and 400 otherwise.
pub fn refusals_are_their_lines()
    ensures body { PlainErrorsAreTheirLines }
    ensures logout { LogoutErrorsAreTheirLines }
    ensures shown { FullErrorsShowTheirLines }
    ensures full { (c : Configuration) (n : ℕ) (why : RpNo) → ((http_of c n (reply.Refused why)).status ≡ 503) ↔ (is_full why ≡ true) }
    ensures others { (c : Configuration) (n : ℕ) (why : RpNo) → ¬ (is_full why ≡ true) → (http_of c n (reply.Refused why)).status ≡ 400 }
{}

/// A plain body ends with a line feed, and a reply without a kind has an empty body.
pub fn plain_bodies_are_lines()
    ensures plain { (c : Configuration) (n : ℕ) (r : RpReply) → (http_of c n r).kind ≡ kind.Plain → (line : Text) × ((http_of c n r).body ≡ line ++ 10 ∷ []) }
    ensures empty { (c : Configuration) (n : ℕ) (r : RpReply) → (http_of c n r).kind ≡ kind.Empty → (http_of c n r).body ≡ [] }
{}

/// A message to the provider contains a secret of the client or an access token. No reply to a user agent and no line shows the
/// message or the word of its exchange.
pub fn messages_are_not_told()
    ensures exchange { (c : Configuration) (n : ℕ) (v w : Word) (m k : Message) → http_of c n (reply.Exchange v m) ≡ http_of c n (reply.Exchange w k) }
    ensures fetch { (c : Configuration) (n : ℕ) (v w : Word) (m k : Message) → http_of c n (reply.Fetch v m) ≡ http_of c n (reply.Fetch w k) }
    ensures exchange_line { (v w : Word) (m k : Message) → line_of (reply.Exchange v m) ≡ line_of (reply.Exchange w k) }
    ensures fetch_line { (v w : Word) (m k : Message) → line_of (reply.Fetch v m) ≡ line_of (reply.Fetch w k) }
{}

/// A full front page posts one form, which leaves the party. It is the same form for every user and title.
pub fn full_front_pages_leave()
    ensures { FullFrontPagesLeave }
{}

/// The page that posts a fragment is the same at every party of every registry, and its form goes to its own location.
pub fn the_fragment_page_is_the_same_everywhere()
    ensures same { (c d : Configuration) (n m : ℕ) → http_of c n reply.Fragment ≡ http_of d m reply.Fragment }
    ensures form { (c : Configuration) (n : ℕ) → HasSubslice (http_of c n reply.Fragment).body (codes "<form method=\"post\"></form>") }
    ensures kind { (c : Configuration) (n : ℕ) → (http_of c n reply.Fragment).kind ≡ kind.Html }
{}

/// The line of a new session and that of a user determine the subject. The line of the provider's error determines its code.
pub fn lines_tell_subjects_and_codes()
    ensures session { (v w : Word) (sub other : Text) → line_of (reply.Entered v sub) ≡ line_of (reply.Entered w other) → sub ≡ other }
    ensures user { (sub other : Text) → line_of (reply.User sub) ≡ line_of (reply.User other) → sub ≡ other }
    ensures code { (code other : AuthError) → line_of (reply.Refused (no.Provider code)) ≡ line_of (reply.Refused (no.Provider other)) → code ≡ other }
{}

/// No line shows a word, a location, a repeated name, or the number of an accepted logout token.
pub fn lines_tell_no_words_and_no_values()
    ensures ask { (to other : Text) (v w : Word) → line_of (reply.Ask to v) ≡ line_of (reply.Ask other w) }
    ensures session { (v w : Word) (sub : Text) → line_of (reply.Entered v sub) ≡ line_of (reply.Entered w sub) }
    ensures twice { (name other : Text) → line_of (reply.Refused (no.Twice name)) ≡ line_of (reply.Refused (no.Twice other)) }
    ensures seen { (place other : ℕ) → line_of (reply.Refused (no.Seen place)) ≡ line_of (reply.Refused (no.Seen other)) }
    ensures ended_sid { (place other : ℕ) → line_of (reply.Refused (no.EndedSid place)) ≡ line_of (reply.Refused (no.EndedSid other)) }
{}

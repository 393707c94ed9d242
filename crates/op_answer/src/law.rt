// What is true for the provider's replies.

ghost use Rattle.std.specs.Prelude.{◌≡◌, ◌≤◌, ◌↔◌, ℕ, true, false, List, length};
ghost use Rattle.sso_base.specs.Values.{latest_moment};
ghost use Rattle.sso_base.specs.Legal.{last_moment};
ghost use Rattle.sso_base.specs.Journal.{most_stored_pairs, most_pairs};
ghost use Rattle.sso_base.specs.declared.history.Entry.{Entry};
ghost use Rattle.client_registry.specs.Configuration.{Configuration};
ghost use Rattle.op_exchange.specs.declared.ask.OpAsk.{OpAsk};
ghost use Rattle.op_exchange.specs.declared.reply.OpReply.TheVariants as reply;
ghost use Rattle.op_answer.specs.Past.{OpPair, OpPast};
ghost use Rattle.op_answer.specs.Consents.{grant_of};
ghost use Rattle.op_answer.specs.Granted.{Granted};
ghost use Rattle.op_answer.specs.Answering.{op_answer};
ghost use Rattle.op_answer.specs.FullTables.{FullCause};
ghost use Rattle.op_answer.specs.Legal.{IsLegalOp, IsLegalHistory};
ghost use Rattle.op_answer.specs.Laws.{TurnsStand, SessionsStand, CodesStand, AccessTokensStand, OwnRepliesHaveACause, LoginPagesHaveACause};
ghost use Rattle.op_answer.specs.Laws.{ConsentPagesHaveACause, ResponsesHaveACause, ErrorResponsesHaveACause, ErrorPagesHaveACause, TokenResponsesHaveACause};
ghost use Rattle.op_answer.specs.Laws.{TokenErrorsHaveACause, UserInfoHasACause, UserInfoErrorsHaveACause, SignOutsHaveACause, CodesAreAnsweredOnce};
ghost use Rattle.op_answer.specs.Laws.{SessionWordsNeedAPassword, TurnsAreDrawn, SessionsAreDrawn, CodesAreDrawn, AccessTokensAreDrawn, DrawnWordsHaveOneText};
ghost use Rattle.op_answer.specs.Laws.{TurnsAreOwn, SessionsAreOwn, CodesAreOwn, AccessTokensAreOwn, LogoutTokensAreNoIdTokens, IdTokensAreNoLogoutTokens};
ghost use Rattle.op_answer.specs.Laws.{LogoutTokensAreNoRequestObjects, IdTokensAreNoRequestObjects};

/// A row is found after a past if and only if some pair made it, no later pair made one of its name or ended it, and it is as
/// the later pairs left it.
pub fn rows_stand()
    ensures turns { TurnsStand }
    ensures sessions { SessionsStand }
    ensures codes { CodesStand }
    ensures accesses { AccessTokensStand }
{}

/// The cause of each reply of the provider. A reply with these parts is returned if and only if reading a request can give the
/// `OpAsk`, each row that the reply makes has a place in its table, and the cause holds for the past and the `OpAsk`.
///
/// A request can always give a UserInfo request and a sign-out. They make no row, so their replies are returned if and only if
/// the cause holds. `Full` has a law of its own, below. The metadata, the keys and `NotHere` do not depend on the past.
pub fn replies_have_a_cause()
    ensures own { OwnRepliesHaveACause }
    ensures login_pages { LoginPagesHaveACause }
    ensures consent_pages { ConsentPagesHaveACause }
    ensures answers { ResponsesHaveACause }
    ensures refusals { ErrorResponsesHaveACause }
    ensures error_pages { ErrorPagesHaveACause }
    ensures tokens { TokenResponsesHaveACause }
    ensures token_errors { TokenErrorsHaveACause }
    ensures infos { UserInfoHasACause }
    ensures info_refusals { UserInfoErrorsHaveACause }
    ensures sign_outs { SignOutsHaveACause }
{}

/// `Full` is returned if and only if reading a request can give the `OpAsk`, and a row that the reply would make has no place
/// in its table. A row has no place if 65,536 rows live at the moment, or if one that lives has its word. Rows that the step
/// ends do not count.
pub fn full_tables_are_full()
    ensures { (c : Configuration) (past : OpPast) (e : Entry OpAsk) → (op_answer c past e ≡ reply.Full) ↔ FullCause c past e }
{}

/// A user has granted a scope value to a client if and only if some consent form said yes to it. The form was answered, with a
/// response or an error, for a turn of the client and a session of the user, and the consent was about the scope value.
pub fn grants_are_said_yes_to()
    ensures openid { (past : OpPast) (user client : ℕ) → ((grant_of past user client).openid ≡ true) ↔ Granted past user client (λ s. s.openid) }
    ensures profile { (past : OpPast) (user client : ℕ) → ((grant_of past user client).profile ≡ true) ↔ Granted past user client (λ s. s.profile) }
    ensures email { (past : OpPast) (user client : ℕ) → ((grant_of past user client).email ≡ true) ↔ Granted past user client (λ s. s.email) }
    ensures address { (past : OpPast) (user client : ℕ) → ((grant_of past user client).address ≡ true) ↔ Granted past user client (λ s. s.address) }
    ensures phone { (past : OpPast) (user client : ℕ) → ((grant_of past user client).phone ≡ true) ↔ Granted past user client (λ s. s.phone) }
{}

/// After any legal past a code gets tokens at most once: no two pairs returned tokens for the code that one pair made (RFC
/// 6749, 4.1.2).
pub fn codes_are_answered_once()
    ensures { CodesAreAnsweredOnce }
{}

/// In any legal past a reply that sets a session word is to a login form with the right password of a user, for a live turn
/// and from the turn's browser.
pub fn session_words_need_a_password()
    ensures { SessionWordsNeedAPassword }
{}

/// In a legal past these are drawn words of the one pair that made the row:
///
/// - the word of a turn: the second of the pair's four words;
/// - the word and the name of a session: the first and the second, through all its renewals;
/// - a code: the third;
/// - an access token: the fourth in a response, and the first for a code.
///
/// A code has the wish of the response that it came with, and the user, the name and the login time of that response's session.
/// An access token of a response has the client, the scope values and the requested claims of the response's wish, and the user
/// of its session. An access token for a code has those of the code. The code was held at that time, and belonged to the client
/// that sent the token request.
pub fn rows_have_drawn_words()
    ensures turns { TurnsAreDrawn }
    ensures sessions { SessionsAreDrawn }
    ensures codes { CodesAreDrawn }
    ensures accesses { AccessTokensAreDrawn }
{}

/// In a legal past turns and codes have wishes that requests give, sessions and codes have users of the registry and names that
/// are words, and access tokens have clients and users of the registry. No row begins after the last moment, which is a moment.
pub fn rows_are_own()
    ensures turns { TurnsAreOwn }
    ensures sessions { SessionsAreOwn }
    ensures codes { CodesAreOwn }
    ensures accesses { AccessTokensAreOwn }
    ensures last { (c : Configuration) (past : OpPast) → IsLegalOp c past → last_moment past ≤ latest_moment }
{}

/// A legal history that is stored has at most 262,144 pairs: it weighs at most 268,435,456, and no pair less than 1,024. One that
/// lasts has at most 2^53.
pub fn legal_histories_are_short()
    ensures stored { (c : Configuration) (history : List OpPair) → c.lasting ≡ false → IsLegalHistory c history → length history ≤ most_stored_pairs }
    ensures all { (c : Configuration) (history : List OpPair) → IsLegalHistory c history → length history ≤ most_pairs }
{}

/// In a legal past the text of a word that was drawn determines the word.
pub fn drawn_words_have_one_text()
    ensures { DrawnWordsHaveOneText }
{}

/// No logout token of the provider is a good ID Token, and no ID Token of the provider is a logout token, under whatever key.
/// Neither is read as a request object of any client of the registry, whatever the issuer: their own issuer is no client's id.
pub fn issued_tokens_stay_apart()
    ensures logout { LogoutTokensAreNoIdTokens }
    ensures id { IdTokensAreNoLogoutTokens }
    ensures logout_request { LogoutTokensAreNoRequestObjects }
    ensures id_request { IdTokensAreNoRequestObjects }
{}

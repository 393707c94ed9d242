// What is true for a relying party's replies.

ghost use Rattle.std.specs.Prelude.{◌≡◌, ◌≤◌, ◌↔◌, true, false, List, length, Some};
ghost use Rattle.sso_base.specs.Words.{Word, Text};
ghost use Rattle.sso_base.specs.Rows.{row_of};
ghost use Rattle.sso_base.specs.Journal.{most_stored_pairs, most_pairs};
ghost use Rattle.sso_base.specs.declared.history.Entry.{Entry};
ghost use Rattle.rp_login.specs.declared.rows.LoginRow.{LoginRow};
ghost use Rattle.rp_login.specs.declared.rows.SeenRow.{SeenRow};
ghost use Rattle.rp_login.specs.declared.rows.DeadRow.{DeadRow};
ghost use Rattle.rp_login.specs.Rows.{login_name, seen_name, dead_name};
ghost use Rattle.rp_exchange.specs.declared.ask.RpAsk.{RpAsk};
ghost use Rattle.rp_exchange.specs.declared.reply.RpReply.{RpReply};
ghost use Rattle.rp_answer.specs.Past.{RpPair, RpPast};
ghost use Rattle.rp_answer.specs.Setup.{PartySetup};
ghost use Rattle.rp_answer.specs.Logins.{logins};
ghost use Rattle.rp_answer.specs.Seens.{seens};
ghost use Rattle.rp_answer.specs.Deads.{deads};
ghost use Rattle.rp_answer.specs.Answering.{rp_answer};
ghost use Rattle.rp_answer.specs.Causes.{is_own, Stood};
ghost use Rattle.rp_answer.specs.Legal.{IsLegalHistory, BegunBy, AcceptedBy, NamedBy};
ghost use Rattle.rp_answer.specs.Laws.{LoginsStand, PendingExchangesStand, SessionsStand, SeenLogoutTokensStand, DeadSidsStand};
ghost use Rattle.rp_answer.specs.Laws.{AuthorizationRequestsHaveACause, TokenRequestsHaveACause, FragmentPagesHaveACause, UserInfoRequestsHaveACause};
ghost use Rattle.rp_answer.specs.Laws.{LoginsHaveACause, UserPagesHaveACause, EmptyVisitsHaveACause, SignOutsHaveACause, LogoutsHaveACause, RefusalsHaveACause};
ghost use Rattle.rp_answer.specs.Laws.{FullTablesHaveACause, PendingExchangesAreDrawn, SessionsAreDrawn, DrawnWordsHaveOneText, SessionsNeedALogin};
ghost use Rattle.rp_answer.specs.Laws.{LoginsEnterOnce, DeadSidsAreFew, SessionsEndIfEnded, OtherSessionsAreKept, LiveSessionsAreKept};
ghost use Rattle.rp_answer.specs.Laws.{EqualIdentifiersAreFarApart, LogoutTokensAreAcceptedOnce, CodesHaveTheirHash, AccessTokensHaveTheirHash};
ghost use Rattle.rp_answer.specs.Laws.{LoginObjectsAreNoIdTokens, LoginObjectsAreNoLogoutTokens};

/// A row is found after a past if and only if some pair made it, no later pair made one of its name or ended it, and it is as
/// the later pairs left it.
pub fn rows_stand()
    ensures logins { LoginsStand }
    ensures pendings { PendingExchangesStand }
    ensures visits { SessionsStand }
    ensures seens { SeenLogoutTokensStand }
    ensures deads { DeadSidsStand }
{}

/// The cause of each reply of a relying party. A reply with these parts is returned if and only if reading a request can give
/// the `RpAsk`, the row that the reply makes has a place in its table, and the cause holds for the past and the `RpAsk`.
///
/// The refusal `Full` has a law of its own, below: a table is full. `NotHere` does not depend on the past.
pub fn replies_have_a_cause()
    ensures own { (s : PartySetup) (past : RpPast) (e : Entry RpAsk) (r : RpReply) → is_own r ≡ true → (rp_answer s past e ≡ r) ↔ Stood s past e r }
    ensures asks { AuthorizationRequestsHaveACause }
    ensures exchanges { TokenRequestsHaveACause }
    ensures fragments { FragmentPagesHaveACause }
    ensures fetches { UserInfoRequestsHaveACause }
    ensures entered { LoginsHaveACause }
    ensures users { UserPagesHaveACause }
    ensures nobody { EmptyVisitsHaveACause }
    ensures left { SignOutsHaveACause }
    ensures ended { LogoutsHaveACause }
    ensures refusals { RefusalsHaveACause }
{}

/// The refusal `Full` of a table is returned if and only if reading a request can give the `RpAsk`, and a row of this table
/// that the reply would make has no place in it. A row has no place if 65,536 rows live at the moment, or if one that lives has
/// its word, or the `jti` of its logout token. Rows that the step ends do not count. At most one table lacks a place.
pub fn full_tables_are_full()
    ensures { FullTablesHaveACause }
{}

/// The state and the nonce of a login, the word of a pending exchange and the word of a session are drawn words of the one pair
/// that made the row. A UserInfo request after a token response has the word of that exchange.
///
/// A pending exchange has the nonce and the begin time of its login, and its request was sent by a pair whose reply has a
/// message with this word. A session has the nonce of the login that entered, and the subject and the `sid` of the ID Token
/// that was verified for it. The text of a drawn word determines the word.
pub fn words_are_drawn()
    ensures logins { (past : RpPast) (state : Word) (login : LoginRow) → row_of login_name state (logins past) ≡ Some login → BegunBy past login }
    ensures pendings { PendingExchangesAreDrawn }
    ensures visits { SessionsAreDrawn }
    ensures texts { DrawnWordsHaveOneText }
{}

/// In any legal past a session begins only if the browser that began a login brought the response with the login's state, and
/// an ID Token with the login's nonce was verified and accepted (OpenID Connect Core 1.0, 3.1.3.7, 3.2.2.11 and 3.3.2.12).
///
/// The ID Token came with this very request. If UserInfo came, the ID Token came with the request after which UserInfo was
/// requested. The login that enters is this one.
pub fn sessions_need_a_login()
    ensures { SessionsNeedALogin }
{}

/// A login enters at most once: no two pairs accept the login that one pair began. This is true for any past, legal or not.
pub fn logins_enter_once()
    ensures { LoginsEnterOnce }
{}

/// A logout token is remembered by its `jti` only if a pair accepted it. The record has the time and the position of that pair
/// (OpenID Connect Back-Channel Logout 1.0, 2.6, step 8).
pub fn seen_tokens_were_accepted()
    ensures { (past : RpPast) (jti : Text) (seen : SeenRow) → row_of seen_name jti (seens past) ≡ Some seen → AcceptedBy past seen }
{}

/// A session identifier is remembered only if a pair accepted a logout token that has it. The record has the time and the
/// position of that pair (our choice).
pub fn dead_sids_were_named()
    ensures { (past : RpPast) (sid : Text) (dead : DeadRow) → row_of dead_name sid (deads past) ≡ Some dead → NamedBy past dead }
{}

/// In any legal past, at the moment of the next pair, no more session identifiers are remembered than logout tokens. So if
/// there is room for a logout token, there is room for its `sid` (our choice).
pub fn dead_sids_are_few()
    ensures { DeadSidsAreFew }
{}

/// A session is no longer found after a pair if and only if its browser leaves there, or a logout token that means the session
/// is accepted there (OpenID Connect Back-Channel Logout 1.0, 2.7).
///
/// Any other pair leaves the session as it is, unless it makes another session with its word. In a legal past no pair does so
/// while the session lives, which is for 28,800 seconds.
pub fn sessions_end_by_leaving_and_logout()
    ensures ended { SessionsEndIfEnded }
    ensures kept { OtherSessionsAreKept }
    ensures living { LiveSessionsAreKept }
{}

/// In any legal past two logout tokens of one `jti` are accepted 661 seconds or more apart (OpenID Connect Back-Channel Logout
/// 1.0, 2.6, step 8). None is good for so long, so each is accepted once.
pub fn logout_tokens_are_accepted_once()
    ensures apart { EqualIdentifiersAreFarApart }
    ensures once { LogoutTokensAreAcceptedOnce }
{}

/// If a response type has an ID Token, the code that is exchanged came with an ID Token that has its `c_hash` (OpenID Connect
/// Core 1.0, 3.3.2.10).
///
/// UserInfo is requested with an access token that came with an ID Token. The ID Token of an authorization response has the
/// `at_hash` of that access token (3.2.2.9). The ID Token of a token response has it if it has any `at_hash` (3.1.3.8).
pub fn codes_and_access_tokens_have_their_hash()
    ensures codes { CodesHaveTheirHash }
    ensures access { AccessTokensHaveTheirHash }
{}

/// A legal history that is stored has at most 262,144 pairs: it weighs at most 268,435,456, and no pair less than 1,024. One that
/// lasts has at most 2^53.
pub fn legal_histories_are_short()
    ensures stored { (s : PartySetup) (history : List RpPair) → s.configuration.lasting ≡ false
        → IsLegalHistory s history → length history ≤ most_stored_pairs }
    ensures all { (s : PartySetup) (history : List RpPair) → IsLegalHistory s history → length history ≤ most_pairs }
{}

/// What a party signs for a login stays apart from tokens: its request object is read neither as an ID Token nor as a logout
/// token, whatever the key. It has no subject, and neither `iat` nor `jti`.
pub fn login_objects_are_no_tokens()
    ensures id { LoginObjectsAreNoIdTokens }
    ensures logout { LoginObjectsAreNoLogoutTokens }
{}

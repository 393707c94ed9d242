// Laws about the tables, for the crates above.

ghost use Rattle.std.specs.Prelude.{◌≡◌, ◌<◌, ◌+◌, ℕ, true, length, Option, None};
ghost use Rattle.sso_base.specs.Words.{Word, Text};
ghost use Rattle.sso_base.specs.Rows.{row_of};
ghost use Rattle.rp_login.specs.declared.rows.SessionRow.{SessionRow};
ghost use Rattle.rp_login.specs.declared.table.RpTable.TheVariants as table;
ghost use Rattle.held_rows.specs.Held.{most_rows};
ghost use Rattle.rp_login.specs.Named.{is_meant, IsMeant};
ghost use Rattle.rp_login.specs.Rows.{login_name, pending_name, visit_name, dead_name};
ghost use Rattle.rp_login.specs.Tables.{Tables, has_room, named_count};
ghost use Rattle.rp_login.specs.Calls as calls;
ghost use Rattle.rp_login.specs.Laws.{AddedLoginsAreFound, AddedExchangesAreFound, AddedSessionsAreFound, AddedIdentifiersAreFound, AddedDeadSidsAreFound};
ghost use Rattle.rp_login.specs.Laws.{AddsLeaveOtherLogins, AddsLeaveOtherExchanges, AddsLeaveOtherSessions, AddsLeaveOtherIdentifiers, AddsLeaveOtherDeadSids};
ghost use Rattle.rp_login.specs.Laws.{EndsLeaveOtherLogins, EndsLeaveOtherExchanges, EndsLeaveOtherSessions, EndsLeaveOtherDeadSids, LoginsComeBackByAddsAlone};
ghost use Rattle.rp_login.specs.Laws.{ExchangesComeBackByAddsAlone, SessionsComeBackByAddsAlone, PurgesLeaveLiveLogins, PurgesLeaveLiveExchanges};
ghost use Rattle.rp_login.specs.Laws.{PurgesLeaveLiveSessions, PurgesLeaveLiveIdentifiers, PurgesLeaveLiveDeadSids, SeenTokensAreRemembered};
ghost use Rattle.rp_login.specs.Laws.{DeadSidsAreRemembered, NamedSessionsAreEnded, OtherSessionsStay, SessionsKeepTheirOrder};

/// A row that is added under a new name is found by that name. The rows of other names are found as before.
pub fn added_rows_are_found()
    ensures login { AddedLoginsAreFound }
    ensures pending { AddedExchangesAreFound }
    ensures session { AddedSessionsAreFound }
    ensures seen { AddedIdentifiersAreFound }
    ensures dead { AddedDeadSidsAreFound }
    ensures other_logins { AddsLeaveOtherLogins }
    ensures other_pendings { AddsLeaveOtherExchanges }
    ensures other_sessions { AddsLeaveOtherSessions }
    ensures other_seens { AddsLeaveOtherIdentifiers }
    ensures other_deads { AddsLeaveOtherDeadSids }
{}

/// A row that is ended is no longer found, and the rows of other names stay.
pub fn ended_rows_are_gone()
    ensures login { (state : Word) (t : Tables) → row_of login_name state (calls.after (calls.end_login state) t).logins ≡ None }
    ensures pending { (w : Word) (t : Tables) → row_of pending_name w (calls.after (calls.end_pending w) t).pendings ≡ None }
    ensures session { (w : Word) (t : Tables) → row_of visit_name w (calls.after (calls.end_session w) t).visits ≡ None }
    ensures dead { (sid : Text) (t : Tables) → row_of dead_name sid (calls.after (calls.end_dead sid) t).deads ≡ None }
    ensures other_logins { EndsLeaveOtherLogins }
    ensures other_pendings { EndsLeaveOtherExchanges }
    ensures other_sessions { EndsLeaveOtherSessions }
    ensures other_deads { EndsLeaveOtherDeadSids }
{}

/// An absent row stays absent through all calls that do not add its name again. This is why the callback of a login counts only
/// once.
pub fn rows_come_back_by_adds_alone()
    ensures login { LoginsComeBackByAddsAlone }
    ensures pending { ExchangesComeBackByAddsAlone }
    ensures session { SessionsComeBackByAddsAlone }
{}

/// For each name, a purge leaves the row that lives, and removes one that does not.
pub fn purges_leave_what_lives()
    ensures logins { PurgesLeaveLiveLogins }
    ensures pendings { PurgesLeaveLiveExchanges }
    ensures sessions { PurgesLeaveLiveSessions }
    ensures seens { PurgesLeaveLiveIdentifiers }
    ensures deads { PurgesLeaveLiveDeadSids }
{}

/// If a table has room at a moment, a purge at that moment leaves fewer rows than the limit.
pub fn purges_make_the_room()
    ensures logins { (at : ℕ) (t : Tables) → has_room table.Logins at t ≡ true → length (calls.after (calls.purge at) t).logins < most_rows }
    ensures pendings { (at : ℕ) (t : Tables) → has_room table.Pendings at t ≡ true → length (calls.after (calls.purge at) t).pendings < most_rows }
    ensures sessions { (at : ℕ) (t : Tables) → has_room table.Sessions at t ≡ true → length (calls.after (calls.purge at) t).visits < most_rows }
    ensures seens { (at : ℕ) (t : Tables) → has_room table.Seen at t ≡ true → length (calls.after (calls.purge at) t).seens < most_rows }
{}

/// A logout token that was accepted is found through all calls, except a purge 661 or more seconds later. This is why it is not
/// accepted twice (OpenID Connect Back-Channel Logout 1.0, 2.6).
pub fn seen_tokens_are_remembered()
    ensures { SeenTokensAreRemembered }
{}

/// A session identifier that an accepted logout token named is found through all calls, except a purge 661 or more seconds
/// later, until it is ended by its name. This is why no session with it begins meanwhile.
pub fn dead_sids_are_remembered()
    ensures { DeadSidsAreRemembered }
{}

/// Exactly the sessions that match each given part end. The others stay in their order. The returned number is that of the
/// sessions that end (OpenID Connect Back-Channel Logout 1.0, 2.7).
pub fn named_sessions_are_ended()
    ensures meant { (sub sid : Option Text) (visit : SessionRow) → is_meant sub sid visit ≡ true → IsMeant sub sid visit }
    ensures all_meant { (sub sid : Option Text) (visit : SessionRow) → IsMeant sub sid visit → is_meant sub sid visit ≡ true }
    ensures ended { NamedSessionsAreEnded }
    ensures others { OtherSessionsStay }
    ensures order { SessionsKeepTheirOrder }
    ensures count { (sub sid : Option Text) (t : Tables) → named_count sub sid t + length (calls.after (calls.end_named sub sid) t).visits ≡ length t.visits }
{}

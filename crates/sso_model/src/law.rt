//! Lemmas about every run of the machine.

ghost use Rattle.std.specs.Prelude.{◌≡◌, ℕ, true, List};
ghost use Rattle.sso_model.specs.Lists.{Has};
ghost use Rattle.sso_model.specs.Rows.{Dead, Live, Machine, Sent, Step, end, enter, forget};
ghost use Rattle.sso_model.specs.Machine.{start, after, after_all, dead_of, dead_row, IsRun, MayTake};
ghost use Rattle.sso_model.specs.Founded.{HoldsOnlyFounded, OnceEach};
ghost use Rattle.sso_model.specs.Named.{IsNamed};
ghost use Rattle.sso_model.specs.Laws.{OtherSessionsStay};

/// After any run, each session that a relying party holds for a browser is founded. That browser began that login there. The
/// provider answered its nonce for that session's user, to a browser that had signed in as that user by password.
pub fn begun_answered_signed()
    ensures { (steps : List Step) → IsRun start steps → HoldsOnlyFounded (after_all start steps) }
{}

/// After any run, each login was entered at most once, each answer redeemed at most once, and each logout message
/// accepted at most once.
pub fn once_each()
    ensures { (steps : List Step) → IsRun start steps → OnceEach (after_all start steps) }
{}

/// An accepted logout message ends exactly the sessions that it names: none of those is left, and every other one stays,
/// including those of other clients and of other users.
pub fn named_sessions_end()
    ensures ended { (m : Machine) (message : Sent) (count : ℕ) (row : Live) → IsNamed message row → Has (after m (end message count)).live row → ⊥ }
    ensures others { OtherSessionsStay }
{}

/// After a client accepted a logout message for a session identifier, no session with this identifier begins at this client,
/// until the client forgets the identifier. No other step removes it.
pub fn ended_sids_stay_out()
    ensures ended { (m : Machine) (message : Sent) (count : ℕ) → message.only ≡ true → Has (after m (end message count)).dead (dead_of message) }
    ensures stays { (m : Machine) (step : Step) (row : Dead) → Has m.dead row → (step ≡ forget row → ⊥) → Has (after m step).dead row }
    ensures entered { (m : Machine) (row : Live) → Has m.dead (dead_row row) → MayTake m (enter row) → ⊥ }
    ensures forgotten { (m : Machine) (row : Dead) → Has (after m (forget row)).dead row → ⊥ }
{}

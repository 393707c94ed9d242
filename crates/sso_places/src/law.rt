//! Lemmas about the definitions, as contracts of functions with empty bodies.

ghost use Rattle.std.specs.Prelude.{◌≡◌, ◌↔◌, ℕ, Some, None};
ghost use Rattle.sso_places.specs.declared.types.Broken.TheVariants.{Forged, Leaked, HashClash};
ghost use Rattle.sso_places.specs.FirstBroken.{first_broken, IsUnbroken, IsFirstForged, IsFirstLeaked, IsFirstClash};
ghost use Rattle.sso_places.specs.Site.{Site};
ghost use Rattle.sso_places.specs.Unshared.{IsUnshared, first_shared, IsFirstShared};
ghost use Rattle.sso_places.specs.World.{World};
ghost use Rattle.sso_places.specs.Laws.{MessagesCarryTheWrittenTokens, LoginsCarryTheWrittenObjects, MergesAreLegal};

/// `first_broken` is `None` if and only if no token is forged, no cookie leaks and no half hashes clash. Otherwise it names the
/// first place at which one of these premises fails. At that place `Forged` comes before `Leaked`, and `Leaked` before
/// `HashClash`. Of the places that clash with it, the earliest is named.
pub fn first_broken_is_exact()
    ensures none { (s : Site) (world : World) → (first_broken s world ≡ None) ↔ IsUnbroken s world }
    ensures forged { (s : Site) (world : World) (number : ℕ) → (first_broken s world ≡ Some (Forged number)) ↔ IsFirstForged s world number }
    ensures leaked { (s : Site) (world : World) (number : ℕ) → (first_broken s world ≡ Some (Leaked number)) ↔ IsFirstLeaked s world number }
    ensures clash { (s : Site) (world : World) (other number : ℕ) → (first_broken s world ≡ Some (HashClash other number)) ↔ IsFirstClash s world other number }
{}

/// `first_shared` is `None` if and only if no access token is shared. Otherwise it is the number of the first place at which this
/// premise fails: a place that shows an access token which it may not show, or one that gives an access token which an earlier
/// place might not show.
pub fn first_shared_is_exact()
    ensures none { (world : World) → (first_shared world ≡ None) ↔ IsUnshared world }
    ensures first { (world : World) (number : ℕ) → (first_shared world ≡ Some number) ↔ IsFirstShared world number }
{}

/// The messages of a sign-out carry, one by one and in order, the logout tokens that are written. Each message goes to the
/// logout URI of the client of its token (OpenID Connect Back-Channel Logout 1.0, 2.5).
pub fn messages_carry_the_written_tokens()
    ensures { MessagesCarryTheWrittenTokens }
{}

/// If a party signs its requests, the location of its login ends with the request object that is written. For a party that
/// does not sign, none is written (OpenID Connect Core 1.0, 6.1).
pub fn logins_carry_the_written_objects()
    ensures { LoginsCarryTheWrittenObjects }
{}

/// A merge of the provider's history and the relying parties' histories is a legal world, if their cores made these histories.
/// The HTTP requests may be any that parse to the histories' entries, and the browser numbers are free.
pub fn merges_are_legal()
    ensures { MergesAreLegal }
{}

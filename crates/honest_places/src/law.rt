//! A lemma about relying parties' authorization requests, as the contract of a function with an empty body.

ghost use Rattle.honest_places.specs.Laws.{OwnRequestsAreGranted};

/// The provider accepts the authorization request with which a relying party of its registry begins a login, if the party lets
/// its users be prompted. This is true with and without signed requests, for each response type, and for each `max_age` (OpenID
/// Connect Core 1.0, 3.1.2.2).
pub fn own_requests_are_granted()
    ensures { OwnRequestsAreGranted }
{}

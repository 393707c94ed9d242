//! A lemma about the party's rows, as the contract of a function with an empty body.

ghost use Rattle.honest_party.specs.Laws.{LoginsPersist, ExchangesPersist};

/// A row is unchanged by pairs that neither draw its word nor name it. This is true for a login, and for a pending exchange.
pub fn rows_persist()
    ensures logins { LoginsPersist }
    ensures exchanges { ExchangesPersist }
{}

// The names of the tables.

/// A table of a relying party.
#[derive(Clone, Copy, PartialEq, Eq)]
pub enum RpTable {
    /// The logins that were begun.
    Logins,
    /// The pending exchanges.
    Pendings,
    /// The sessions.
    Sessions,
    /// The logout tokens that were accepted.
    Seen,
}

/// The tables in which room for one more row is reserved.
#[derive(Clone, Copy)]
pub struct Reserved {
    /// For a login.
    pub logins: bool,
    /// For a pending exchange.
    pub pendings: bool,
    /// For a session.
    pub visits: bool,
    /// For a logout token.
    pub seens: bool,
    /// For the session identifier that a logout token names.
    pub deads: bool,
}

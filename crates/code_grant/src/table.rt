// The names of the tables.

/// A table of the provider.
#[derive(Clone, Copy, PartialEq, Eq)]
pub enum Table {
    Turns,
    Sessions,
    Codes,
    Tokens,
}

/// The tables in which room for one more row is reserved.
#[derive(Clone, Copy)]
pub struct Reserved {
    pub turns: bool,
    pub sessions: bool,
    pub codes: bool,
    pub tokens: bool,
}

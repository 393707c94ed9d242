/// What a worker uses for a connection: a link to other servers, a clock, and a draw of random words.
#[derive(Drop)]
pub struct Tools<L: Drop, C: Drop, W: Drop> {
    pub link: L,
    pub clock: C,
    pub draw: W,
}

/// What one worker of a server uses.
#[derive(Drop)]
pub struct Desk<D: Drop, L: Drop, C: Drop, W: Drop> {
    pub door: D,
    pub tools: Tools<L, C, W>,
    /// The most connections that it serves.
    pub turns: u64,
}

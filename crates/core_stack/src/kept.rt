/// What a core that stands around another one keeps of one entry.
#[derive(Drop)]
pub enum Kept<K: Drop, E: Drop> {
    /// An entry that was passed on: the parts of it that the inner core does not have.
    Passed(K),
    /// An entry that the core answered by itself, and its reply.
    Own(E),
}

// The requests of the counting core.

/// A request of the counting core. Its weight is 1,024 plus `more`. For a `more` of 0 the core runs out of memory.
#[derive(Drop)]
pub struct Tick {
    pub more: u32,
}

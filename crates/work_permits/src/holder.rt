// What a seat at the table of permits knows. The type has no values at run time: it is for contracts only.

/// What a seat knows.
pub struct Holder {
    /// How many permits there are.
    pub most: u64,
    /// It has a permit.
    pub holds: bool,
    /// It found all permits taken.
    pub found_all: bool,
}

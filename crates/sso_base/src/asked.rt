use crate::moment::Moment;
use crate::word::Word;

/// The input of one step of a core: the moment, four random words, and the request.
#[derive(Drop)]
pub struct Asked<A: Drop> {
    /// The moment.
    pub at: Moment,
    /// The words that were drawn for it.
    pub fresh: [Word; 4],
    /// The request.
    pub ask: A,
}

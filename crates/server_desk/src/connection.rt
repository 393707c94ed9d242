/// A connection: the source of its input and the sink of its output. The two are independent.
#[derive(Drop)]
pub struct Connection<S: Drop, K: Drop> {
    pub source: S,
    pub sink: K,
}

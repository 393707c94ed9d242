use std::snapshot::Snapshot;

// One element after another. It takes no memory for them.
#[derive(Drop)]
pub(crate) enum Chain<E> {
    Nothing,
    Then(Snapshot<Chain<E>>, Snapshot<E>),
}

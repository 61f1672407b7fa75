/// How a round of a worker ended.
#[derive(Clone, Copy, Debug, PartialEq, Eq)]
pub(crate) enum Round {
    /// A hand was taken and settled.
    Settled,
    /// Nothing waited, and other seats had hands.
    Idle,
    /// Nothing waited and no hand was out.
    Closed,
    /// There was no memory.
    Memory,
}

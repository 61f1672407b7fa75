/// What a worker calls between the taking of a hand and its settling, without the lock. It changes no answer.
pub trait Gate: Sync {
    /// The worker of this seat, below 64, has taken a hand and has not settled it yet.
    fn between(&self, seat: u32);
}

/// A gate that returns at once.
#[derive(Clone, Copy, Debug, Drop)]
pub struct OpenGate;

impl Gate for OpenGate {
    fn between(&self, _seat: u32) {}
}

//! What is called around each turn of an actor.

/// Is called around each turn of an actor, outside the lock. The actors run on threads of their own, so its calls come from several
/// threads at once. A gate that waits holds its actor back. No clause says which of its calls come, or when.
pub trait Gate: Sync {
    /// Comes before an actor, from 0 to 3, takes the lock for its turn `index`, counted from 0.
    fn before(&self, actor: u32, index: u64);

    /// Comes after it gave the lock back.
    fn after(&self, actor: u32, index: u64);
}

/// A gate that does nothing.
#[derive(Clone, Copy, Debug, Drop)]
pub struct OpenGate;

impl Gate for OpenGate {
    fn before(&self, _actor: u32, _index: u64) {}

    fn after(&self, _actor: u32, _index: u64) {}
}

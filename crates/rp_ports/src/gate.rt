//! What is called round each piece of work.

/// What whoever runs the piece of a ticket, a worker or the coordinator, calls round that piece. It has no meaning: a gate may
/// count, or delay whoever comes, and no result depends on it.
pub trait Gate: Sync {
    /// Called before the piece of the ticket with this number.
    fn enter(&self, ticket: u64);

    /// Called after it.
    fn leave(&self, ticket: u64);
}

/// A gate that does nothing.
#[derive(Clone, Copy, Drop)]
pub struct OpenGate;

impl Gate for OpenGate {
    fn enter(&self, _ticket: u64) {}

    fn leave(&self, _ticket: u64) {}
}

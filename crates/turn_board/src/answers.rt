//! What the calls answer.

/// What a worker that looks is told.
#[derive(Drop)]
pub enum See {
    /// The ticket is open.
    Open,
    /// So many numbers are open, and the ticket is not below them.
    NotYet(u64),
    /// The ticket is not open, and the board is closed.
    Closed,
}

/// One value for each lane.
#[derive(Drop)]
pub struct Six<T> {
    pub l0: T,
    pub l1: T,
    pub l2: T,
    pub l3: T,
    pub l4: T,
    pub l5: T,
}

/// What a master that gathers is told.
#[derive(Drop)]
pub enum Gather<R> {
    /// Each lane's result.
    All(Six<R>),
    /// So many numbers are finished, fewer than are open.
    Part(u64),
}

//! What a slot of the table carries.

/// A lane has two slots: a job goes through the first, and its result through the second.
#[derive(Drop)]
pub enum Slot<J, R> {
    Empty,
    Job(J),
    Found(R),
}

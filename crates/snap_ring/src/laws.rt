//! The law of snapshots, as the contract of a function without arguments.

ghost use Rattle.snap_ring.specs.Laws.{KeepingIsFaithful};

/// A state that is to be kept is found by its cycle, and what was kept before stays as it is.
#[tactic(auto, using(crate::proofs::Faithful::keeping_is_faithful))]
pub fn keeping_is_faithful()
    ensures { KeepingIsFaithful }
{}

//! The law of byte lanes, as the contract of a function without arguments.
ghost use Rattle.ram_banks.specs.Laws.{LanesLaw};

/// A write of some byte lanes changes the chosen bytes of the word to those of the value, and no other byte.
#[tactic(auto, using(crate::proofs::Lanes::writes_lanes))]
pub fn writes_lanes()
    ensures { LanesLaw }
{}

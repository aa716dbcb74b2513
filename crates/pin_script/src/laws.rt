//! The laws of scripts, each the contract of a function without arguments.

ghost use Rattle.pin_script.specs.Laws.{TheGreatestPairActs, TheGreatestPairOfAFileActs};

/// In a list of entries whose lines do not fall, the scripted level of a pin in a cycle is that of the entry for the pin with
/// the greatest pair of cycle and line whose cycle is not later; without one the pin is free.
#[tactic(auto, using(crate::proofs::Acting::the_greatest_pair_acts))]
pub fn the_greatest_pair_acts()
    ensures { TheGreatestPairActs }
{}

/// The same of every file that is a script: its entries stand in order of their lines.
#[tactic(auto, using(crate::proofs::FileActs::the_greatest_pair_of_a_file_acts))]
pub fn the_greatest_pair_of_a_file_acts()
    ensures { TheGreatestPairOfAFileActs }
{}

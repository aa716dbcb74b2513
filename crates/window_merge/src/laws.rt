//! The laws of windows, each the contract of a function without arguments.

ghost use Rattle.window_merge.specs.Laws.{TheRunEndsWhereCyclesEnd};

/// A run that goes by windows and single cycles comes to the state at which the run by single cycles stops.
#[tactic(auto, using(crate::proofs::Positions::run_ends))]
pub fn the_run_ends_where_cycles_end()
    ensures { TheRunEndsWhereCyclesEnd }
{}

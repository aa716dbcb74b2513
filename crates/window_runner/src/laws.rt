//! The laws of runs of windows, each the contract of a function without arguments.

ghost use Rattle.window_runner.specs.Laws.{TheEventsAreThoseOfCycles, TheMarksTellTheEvents, WindowsAreFew};
ghost use Rattle.window_runner.specs.Orders.{ACommitHasAnOutcome, AnyOrder, AWindowPasses, EachCameOnce, SixReportsAreTaken};
ghost use Rattle.window_runner.specs.AcceptLaws.{WhatIsAcceptedIsTheRunAlone};

/// Whatever the seats do in whatever order, whatever true reports come or do not come, and wherever windows are passed over: the machine
/// after m windows that were committed or passed over is the state at which the run tries its window m, counted from 0, or at which it
/// stops where it does not try that many.
#[tactic(auto, using(crate::proofs::Ordering::any_order))]
pub fn any_order()
    ensures { AnyOrder }
{}

/// Where a window may be committed, each of its six numbers was finished once, whatever the seats did before.
#[tactic(auto, using(crate::proofs::Finishing::each_came_once))]
pub fn each_came_once()
    ensures { EachCameOnce }
{}

/// Where a window may be committed, it cannot be that this has no outcome.
#[tactic(auto, using(crate::proofs::Passing::a_commit_has_an_outcome))]
pub fn a_commit_has_an_outcome()
    ensures { ACommitHasAnOutcome }
{}

/// From each state that begins a run and has no stop, one seat alone can pass a window for which no report comes: its commit takes the
/// six runs alone.
#[tactic(auto, using(crate::proofs::Passing::a_window_passes))]
pub fn a_window_passes()
    ensures { AWindowPasses }
{}

/// From each such state it can pass one for which six true reports come, and its commit takes these.
#[tactic(auto, using(crate::proofs::Passing::six_reports_are_taken))]
pub fn six_reports_are_taken()
    ensures { SixReportsAreTaken }
{}

/// A run that goes by windows and single cycles has the events of the run by single cycles, in the same order.
#[tactic(auto, using(crate::proofs::Along::events_of_windows))]
pub fn the_events_are_those_of_cycles()
    ensures { TheEventsAreThoseOfCycles }
{}

/// The marks of cycles that were all done tell their events, from the levels of the pads before them.
#[tactic(auto, using(crate::proofs::Marks::marks_tell))]
pub fn the_marks_tell_the_events()
    ensures { TheMarksTellTheEvents }
{}

/// A run tries at most as many windows as it has cycles.
#[tactic(auto, using(crate::proofs::Along::few_windows))]
pub fn windows_are_few()
    ensures { WindowsAreFew }
{}

/// A true report is accepted for a state exactly where it is the run alone of its lane there.
#[tactic(auto, using(crate::proofs::Accepted::what_is_accepted))]
pub fn what_is_accepted_is_the_run_alone()
    ensures { WhatIsAcceptedIsTheRunAlone }
{}

//! The laws of the board of tickets, each the contract of a function without arguments.
ghost use Rattle.turn_board.specs.Laws.{EventsKeepGood, AllDone, TicketsBounded, LanesDiffer, NoneHolding};
ghost use Rattle.turn_board.specs.Kinds.{StepsAreEvents};

use crate::kept::Kept;

/// Each legal event keeps a good state good.
#[tactic(auto, using(crate::proofs::Keeps::events_keep_good))]
pub fn events_keep_good()
    ensures { EventsKeepGood }
{}

/// Where as many numbers are finished as are open, every open number stands once in the finished list of the one
/// seat that drew it.
#[tactic(auto, using(crate::proofs::Follows::all_done))]
pub fn all_done()
    ensures { AllDone }
{}

/// No more numbers are finished than are open, and no more are drawn than that and one for each seat.
pub fn tickets_bounded()
    ensures { TicketsBounded }
{}

/// Two seats that are holding have numbers of different lanes.
#[tactic(auto, using(crate::proofs::Follows::lanes_differ))]
pub fn lanes_differ()
    ensures { LanesDiffer }
{}

/// No seat is holding where the master knows that all open numbers are finished.
#[tactic(auto, using(crate::proofs::Follows::none_holding))]
pub fn none_holding()
    ensures { NoneHolding }
{}

/// Each of the seven kinds of step is the event of its name: from a table that meets the rule it leaves one that meets the
/// rule with the board after that event. So between any two steps the words and the views are a good state.
pub fn steps_are_events<J: Kept<W>, R: Kept<W>, W>()
    ensures { (key : W) → StepsAreEvents J.made_for R.made_for key }
{}

//! The laws of the exceptions, each the contract of a function without arguments.

ghost use Rattle.m0_nvic.specs.Laws.{ThePriorityIsTheLeast, AHeldLinePendsAgain};
ghost use Rattle.m0_nvic.specs.TimerLaws.{TheTimerHasItsPeriod};
ghost use Rattle.m0_nvic.specs.Words.{EachRegisterIsAtItsOffset};

/// The execution priority is the least of the active exceptions' priorities and of that of PRIMASK, which is 0 where it is
/// set; it is 256 where there is neither.
#[tactic(auto, using(crate::proofs::InForce::the_priority_is_the_least))]
pub fn the_priority_is_the_least()
    ensures { ThePriorityIsTheLeast }
{}

/// An interrupt whose line is held high from its entry on is not pending while it is active, in cycles in which only the timer
/// and the lines act on the exceptions. After the return it is pending again exactly where the line is still high in the cycle
/// in which the interrupt ceases to be active.
pub fn a_held_line_pends_again()
    ensures { AHeldLinePendsAgain }
{}

/// From a reload value of n the system timer counts down to 0 and is n again after n + 1 counts; the count to 0 alone asks for its
/// exception.
pub fn the_timer_has_its_period()
    ensures { TheTimerHasItsPeriod }
{}

/// At the offset of each register stands that register, and nothing at any other.
#[tactic(auto, using(crate::proofs::Rows::registers))]
pub fn each_register_is_at_its_offset()
    ensures { EachRegisterIsAtItsOffset }
{}

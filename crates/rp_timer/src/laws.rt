//! The laws of the timer, each the contract of a function without arguments.

ghost use Rattle.rp_timer.specs.Laws.{TimeCountsMicroseconds, TheTimeReadsAsOne, ACarryTearsTheRead, AnAlarmGoesOffOnce};
ghost use Rattle.rp_timer.specs.Words.{EachRegisterIsAtItsOffset, ATimerThatIsHeldIsStill};
ghost use Rattle.rp_timer.specs.InterruptLaws.{WhatIsEnabledOrForcedIsShown};

/// A timer that is not paused counts the microseconds that end, of 125 cycles each.
#[tactic(auto, using(crate::proofs::Count::time_counts_microseconds))]
pub fn time_counts_microseconds()
    ensures { TimeCountsMicroseconds }
{}

/// TIMELR, and TIMEHR any number of cycles after it, are the two words of one time, unless the high word rises in the cycle in
/// which TIMELR is read.
#[tactic(auto, using(crate::proofs::Latched::the_time_reads_as_one))]
pub fn the_time_reads_as_one()
    ensures { TheTimeReadsAsOne }
{}

/// Where the high word rises in the cycle in which TIMELR is read, the low word is ffffffff and TIMEHR has the next high word.
#[tactic(auto, using(crate::proofs::Latched::a_carry_tears_the_read))]
pub fn a_carry_tears_the_read()
    ensures { ACarryTearsTheRead }
{}

/// An armed alarm sets its interrupt when the low word of the time passes its word, and is armed until then.
pub fn an_alarm_goes_off_once()
    ensures { AnAlarmGoesOffOnce }
{}

/// At the offset of each register stands that register, and nothing at any other.
pub fn each_register_is_at_its_offset()
    ensures { EachRegisterIsAtItsOffset }
{}

/// A timer that RESETS holds reads as 0 at each register, and no access changes it.
#[tactic(auto, using(rp_base::proofs::Rows::held))]
pub fn a_timer_that_is_held_is_still()
    ensures { ATimerThatIsHeldIsStill }
{}

/// INTS is INTR where INTE enables it, and INTF whatever is enabled.
pub fn what_is_enabled_or_forced_is_shown()
    ensures { WhatIsEnabledOrForcedIsShown }
{}

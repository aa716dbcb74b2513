//! The laws of the pins' interrupts, each the contract of a function without arguments.

ghost use Rattle.io_bank.specs.Laws.{WhatIsEnabledOrForcedIsShown, AnEdgeIsLatchedTwoCyclesLater, AWriteClearsAnEdge};

/// A bit of INTS is that of INTR where INTE enables it, and that of INTF whatever is enabled.
pub fn what_is_enabled_or_forced_is_shown()
    ensures { WhatIsEnabledOrForcedIsShown }
{}

/// A change of an input in one cycle is latched in INTR two cycles later, and nothing else is; what is latched stays.
pub fn an_edge_is_latched_two_cycles_later()
    ensures { AnEdgeIsLatchedTwoCyclesLater }
{}

/// A 1 that is written to INTR clears the edge of its bit, but not one of the same cycle; a 0 leaves it.
pub fn a_write_clears_an_edge()
    ensures { AWriteClearsAnEdge }
{}

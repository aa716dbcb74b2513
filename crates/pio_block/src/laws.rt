//! The laws of a block, each the contract of a function without arguments.

ghost use Rattle.pio_block.specs.Laws.{TheHighestMachineDecides, ABlockAtResetNeverActs, NoFifoHoldsTooMuch};
ghost use Rattle.pio_block.specs.Quiet.{AQuietBlockShowsTheSame};
ghost use Rattle.pio_block.specs.InstrLaws.{AWrittenWordComesNext};
ghost use Rattle.pio_block.specs.InterruptLaws.{WhatIsEnabledOrForcedIsShown};
ghost use Rattle.pio_block.specs.Words.{EachRegisterIsAtItsOffset, ABlockThatIsHeldIsStill};

/// Of each pin the highest machine that wrote it in a cycle decides, and a pin that no machine wrote stays.
pub fn the_highest_machine_decides()
    ensures { TheHighestMachineDecides }
{}

/// In its reset state a block asks nothing, wants nothing and stays as it is: so does one that is held.
#[tactic(auto, unfolding(crate::specs::Cycle::asks, crate::specs::Cycle::next))]
pub fn a_block_at_reset_never_acts()
    ensures { ABlockAtResetNeverActs }
{}

/// A block that is held reads 0, and no access changes it.
#[tactic(auto, using(rp_base::proofs::Rows::held))]
pub fn a_block_that_is_held_is_still()
    ensures { ABlockThatIsHeldIsStill }
{}

/// In cycles in which each of its machines only waits, between ticks, in a delay or on a word that stalls, and its inputs stay, only the
/// dividers and delays of a block go on, and its pins, its interrupt lines and the counts that pace DMA channels stay.
#[tactic(auto, using(crate::proofs::Between::a_quiet_block_shows_the_same))]
pub fn a_quiet_block_shows_the_same()
    ensures { AQuietBlockShowsTheSame }
{}

/// No FIFO holds more words than it has room for, whatever happens to a block from its reset state on: cycles, accesses to any
/// of its words, resets, and the program counter that is set where a program is loaded before a run.
#[tactic(auto, using(crate::proofs::Depths::no_fifo_holds_too_much))]
pub fn no_fifo_holds_too_much()
    ensures { NoFifoHoldsTooMuch }
{}

/// INTS of a line is INTR where its INTE enables it, and its INTF whatever is enabled.
#[tactic(auto, unfolding(crate::specs::Words::word_of))]
pub fn what_is_enabled_or_forced_is_shown()
    ensures { WhatIsEnabledOrForcedIsShown }
{}

/// The low half of what is written to INSTR of a machine is the word that it tries in the next cycle, enabled or not.
#[tactic(auto, using(crate::proofs::Instr::comes_next))]
pub fn a_written_word_comes_next()
    ensures { AWrittenWordComesNext }
{}

/// At the offset of each register stands that register, and nothing at any other.
#[tactic(auto, using(crate::proofs::Rows::registers))]
pub fn each_register_is_at_its_offset()
    ensures { EachRegisterIsAtItsOffset }
{}

//! The laws of the engine, each the contract of a function without arguments.

ghost use Rattle.dma_engine.specs.Laws.{TheChoiceComesFirst};
ghost use Rattle.dma_engine.specs.Pace.{CountsAreTakenAsPacked};
ghost use Rattle.dma_engine.specs.TransferLaws.{ACopyIsExact, ARingKeepsItsHighBits, AnAbortRaisesNothing};
ghost use Rattle.dma_engine.specs.Awaited.{AnEngineAtResetNeverActs};
ghost use Rattle.dma_engine.specs.InterruptLaws.{WhatIsEnabledOrForcedIsShown};
ghost use Rattle.dma_engine.specs.Words.{EachRegisterIsAtItsOffset, AnEngineThatIsHeldIsStill};

/// Counts of at most 63 that are packed into one answer are taken from it as they were.
#[tactic(auto, using(crate::proofs::Packing::taken_as_packed))]
pub fn counts_are_taken_as_packed()
    ensures { CountsAreTakenAsPacked }
{}

/// Of the channels that can be chosen, the choice is one of high priority, or one of all where none of these can be chosen;
/// and of its kind it is the one whose turn comes first after the channel that was chosen last. There is a choice wherever a
/// channel can be chosen.
#[tactic(auto, using(crate::proofs::First::choice_comes_first))]
pub fn the_choice_comes_first()
    ensures { TheChoiceComesFirst }
{}

/// A channel that alone copies n words writes each to its place in order, ends in the cycle after the last one, and raises its
/// interrupt once.
pub fn a_copy_is_exact()
    ensures { ACopyIsExact }
{}

/// In a ring the bits of an address above it stay.
#[tactic(auto, using(crate::proofs::Copying::ring_kept))]
pub fn a_ring_keeps_its_high_bits()
    ensures { ARingKeepsItsHighBits }
{}

/// A sequence that is aborted while nothing is in flight writes nothing and raises nothing.
pub fn an_abort_raises_nothing()
    ensures { AnAbortRaisesNothing }
{}

/// INTS of a line is INTR where its INTE enables it, and its INTF whatever is enabled.
#[tactic(auto, unfolding(crate::specs::Words::word_of))]
pub fn what_is_enabled_or_forced_is_shown()
    ensures { WhatIsEnabledOrForcedIsShown }
{}

/// At the offset of each register stands that register, and nothing at any other.
#[tactic(auto, using(crate::proofs::Rows::registers))]
pub fn each_register_is_at_its_offset()
    ensures { EachRegisterIsAtItsOffset }
{}

/// In its reset state the engine asks nothing, wants nothing and stays as it is: so does one that is held.
pub fn an_engine_at_reset_never_acts()
    ensures { AnEngineAtResetNeverActs }
{}

/// An engine that is held reads 0, and no access changes it.
#[tactic(auto, using(rp_base::proofs::Rows::held))]
pub fn an_engine_that_is_held_is_still()
    ensures { AnEngineThatIsHeldIsStill }
{}

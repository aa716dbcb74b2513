//! The laws of lines and sources, each the contract of a function without parameters.

ghost use Rattle.thumb_asm.specs.Laws.{InstructionsAreDecoded, WhatIsAssembledIsReadBack};

/// The image of a source is that of bytes in which each instruction of the source stands at its address: the table of encodings gives
/// that operation for the halfwords there.
#[tactic(auto, using(crate::proofs::Decoded::decoded))]
pub fn instructions_are_decoded()
    ensures { InstructionsAreDecoded }
{}

/// The image of a source can be written, the file of it holds that image, and its entry is the start of SRAM.
pub fn what_is_assembled_is_read_back()
    ensures { WhatIsAssembledIsReadBack }
{}

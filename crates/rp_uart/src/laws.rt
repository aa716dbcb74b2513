//! The laws of frames, each the contract of a function without arguments.

ghost use Rattle.rp_uart.specs.Laws.{WhatIsSentIsHeard, AFrameTakesItsTime, TheByteComesBack};
ghost use Rattle.rp_uart.specs.Words.{EachRegisterIsAtItsOffset};

/// A receiver that samples each bit of a frame, as a sender with the same parity and number of data bits sends it, hears the
/// data bits of its byte, and no error.
#[tactic(auto, using(crate::proofs::Heard::heard_law))]
pub fn what_is_sent_is_heard()
    ensures { WhatIsSentIsHeard }
{}

/// A frame takes the time of its bits: one of n bits that begins in a cycle ends in the first cycle in which four times the
/// cycles since reach n times the divisor in sixty-fourths. Until then TX has the level of the bit whose time it is.
pub fn a_frame_takes_its_time()
    ensures { AFrameTakesItsTime }
{}

/// A UART at rest with LBE that is given a byte to send has it in its receive FIFO, without an error, once its frame is over.
#[tactic(auto, using(crate::proofs::Loopback::the_byte_comes_back))]
pub fn the_byte_comes_back()
    ensures { TheByteComesBack }
{}

/// At the offset of each register stands that register, and nothing at any other.
pub fn each_register_is_at_its_offset()
    ensures { EachRegisterIsAtItsOffset }
{}

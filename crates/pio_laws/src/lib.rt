//! Laws of a PIO machine above its definition, each the contract of a function without arguments.
#![tactic(auto)]

ghost use Rattle.pio_laws.specs.Pushes.{TheBitsInAreThosePushed};

/// The words that are read from the RX FIFO, and then those that wait there, are those that were pushed, in order; and their bits, and
/// then those in the ISR, are the bits that INs took, in order, while no IN takes more bits than the ISR has room for, no PUSH drops
/// its bits, no OUT or MOV gives the ISR another word, and SHIFTCTRL stays.
#[tactic(auto, using(crate::proofs::Pushes::the_bits_in_are_those_pushed))]
pub fn the_bits_in_are_those_pushed()
    ensures { TheBitsInAreThosePushed }
{}

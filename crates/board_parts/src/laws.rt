//! The laws of what a probe hears and of what parts drive, each the contract of a function without arguments.

ghost use Rattle.board_parts.specs.HearingLaws.{HearsInTurn, HearsItsOwn};
ghost use Rattle.board_parts.specs.PartLaws.{NoPartsAddNothing, TheEarlierPartDrives, PressedInTheSecondHalf, EightClocksFillTheRegister, ALoopShowsItsFirstPin};

/// Changes that are heard one after another leave what they leave together.
#[tactic(auto, using(crate::proofs::Hearing::hears_in_turn))]
pub fn hears_in_turn()
    ensures { HearsInTurn }
{}

/// A change of another pin leaves a probe as it was.
#[tactic(auto, using(crate::proofs::Hearing::hears_its_own_pin))]
pub fn hears_its_own_pin()
    ensures { HearsItsOwn }
{}

/// A device beside no parts does what it does alone.
#[tactic(auto, using(crate::proofs::PartLaws::no_parts_add_nothing))]
pub fn no_parts_add_nothing()
    ensures { NoPartsAddNothing }
{}

/// A part before others drives its pins at its levels, and every other pin is as the others have it.
pub fn the_earlier_part_drives()
    ensures { TheEarlierPartDrives }
{}

/// A button is low in the second half of each 100,000 cycles, and drives nothing in the first half.
#[tactic(auto, using(crate::proofs::PartLaws::pressed_in_the_second_half))]
pub fn pressed_in_the_second_half()
    ensures { PressedInTheSecondHalf }
{}

/// After eight rising clocks a shift register has the eight bits of its data in order, and shows the first of them.
#[tactic(auto, using(crate::proofs::PartLaws::eight_clocks_fill_the_register))]
pub fn eight_clocks_fill_the_register()
    ensures { EightClocksFillTheRegister }
{}

/// A wire drives its second pin alone, with the level that its first pin has.
pub fn a_loop_shows_its_first_pin()
    ensures { ALoopShowsItsFirstPin }
{}

//! The laws of the PWM block, each the contract of a function without arguments.

ghost use Rattle.pwm_block.specs.Words.{EachRegisterIsAtItsOffset};
ghost use Rattle.pwm_block.specs.Laws.{CountsAreThoseOfTheDivider, ADisabledSliceKeepsStill, AWriteShowsAtTheWrap, OutputAIsHighForCc, PhaseCorrectPeriodsAreSymmetric, TheWordsHoldTheBlock, EachPinHasItsOutput};

/// The words of the device hold a block of eight slices from the start on, and each call does to them what it does to the block.
#[tactic(auto, using(crate::proofs::Held::the_words_hold_the_block))]
pub fn the_words_hold_the_block()
    ensures { TheWordsHoldTheBlock }
{}

/// A slice that counts all cycles, up alone, has counted and wrapped after n cycles as often as its divider says.
pub fn counts_are_those_of_the_divider()
    ensures { CountsAreThoseOfTheDivider }
{}

/// Over one period, of TOP + 1 counts, output A is high for CC of them, and at most for all.
#[tactic(auto, using(crate::proofs::Periods::output_a_is_high_for_cc))]
pub fn output_a_is_high_for_cc()
    ensures { OutputAIsHighForCc }
{}

/// CC or TOP that is written to an enabled slice counts from its next wrap on, and not before.
pub fn a_write_shows_at_the_wrap()
    ensures { AWriteShowsAtTheWrap }
{}

/// With PH_CORRECT a period has 2 (TOP + 1) counts, and falls as it rose.
pub fn phase_correct_periods_are_symmetric()
    ensures { PhaseCorrectPeriodsAreSymmetric }
{}

/// A slice that is not enabled stays as it is.
#[tactic(auto, using(crate::proofs::Wraps::a_disabled_slice_keeps_still))]
pub fn a_disabled_slice_keeps_still()
    ensures { ADisabledSliceKeepsStill }
{}

/// Pin 2n has output A, and pin 2n + 1 output B, of slice n, and from pin 16 on of the slices anew.
pub fn each_pin_has_its_output()
    ensures { EachPinHasItsOutput }
{}

/// At the offset of each register stands that register, and nothing at any other.
#[tactic(auto, using(crate::proofs::Rows::registers))]
pub fn each_register_is_at_its_offset()
    ensures { EachRegisterIsAtItsOffset }
{}

//! The laws of the block, each the contract of a function without arguments.

ghost use Rattle.sio_block.specs.Laws.{ALockHasOneOwner, ResultsAreTruncated, ADivisionTakesEightCycles, SixWordsStartCore1, EachRegisterIsAtItsOffset};
ghost use Rattle.sio_block.specs.MailLaws.{WordsStayInOrder, TheLauncherAnswers};

/// Of two cores that read a free spinlock in one cycle the first gets it, and the second finds it taken until it is written.
pub fn a_lock_has_one_owner()
    ensures { ALockHasOneOwner }
{}

/// The results of a division are the exact quotient, truncated towards zero, and its remainder.
#[tactic(auto, using(crate::proofs::Division::results_are_truncated))]
pub fn results_are_truncated()
    ensures { ResultsAreTruncated }
{}

/// After a write of an operand the old results are read for 7 cycles, and those of the operands from the eighth on.
#[tactic(auto, using(crate::proofs::Division::a_division_takes_eight_cycles))]
pub fn a_division_takes_eight_cycles()
    ensures { ADivisionTakesEightCycles }
{}

/// 0, 0, 1, a vector table, a stack pointer and an entry are echoed by the launcher, and start core 1 there.
#[tactic(auto, using(crate::proofs::Handshake::six_words_start_core_1))]
pub fn six_words_start_core_1()
    ensures { SixWordsStartCore1 }
{}

/// The words that a mailbox has and those that come into it, at most 8 at once, are read in their order; a word that comes into a
/// full one is dropped.
#[tactic(auto, using(crate::proofs::Post::stay_in_order))]
pub fn words_stay_in_order()
    ensures { WordsStayInOrder }
{}

/// The launcher echoes each word that fits, and answers another one by its complement.
#[tactic(auto, using(crate::proofs::Post::launcher_answers))]
pub fn the_launcher_answers()
    ensures { TheLauncherAnswers }
{}

/// At the offset of each register of the pins, the mailboxes and the dividers stands that register, and nothing of them at any other.
pub fn each_register_is_at_its_offset()
    ensures { EachRegisterIsAtItsOffset }
{}

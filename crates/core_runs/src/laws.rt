//! The laws of a core that runs alone, each the contract of a function without arguments.

ghost use Rattle.core_runs.specs.Checksum.{AChecksumAdds};
ghost use Rattle.core_runs.specs.Runs.{ARunAloneChains, ARunAloneIsTheCoresOwn, ASilentCycleStaysSilent, StepsChain};
ghost use Rattle.core_runs.specs.Instructions.{AnInstructionSteps};
ghost use Rattle.core_runs.specs.Programs.{AHalfwordSteps, EachPlaceHasAByte, EachFourthPlaceHasAWord, CodeIsFetched, APutElsewhereKeepsCode};
ghost use Rattle.core_runs.specs.Words.{ARunOverWordsIsThatOverTheirBytes, StepsHoldOverWords, TheBytesOfWordsAreSram};

use core_laws::an_instruction_takes_its_beats;

/// The run alone of n + k cycles is that of n cycles and then that of k.
pub fn a_run_alone_chains()
    ensures { ARunAloneChains }
{}

/// Where a core wants nothing but accesses to SRAM its run alone is its own stepping, cycle by cycle.
pub fn a_run_alone_is_the_cores_own()
    ensures { ARunAloneIsTheCoresOwn }
{}

/// A run alone over the words of SRAM, as the machine has them, is that over their bytes.
pub fn a_run_over_words_is_that_over_their_bytes()
    ensures { ARunOverWordsIsThatOverTheirBytes }
{}

/// So steps over the bytes are steps over the words.
pub fn steps_hold_over_words()
    ensures { StepsHoldOverWords }
{}

/// The bytes of the words of SRAM are SRAM as a list of bytes.
pub fn the_bytes_of_words_are_sram()
    ensures { TheBytesOfWordsAreSram }
{}

/// A cycle in which every interrupt line is low keeps what is pending, active and enabled: no exception comes where none was
/// pending and the system timer asks for none.
pub fn a_silent_cycle_stays_silent()
    ensures { ASilentCycleStaysSilent }
{}

/// Steps from instruction to instruction are chained.
pub fn steps_chain()
    ensures { StepsChain }
{}

/// An instruction in SRAM whose accesses are to SRAM takes as many cycles as it has beats, and leaves what its operation says.
pub fn an_instruction_steps()
    ensures { AnInstructionSteps }
{
    an_instruction_takes_its_beats();
}

/// The same by the halfword at PC: it is an operation whose beats, registers and memory are known.
pub fn a_halfword_steps()
    ensures { AHalfwordSteps }
{
    an_instruction_steps();
}

/// An access to a byte of SRAM reads the byte of its place in the list, or puts one there.
pub fn each_place_has_a_byte()
    ensures { EachPlaceHasAByte }
{}

/// An access to a word of SRAM reads the four bytes from its place on, or puts four there.
pub fn each_fourth_place_has_a_word()
    ensures { EachFourthPlaceHasAWord }
{}

/// Code that SRAM holds is fetched from there.
#[tactic(auto, using(crate::proofs::Bytes::code_is_fetched))]
pub fn code_is_fetched()
    ensures { CodeIsFetched }
{}

/// Bytes that are put elsewhere leave the code.
pub fn a_put_elsewhere_keeps_code()
    ensures { APutElsewhereKeepsCode }
{}

/// A routine as an example: the sum of n words of SRAM takes 8n + 5 cycles wherever its code stands, and changes no byte.
pub fn a_checksum_adds()
    ensures { AChecksumAdds }
{
    a_halfword_steps();
}

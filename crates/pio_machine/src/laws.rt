//! The laws of a machine, each the contract of a function without arguments.

ghost use Rattle.pio_machine.specs.Once.{AnInShiftsOnce, AnIrqRaisesOnce};
ghost use Rattle.pio_machine.specs.Drives.{TheLaterMachineDecides, TheSideSetDecides};
ghost use Rattle.pio_machine.specs.Stream.{TheBitsOutAreThoseSent};
ghost use Rattle.pio_machine.specs.Clock.{AMachineTicksByItsDivider, ACycleKeepsTheFifosWithin};
ghost use Rattle.pio_machine.specs.WordLaws.{AWordBeginsUntried, AWrittenWordComesNext, TheBitsInStandAtTheirEnd, AStallKeepsTheRest};

/// An IN that completes has shifted its bits exactly once since it was first tried, however often it stalled.
#[tactic(auto, using(crate::proofs::Once::an_in_shifts_once))]
pub fn an_in_shifts_once()
    ensures { AnInShiftsOnce }
{}

/// An IRQ with Wait that completes has raised its flag at its first try and at no other one, and finds it clear at the last.
#[tactic(auto, using(crate::proofs::Once::an_irq_raises_once))]
pub fn an_irq_raises_once()
    ensures { AnIrqRaisesOnce }
{}

/// In so many cycles from a divider at rest an enabled machine ticks once for each begun period of its divider.
#[tactic(auto, using(crate::proofs::Clock::a_machine_ticks_by_its_divider))]
pub fn a_machine_ticks_by_its_divider()
    ensures { AMachineTicksByItsDivider }
{}

/// No cycle leaves more words in a FIFO than it has room for.
pub fn a_cycle_keeps_the_fifos_within()
    ensures { ACycleKeepsTheFifosWithin }
{}

/// The bits that OUTs give up to the threshold, and then those that wait, are the bits of the words that were sent, in order,
/// while nothing but autopull loads the OSR (no PULL that does something, no MOV to it) and SHIFTCTRL stays.
#[tactic(auto, using(crate::proofs::Stream::the_bits_out_are_those_sent))]
pub fn the_bits_out_are_those_sent()
    ensures { TheBitsOutAreThoseSent }
{}

/// Of each pin the machine that writes it later in a cycle decides, and a pin that it does not write stays.
pub fn the_later_machine_decides()
    ensures { TheLaterMachineDecides }
{}

/// Within a machine the side-set decides, and a pin that it does not write has what the operation wrote.
pub fn the_side_set_decides()
    ensures { TheSideSetDecides }
{}

/// At reset, at a restart, after the word at PC has completed, after a jump and for a word that is given or written, nothing was
/// raised and nothing shifted; and after such a word the one at PC goes on from where it was.
pub fn a_word_begins_untried()
    ensures { AWordBeginsUntried }
{}

/// A word that was written to INSTR is the one that is tried in the next cycle, whether the machine is enabled or not.
#[tactic(auto, using(crate::proofs::Tries::comes_next))]
pub fn a_written_word_comes_next()
    ensures { AWrittenWordComesNext }
{}

/// The bits that an IN shifts stand at the end of the ISR where they enter, and those of before next to them.
pub fn the_bits_in_stand_at_their_end()
    ensures { TheBitsInStandAtTheirEnd }
{}

/// A try that stalls leaves PC, the delay, X, Y and the RX FIFO as they were.
#[tactic(auto, using(crate::proofs::Tries::stall_keeps))]
pub fn a_stall_keeps_the_rest()
    ensures { AStallKeepsTheRest }
{}

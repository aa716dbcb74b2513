//! What the cycles of a core come to, as laws of its definition, each the contract of a function without arguments.
#![tactic(auto)]

ghost use Rattle.core_laws.specs.Laws.{AnInstructionTakesItsBeats, AnAccessLastsUntilItIsDone};
ghost use Rattle.core_laws.specs.Begins.{WhatBeginsIsFetchedFirst};
ghost use Rattle.core_laws.specs.EventLaws.{AWfeMovesOnAtAnEvent, AReturnFaults};
ghost use Rattle.core_laws.specs.ExceptionLaws.{WhatIsTakenIsTheLeast, AFaultPendsHardFaultAlone, AWfiMovesOnWhereAnExceptionWakes};
ghost use Rattle.core_laws.specs.Handlers.{AnEntryTakesItsBeats, AReturnTakesItsBeats, AReturnGivesBackWhatAnEntryFound};
ghost use Rattle.core_laws.specs.Sound.{ACoreStaysSound};
ghost use Rattle.core_laws.specs.Stops.{ACoreStopsAtItsCauses};
ghost use Rattle.core_laws.specs.Waiting.{AnInstructionTakesItsBeatsAndWaits};
ghost use Rattle.std.specs.Prelude.{◌<◌, ◌^◌};
ghost use Rattle.m0_beats.specs.Registers.{sp_of};

use m0_beats::Regs;

/// An instruction none of whose accesses the private bus refuses stops in none of its cycles. In fewer cycles than it has beats it
/// changes neither registers nor flags, and in as many it wants the accesses of its beats and leaves what its operation says, where
/// each access is done in the cycle in which it is asked for.
#[tactic(auto, using(crate::proofs::TakesBeats::an_instruction_takes_its_beats))]
pub fn an_instruction_takes_its_beats()
    ensures { AnInstructionTakesItsBeats }
{}

/// In a cycle in which an access waits, registers and flags stay as they are, and so does the beat.
#[tactic(auto, using(crate::proofs::Cycles::an_access_lasts_until_it_is_done))]
pub fn an_access_lasts_until_it_is_done()
    ensures { AnAccessLastsUntilItIsDone }
{}

/// The same where accesses wait: each beat that has an access on the bus lasts until the access is done.
#[tactic(auto, using(crate::proofs::TakesBeats::an_instruction_takes_its_beats_and_waits))]
pub fn an_instruction_takes_its_beats_and_waits()
    ensures { AnInstructionTakesItsBeatsAndWaits }
{}

/// At a boundary a core takes the least pair of priority and number among the exceptions that are pending and enabled, where it
/// comes before the execution priority.
#[tactic(auto, using(crate::proofs::Taken::what_is_taken_is_the_least))]
pub fn what_is_taken_is_the_least()
    ensures { WhatIsTakenIsTheLeast }
{}

/// A fault leaves HardFault pending and changes nothing else, and in the next cycle HardFault's entry begins, or NMI's.
#[tactic(auto, using(crate::proofs::Taken::a_fault_pends_hardfault_alone))]
pub fn a_fault_pends_hardfault_alone()
    ensures { AFaultPendsHardFaultAlone }
{}

/// The second beat of WFI is the last one where an exception wakes at its start, and lasts on elsewhere.
#[tactic(auto, using(crate::proofs::Taken::a_wfi_moves_on_where_an_exception_wakes))]
pub fn a_wfi_moves_on_where_an_exception_wakes()
    ensures { AWfiMovesOnWhereAnExceptionWakes }
{}

/// An entry has 15 beats, of which nine have accesses: while beats are left it is in progress and changes no register, and when
/// none is left the handler begins. The exception is active from the first beat on.
#[tactic(auto, using(crate::proofs::Handlers::an_entry_takes_its_beats))]
pub fn an_entry_takes_its_beats()
    ensures { AnEntryTakesItsBeats }
{}

/// A return has 13 beats, of which eight have accesses: while beats are left it is in progress and changes no register, and when
/// none is left the registers are those of the frame, and the exception is not active any more.
#[tactic(auto, using(crate::proofs::Handlers::a_return_takes_its_beats))]
pub fn a_return_takes_its_beats()
    ensures { AReturnTakesItsBeats }
{}

/// An entry, some handler, and a return while SRAM still has what the entry wrote: the registers that were stacked, the flags, the
/// mode, the stack pointer and the active exceptions are those that the entry found. Where the handler keeps the other registers,
/// all are.
pub fn a_return_gives_back_what_an_entry_found()
    ensures { AReturnGivesBackWhatAnEntryFound }
{}

/// The second beat of WFE is the last one where the event register is set or an exception wakes at its start, and clears the
/// register; elsewhere it lasts on.
#[tactic(auto, using(crate::proofs::Events::a_wfe_moves_on_at_an_event))]
pub fn a_wfe_moves_on_at_an_event()
    ensures { AWfeMovesOnAtAnEvent }
{}

/// In any cycle an awake core stops at a BKPT, at a fault where the execution priority is -1 or lower, that of a return among them, at a
/// fetch outside SRAM, and at an access of any beat that the private bus refuses, with its address; and at nothing else.
#[tactic(auto, using(crate::proofs::Stops::a_core_stops_at_its_causes))]
pub fn a_core_stops_at_its_causes()
    ensures { ACoreStopsAtItsCauses }
{}

/// A return with a bad value leaves HardFault pending alone, or locks the core up where the execution priority is -1 or lower; there
/// its last beat locks the core up where the frame's exception number does not fit the mode.
#[tactic(auto, using(crate::proofs::Events::a_return_faults))]
pub fn a_return_faults()
    ensures { AReturnFaults }
{}

/// The instruction that a core begins in a cycle is the one at the first halfword that it asks for then, whatever it is answered;
/// where it begins none it asks for no halfword.
#[tactic(auto, using(crate::proofs::Begins::what_begins_is_fetched_first))]
pub fn what_begins_is_fetched_first()
    ensures { WhatBeginsIsFetchedFirst }
{}

/// A core is sound while it sleeps and when it was started: R0 to R12, stack pointers that are multiples of 4, an even PC, an exception
/// number of six bits; SPSEL clear in Handler mode, and Thread mode exactly where no exception is active. Each cycle keeps that, but for
/// the last one of a return whose frame has an exception number that does not fit the mode, after which mode and active exceptions need
/// not agree until the next entry, as that of the HardFault which is pending then, is over.
#[tactic(auto, using(crate::proofs::Sound::a_core_stays_sound))]
pub fn a_core_stays_sound()
    ensures { ACoreStaysSound }
{}

/// The stack pointer of a core's registers is a word.
pub fn a_stack_pointer_is_a_word(registers: &Regs)
    ensures { sp_of registers.now < 2 ^ 32 }
{
    let _sp: u32 = registers.active_sp();
}

//! The laws of the machine, each the contract of a function without arguments.

ghost use Rattle.rp_machine.specs.Laws.{EachRegisterIsAtItsOffset, RunsFollowEachOther, SramChangesByTheWritesAlone, EffectsComeAfterTheSteps, SioIsKnown};
ghost use Rattle.rp_machine.specs.Wantless.{CyclesWithoutWantsChangeTheLanesAlone};
ghost use Rattle.rp_machine.specs.Alone.{OneCoreGoesAlone};
ghost use Rattle.rp_machine.specs.Inward.{Core0GoesOnAlone};
ghost use Rattle.rp_machine.specs.LineLaws.{EachLineHasItsNumber, OneCoreGetsALock};

/// A run of some cycles and then of others is one of all of them: it ends in the same state and has the same events.
pub fn runs_follow_each_other()
    ensures { RunsFollowEachOther }
{}

/// A word of SRAM after a cycle is what the writes that are done make of the word before, those of core 0, core 1 and the DMA
/// engine one after another; so a word that none of them writes stays, and of two writes to one word the later stays.
#[tactic(auto, using(crate::proofs::Kept::sram_by_writes))]
pub fn sram_changes_by_the_writes_alone()
    ensures { SramChangesByTheWritesAlone }
{}

/// What a lane is told does not depend on what is done in the same cycle: each of the six steps by what was begun and told by the
/// state at the start, and what is done comes after its step. Of all that is done only SEV reaches core 0, and only SEV and
/// what the launcher has a core 1 that is awake; the DMA engine, a PIO block and the peripherals are after the cycle as their own
/// step left them, where no access is to their registers, to RESETS or to the device.
#[tactic(auto, using(crate::proofs::Kept::effects_after))]
pub fn effects_come_after_the_steps()
    ensures { EffectsComeAfterTheSteps }
{}

/// A cycle in which nobody wants anything and no access lasts changes the lanes, SIO and the number alone: SRAM, the fabric and
/// RESETS stay, and each lane steps by what it has begun.
#[tactic(auto, using(crate::proofs::Wantless::cycles_without_wants))]
pub fn cycles_without_wants_change_the_lanes_alone()
    ensures { CyclesWithoutWantsChangeTheLanesAlone }
{}

/// Where core 0 alone is at work a cycle is its own and the peripherals': core 1, the DMA engine and PIO come to what they come to by
/// themselves.
#[tactic(auto, using(crate::proofs::OneCore::next_alone))]
pub fn one_core_goes_alone()
    ensures { OneCoreGoesAlone }
{}

/// In the first state and after each cycle the pads know the levels and enables that SIO puts out, and core 1 whether its
/// launcher has a word.
#[tactic(auto, using(crate::proofs::Copies::sio_known))]
pub fn sio_is_known()
    ensures { SioIsKnown }
{}

/// Each line stands at its interrupt number of the core that it goes to: TIMER 0 to 3, PIO0 7 and 8, PIO1 9 and 10, DMA 11 and 12,
/// IO_BANK0 13, SIO 15 of core 0 and 16 of core 1, UART0 20, UART1 21; the device's come to any of the 32.
pub fn each_line_has_its_number()
    ensures { EachLineHasItsNumber }
{}

/// Of two cores that read one free spinlock in one cycle core 0 gets its bit and core 1 reads 0; alone each gets it.
pub fn one_core_gets_a_lock()
    ensures { OneCoreGetsALock }
{}

/// Beside a core 1, a DMA engine, PIO blocks and peripherals that are quiet, a core 0 that goes on alone and reaches for nothing but SRAM,
/// waits for the peripherals or reads of them what lasts, does what it does where they lie behind, and they come to what they are so many
/// cycles on.
pub fn core0_goes_on_alone()
    ensures { Core0GoesOnAlone }
{}

/// At the offset of each register of RESETS and of BUSCTRL stands that register, and nothing at any other.
pub fn each_register_is_at_its_offset()
    ensures { EachRegisterIsAtItsOffset }
{}

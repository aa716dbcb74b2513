//! The laws of the start-up registers, each the contract of a function without arguments.

ghost use Rattle.startup_blocks.specs.Laws.{ClocksAreSelectedAtOnce, OscillatorAndPllsAreReady, TheTickRunsAtOnce};
ghost use Rattle.startup_blocks.specs.Words.{EachRegisterIsAtItsOffset};

/// The oscillator is stable and both PLLs are locked, in every state.
#[tactic(auto, using(crate::proofs::Ready::oscillator_and_plls_are_ready))]
pub fn oscillator_and_plls_are_ready()
    ensures { OscillatorAndPllsAreReady }
{}

/// The source that is written to SRC of CLK_REF and of CLK_SYS is selected at once.
#[tactic(auto, using(crate::proofs::Ready::clocks_are_selected_at_once))]
pub fn clocks_are_selected_at_once()
    ensures { ClocksAreSelectedAtOnce }
{}

/// A tick that is enabled runs at once.
#[tactic(auto, using(crate::proofs::Ready::the_tick_runs_at_once))]
pub fn the_tick_runs_at_once()
    ensures { TheTickRunsAtOnce }
{}

/// At the offset of each register stands that register, and nothing at any other.
pub fn each_register_is_at_its_offset()
    ensures { EachRegisterIsAtItsOffset }
{}

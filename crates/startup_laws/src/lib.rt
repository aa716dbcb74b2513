//! What a usual start-up waits for, in the machine and in the start-up registers beside it, and what RESETS holds.
#![tactic(auto)]

ghost use Rattle.startup_laws.specs.Held.{AHeldBlockStays};
ghost use Rattle.startup_laws.specs.Waits.{AStartUpWaitsForNothing};

use dma_engine::laws::an_engine_at_reset_never_acts;
use pio_block::laws::a_block_at_reset_never_acts;
use startup_blocks::laws::{
    clocks_are_selected_at_once, oscillator_and_plls_are_ready, the_tick_runs_at_once,
};

/// Each wait of a usual start-up is over as soon as it begins: for STABLE of XOSC, LOCK of both PLLs, the selected sources of CLK_REF and
/// CLK_SYS, RUNNING of TICK, and the bits of RESET_DONE.
pub fn a_start_up_waits_for_nothing()
    ensures { AStartUpWaitsForNothing }
{
    oscillator_and_plls_are_ready();
    clocks_are_selected_at_once();
    the_tick_runs_at_once();
}

/// The DMA engine and the PIO blocks are in their reset states as long as RESETS holds them, whatever the others do; they read as 0 then,
/// and no access changes them.
pub fn a_held_block_stays()
    ensures { AHeldBlockStays }
{
    an_engine_at_reset_never_acts();
    a_block_at_reset_never_acts();
}

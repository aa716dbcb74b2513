//! Tests of the blocks of registers, DMA and PIO, with the words and cycles that the manuals give.
#![tactic(auto)]

pub mod counter;
#[cfg(test)]
mod device_tests;
#[cfg(test)]
mod dma_engine_tests;
#[cfg(test)]
mod io_bank_tests;
#[cfg(test)]
mod outer_lane_tests;
#[cfg(test)]
mod pio_block_tests;
#[cfg(test)]
mod pio_machine_tests;
#[cfg(test)]
mod rp_timer_tests;
#[cfg(test)]
mod rp_uart_tests;
#[cfg(test)]
mod sio_block_tests;

//! Tests of the cores, of SRAM and the fabric, and of what a lane, a look and a device are, with the words, runs and cycles that the manuals
//! give.
#![tactic(auto)]

#[cfg(test)]
mod bus_fabric_tests;
#[cfg(test)]
mod lane_look_tests;
#[cfg(test)]
mod m0_alu_tests;
#[cfg(test)]
mod m0_beats_tests;
#[cfg(test)]
mod m0_core_tests;
#[cfg(test)]
mod m0_nvic_tests;
#[cfg(test)]
mod ram_banks_tests;
#[cfg(test)]
mod rp_base_tests;
pub mod samples;
#[cfg(test)]
mod thumb_rows_tests;

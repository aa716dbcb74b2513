//! Tests of runs: windows and their reports, the board of tickets by one thread and by several, snapshots and the debugger.
#![tactic(auto)]

pub mod numbers;
#[cfg(test)]
mod reverse_debug_tests;
#[cfg(test)]
mod snap_ring_tests;
#[cfg(test)]
mod turn_board_tests;
#[cfg(test)]
mod window_merge_tests;

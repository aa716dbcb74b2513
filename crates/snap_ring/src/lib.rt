//! Snapshots of a machine at cycles that are a spacing apart, so that an earlier cycle is reached by a short replay.
#![tactic(auto)]

pub mod laws;
mod pages;
mod ring;
mod snapshot;

pub use ring::Ring;
pub use snapshot::greater_of;

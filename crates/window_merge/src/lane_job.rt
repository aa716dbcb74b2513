//! The jobs of the six lanes, and what comes of them.

ghost use Rattle.std.specs.Prelude.{◌≡◌, true, is_some};
ghost use Rattle.window_merge.specs.Kinds.{is_run_of, has_room_for, asks_sram};

use crate::lane_run::{LaneRun, LaneSet};
use crate::notes::Notes;
use quiet_run::Pace;
use rp_machine::begun::Begun;

/// What a lane is to do alone. Its type keeps that the lane is at most 5, and that the set has room for a report of that lane and,
/// where the lane asks for words of SRAM, a copy of it.
#[derive(Drop)]
pub struct LaneJob {
    /// The number of the lane.
    pub lane: u8,
    /// The number of its first cycle.
    pub start: u64,
    /// The cycle at which the machine stops.
    pub limit: u64,
    /// What the lane needs.
    pub set: LaneSet,
    pub ghost fits: { has_room_for lane set.room ≡ true },
    pub ghost sram: { is_some set.copies.ram ≡ asks_sram lane },
}

/// What a lane did alone. Its type keeps that the lane is at most 5, that the run is of that lane's kind, and that the set has a copy
/// of SRAM where the lane asks for its words.
#[derive(Drop)]
pub struct LaneReport {
    /// The number of the lane.
    pub lane: u8,
    /// The cycle at which the machine stops.
    pub limit: u64,
    /// The report.
    pub run: LaneRun,
    /// What is left of the set: its room is in `run`.
    pub set: LaneSet,
    pub ghost fits: { is_run_of lane run ≡ true },
    pub ghost sram: { is_some set.copies.ram ≡ asks_sram lane },
}

/// A job for each lane, in the order of the lanes, and room for what a window notes. None stands for a job that is somewhere else, or that
/// nobody uses.
#[derive(Drop)]
pub struct Crew {
    /// The jobs.
    pub jobs: [Option<LaneJob>; 6],
    /// Room for the notes of a window on one thread.
    pub notes: Notes,
    /// When a window tries to go over many cycles at once.
    pub pace: Pace,
    /// What the lanes begin in the next cycle, once a run has begun.
    pub begun: Begun,
}

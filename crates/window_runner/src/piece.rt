//! What goes over the board: the piece of a window that is a lane's, and what was found of it.

ghost use Rattle.std.specs.Prelude.{IfSome};
ghost use Rattle.outer_lane.specs.Setting.{setting};
ghost use Rattle.window_merge.specs.Jobs.{IsJobFor, IsTrueIn};

use lane_look::Device;
use outer_lane::World;
use turn_board::Kept;
use window_merge::{LaneJob, LaneReport};

/// What a lane is to do in a window. It was made for a world where it has no job, or where its job has the world's limit and,
/// for the peripherals, as many words of a device as the world's device has.
#[derive(Drop)]
pub struct Piece {
    /// The job. None where there is none for this lane.
    pub job: Option<LaneJob>,
}

/// What a lane did. It was made for a world where it has no report, or where its report is true in that world.
#[derive(Drop)]
pub struct Found {
    /// The report. None where there was no job.
    pub report: Option<LaneReport>,
}

impl<'w, X: Device> Kept<&'w World<'w, X>> for Piece {
    ghost made_for = { λ world lane piece. IfSome piece.job (IsJobFor
        (setting X.meaning world.now)) };
}

impl<'w, X: Device> Kept<&'w World<'w, X>> for Found {
    ghost made_for = { λ world lane found. IfSome found.report (IsTrueIn
        (setting X.meaning world.now)) };
}

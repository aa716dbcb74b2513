//! The jobs of the six lanes, and their reports in a window.

ghost use Rattle.std.specs.Prelude.{◌≡◌, length, IfSome};
ghost use Rattle.outer_lane.specs.Setting.{setting};
ghost use Rattle.turn_board.specs.Answers.{EachLane};
ghost use Rattle.window_merge.specs.Jobs.{AreAlone, IsAlone, IsJobFor, IsTrueIn};

use crate::piece::{Found, Piece};
use lane_look::Device;
use outer_lane::World;
use quiet_run::Pace;
use rp_machine::Machine;
use rp_machine::begun::Begun;
use std::alloc::{AllocError, Global};
use turn_board::Six;
use window_merge::{Crew, LaneJob, LaneReport, Notes, accept, back, job};

/// What the coordinator makes windows with.
#[derive(Drop)]
pub(crate) struct Sets {
    /// The jobs that go over the board. None stands for one that went over it and did not come back.
    pub(crate) jobs: Six<Option<LaneJob>>,
    /// Room for the notes of a window that is made here.
    pub(crate) notes: Notes,
    /// When such a window tries to go over many cycles at once.
    pub(crate) pace: Pace,
    /// What the lanes begin in the next cycle, once a run has begun.
    pub(crate) begun: Begun,
}

/// The jobs of a crew.
pub(crate) fn sets_of(alloc: Global, crew: Crew) -> Result<Box<Sets>, AllocError> {
    let Crew {
        jobs,
        notes,
        pace,
        begun,
    } = crew;
    let [core0, core1, dma, pio0, pio1, outer] = jobs;
    let jobs = Six {
        l0: core0,
        l1: core1,
        l2: dma,
        l3: pio0,
        l4: pio1,
        l5: outer,
    };
    let sets = Sets {
        jobs,
        notes,
        pace,
        begun,
    };
    Ok(Box::new(alloc, sets)?)
}

/// A lane's piece of the window from the machine's state: its job, or none where that is lost.
fn piece_of<X: Device>(machine: &Machine, world: &World<'_, X>, own: &mut Option<LaneJob>) -> Piece
    requires { length machine.now.outer.device ≡ (X.meaning world.now.device.now).count }
    ensures { IfSome result.job (IsJobFor (setting X.meaning world.now)) }
{
    match own.take() {
        Some(mut own) => {
            own.limit = world.limit;
            job(machine, &mut own);
            Piece { job: Some(own) }
        }
        None => Piece { job: None },
    }
}

/// The six lanes' pieces of the window from the machine's state.
pub(crate) fn pieces_of<X: Device>(
    machine: &Machine,
    world: &World<'_, X>,
    jobs: &mut Six<Option<LaneJob>>,
) -> Six<Piece>
    requires { length machine.now.outer.device ≡ (X.meaning world.now.device.now).count }
    ensures { EachLane (λ lane piece. IfSome piece.job (IsJobFor (setting X.meaning world.now)))
        result }
{
    Six {
        l0: piece_of(machine, world, &mut jobs.l0),
        l1: piece_of(machine, world, &mut jobs.l1),
        l2: piece_of(machine, world, &mut jobs.l2),
        l3: piece_of(machine, world, &mut jobs.l3),
        l4: piece_of(machine, world, &mut jobs.l4),
        l5: piece_of(machine, world, &mut jobs.l5),
    }
}

/// Puts the job of a report where it was taken.
fn give_back(report: LaneReport, own: &mut Option<LaneJob>) {
    // a value that is let go by name is one call to check
    drop(own.replace(back(report)));
}

/// Puts the job of a report back, if there is one.
fn give_any_back(report: Option<LaneReport>, own: &mut Option<LaneJob>) {
    if let Some(report) = report {
        give_back(report, own);
    }
}

/// The report that was found of a lane, where it is of that lane and is accepted: its run alone from the machine's state. The job of any
/// other is put back.
fn accepted<X: Device>(
    machine: &Machine,
    world: &World<'_, X>,
    found: Found,
    own: &mut Option<LaneJob>,
    lane: u8,
) -> Option<LaneReport>
    requires { IfSome found.report (IsTrueIn (setting X.meaning world.now)) }
    ensures { IfSome result (λ report. (report.lane ≡ lane)
        × IsAlone (setting X.meaning world.now) machine.now report) }
{
    let report = found.report?;
    if report.lane == lane {
        if accept(machine, &report).is_ok() {
            return Some(report);
        }
    }
    give_back(report, own);
    None
}

/// The runs alone of the six lanes from the machine's state, where that of each was found. Elsewhere the jobs are put back.
pub(crate) fn all_accepted<X: Device>(
    machine: &Machine,
    world: &World<'_, X>,
    found: Six<Found>,
    jobs: &mut Six<Option<LaneJob>>,
) -> Option<[LaneReport; 6]>
    requires { EachLane (λ lane found. IfSome found.report (IsTrueIn (setting X.meaning world.now)))
        found }
    ensures { IfSome result (AreAlone (setting X.meaning world.now) machine.now) }
{
    let core0 = accepted(machine, world, found.l0, &mut jobs.l0, 0);
    let core1 = accepted(machine, world, found.l1, &mut jobs.l1, 1);
    let dma = accepted(machine, world, found.l2, &mut jobs.l2, 2);
    let pio0 = accepted(machine, world, found.l3, &mut jobs.l3, 3);
    let pio1 = accepted(machine, world, found.l4, &mut jobs.l4, 4);
    let outer = accepted(machine, world, found.l5, &mut jobs.l5, 5);
    match (core0, core1, dma, pio0, pio1, outer) {
        (Some(core0), Some(core1), Some(dma), Some(pio0), Some(pio1), Some(outer)) => {
            Some([core0, core1, dma, pio0, pio1, outer])
        }
        (core0, core1, dma, pio0, pio1, outer) => {
            give_any_back(core0, &mut jobs.l0);
            give_any_back(core1, &mut jobs.l1);
            give_any_back(dma, &mut jobs.l2);
            give_any_back(pio0, &mut jobs.l3);
            give_any_back(pio1, &mut jobs.l4);
            give_any_back(outer, &mut jobs.l5);
            None
        }
    }
}

/// Puts the jobs of all reports back.
pub(crate) fn give_all_back(reports: [LaneReport; 6], jobs: &mut Six<Option<LaneJob>>) {
    let [core0, core1, dma, pio0, pio1, outer] = reports;
    give_back(core0, &mut jobs.l0);
    give_back(core1, &mut jobs.l1);
    give_back(dma, &mut jobs.l2);
    give_back(pio0, &mut jobs.l3);
    give_back(pio1, &mut jobs.l4);
    give_back(outer, &mut jobs.l5);
}

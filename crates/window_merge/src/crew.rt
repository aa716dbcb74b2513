//! The jobs of the six lanes, made once, or room for a run without them.

ghost use Rattle.std.specs.Prelude.{◌≡◌, ◌≤◌, true, IfOk};
ghost use Rattle.window_merge.specs.Kinds.{is_run_of};
ghost use Rattle.window_merge.specs.Jobs.{HasLanesFrom, IsWhole};

use crate::copies::Copies;
use crate::lane_job::{Crew, LaneJob};
use crate::lane_run::{LaneRun, LaneSet};
use crate::notes::Notes;
use dma_engine::Dma;
use lane_look::{Log, Marks, NoDevice, Report};
use m0_core::Core;
use outer_lane::Outer;
use pio_block::PioBlock;
use quiet_run::Pace;
use rp_machine::begun::Begun;
use std::alloc::{AllocError, Global};

/// A report of no cycle, with room for a log.
fn report_of<S: Drop>(alloc: Global, before: S, after: S) -> Result<Report<S>, AllocError> {
    Ok(Report {
        start: 0,
        length: 0,
        before,
        after,
        log: Log::new(alloc)?,
        marks: Marks::new(),
    })
}

/// Room for a report of a lane.
fn room_of(alloc: Global, lane: u8) -> Result<LaneRun, AllocError>
    requires { lane ≤ 5 }
    ensures { IfOk result (λ run. is_run_of lane run ≡ true) }
{
    if lane <= 1 {
        let report = report_of(alloc, Core::new(lane), Core::new(lane))?;
        Ok(LaneRun::Core(report))
    } else if lane == 2 {
        let report = report_of(alloc, Dma::new(), Dma::new())?;
        Ok(LaneRun::Dma(report))
    } else if lane <= 4 {
        let report = report_of(alloc, PioBlock::new(), PioBlock::new())?;
        Ok(LaneRun::Pio(report))
    } else {
        let report = report_of(alloc, Outer::new(&NoDevice), Outer::new(&NoDevice))?;
        Ok(LaneRun::Outer(report))
    }
}

/// A job for a lane, which holds nothing yet.
fn job_of(alloc: Global, lane: u8) -> Result<LaneJob, AllocError>
    requires { lane ≤ 5 }
    ensures { IfOk result (λ job. job.lane ≡ lane) }
{
    let copies = Copies::new(alloc, lane)?;
    let room = room_of(alloc, lane)?;
    Ok(LaneJob {
        lane,
        start: 0,
        limit: 0,
        set: LaneSet {
            copies,
            room: Some(room),
        },
    })
}

/// The jobs of a lane and of the next one.
fn two_jobs(alloc: Global, lane: u8) -> Result<[Option<LaneJob>; 2], AllocError>
    requires { lane ≤ 4 }
    ensures { IfOk result (λ jobs. HasLanesFrom lane jobs) }
{
    let first = job_of(alloc, lane)?;
    let Ok(second) = job_of(alloc, lane + 1) else {
        drop(first);
        return Err(AllocError);
    };
    Ok([Some(first), Some(second)])
}

/// A job for each lane.
fn six_jobs(alloc: Global) -> Result<[Option<LaneJob>; 6], AllocError>
    ensures { IfOk result (λ jobs. HasLanesFrom 0 jobs) }
{
    let cores = two_jobs(alloc, 0)?;
    let middle = two_jobs(alloc, 2)?;
    let last = two_jobs(alloc, 4)?;
    let [core0, core1] = cores;
    let [dma, pio0] = middle;
    let [pio1, outer] = last;
    Ok([core0, core1, dma, pio0, pio1, outer])
}

impl Crew {
    ghost use Rattle.std.specs.Prelude.{IfOk};
    ghost use Rattle.window_merge.specs.Jobs.{HasNoJob, IsWhole};

    /// A job for each lane, which holds nothing yet. Nothing that uses them takes memory.
    ///
    /// # Errors
    ///
    /// Want of memory.
    pub fn new(alloc: Global) -> Result<Crew, AllocError>
        ensures { IfOk result IsWhole }
    {
        let mut crew = Crew::without_jobs(alloc)?;
        crew.jobs = six_jobs(alloc)?;
        Ok(crew)
    }

    /// Room for a run by windows on one thread, which uses no job. Nothing that uses it takes memory.
    ///
    /// # Errors
    ///
    /// Want of memory.
    pub fn without_jobs(alloc: Global) -> Result<Crew, AllocError>
        ensures { IfOk result HasNoJob }
    {
        let notes = Notes::new(alloc)?;
        Ok(Crew {
            jobs: [None, None, None, None, None, None],
            notes,
            pace: Pace::default(),
            begun: Begun::nothing(),
        })
    }
}

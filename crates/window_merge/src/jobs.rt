//! A lane's job: what it is given from a machine, its run alone, and the set that comes back.

ghost use Rattle.std.specs.Prelude.{◌≡◌, ℕ, ◌+◌, ◌^◌, ◌<◌, ◌≤◌, ◌==◌, ◌&&◌, true, length, Some, is_some};
ghost use Rattle.lane_look.specs.Replay.{meaning};
ghost use Rattle.outer_lane.specs.Setting.{setting};
ghost use Rattle.rp_machine.specs.State.{State};
ghost use Rattle.window_merge.specs.Kinds.{is_run_of};
ghost use Rattle.window_merge.specs.Lanes.{core_lane, dma_lane, pio_lane, peripheral_lane};
ghost use Rattle.window_merge.specs.Accept.{log_of};
ghost use Rattle.window_merge.specs.Jobs.{core_bound, BeginsIn, HasWords, HasWordsIn, IsJobOf, IsJobFor, IsTrueRun, IsTrueIn, IsAlone, RanIn, Ran, longest_by, start_of, length_of};

use crate::copies::Copies;
use crate::lane_job::{LaneJob, LaneReport};
use crate::lane_run::{LaneRun, LaneSet};
use dma_engine::Dma;
use lane_look::{Device, Lane, Log, Report, run_lane_alone};
use m0_core::Core;
use outer_lane::{Outer, World};
use pio_block::PioBlock;
use rp_machine::Machine;

/// Takes the lane's state into the `before` of a report.
pub(crate) fn take_lane(machine: &Machine, lane: u8, run: &mut LaneRun)
    requires { is_run_of lane run.old ≡ true }
    ensures kind { is_run_of lane run.new ≡ true }
    ensures state { BeginsIn lane machine.now run.new }
    ensures words { (count : ℕ) → length machine.now.outer.device ≡ count → HasWords count run.new }
{
    match run {
        LaneRun::Core(report) => {
            let core = if lane == 0 {
                &machine.core0
            } else {
                &machine.core1
            };
            Lane::<()>::copy_from(&mut report.before, core);
        }
        LaneRun::Dma(report) => Lane::<()>::copy_from(&mut report.before, &machine.dma.block),
        LaneRun::Pio(report) => {
            let block = if lane == 3 {
                &machine.pio0.block
            } else {
                &machine.pio1.block
            };
            Lane::<()>::copy_from(&mut report.before, block);
        }
        LaneRun::Outer(report) => report.before.copy_from(&machine.outer),
    }
}

/// Gives a job's lane its state, its first cycle and all that it can ask, from a machine. The job's lane and limit stay.
pub fn job(machine: &Machine, job: &mut LaneJob)
    ensures lane { job.new.lane ≡ job.old.lane }
    ensures limit { job.new.limit ≡ job.old.limit }
    ensures state { IsJobOf machine.now job.new }
    ensures words { (count : ℕ) → length machine.now.outer.device ≡ count
        → HasWordsIn count job.new.set.room }
{
    job.start = machine.number();
    job.set.copies.take(machine, job.lane);
    if let Some(run) = &mut job.set.room {
        take_lane(machine, job.lane, run);
    }
}

/// Runs a lane alone, in the room of a report that has its state. Gives what is left of its copies.
#[tactic(auto, using(crate::proofs::Copying::sram_kept))]
fn run_lane<E, S: Lane<E>>(
    room: &mut Report<S>,
    env: &E,
    start: u64,
    copies: Copies,
    at_most: u16,
) -> Copies
    requires cycles { at_most ≤ 256 }
    requires number { start + at_most < 2 ^ 64 }
    ensures run { RanIn (meaning S.asks S.wanted S.next S.marked) env.now room.old.before start
        copies at_most room.new }
    ensures sram { is_some result.ram ≡ is_some copies.ram }
{
    room.start = start;
    run_lane_alone(room, env, copies, at_most)
}

/// Runs a core alone: for no cycle where it is core 1 and has a word of its launcher to take.
fn run_core(room: &mut Report<Core>, lane: u8, start: u64, copies: Copies, at_most: u16) -> Copies
    requires cycles { at_most ≤ 256 }
    requires number { start + at_most < 2 ^ 64 }
    ensures run { RanIn core_lane tt room.old.before start copies
        (core_bound lane room.old.before at_most) room.new }
    ensures sram { is_some result.ram ≡ is_some copies.ram }
{
    if lane == 1 && room.before.is_asleep() && room.before.has_offer() {
        run_lane(room, &(), start, copies, 0)
    } else {
        run_lane(room, &(), start, copies, at_most)
    }
}

/// Runs the DMA engine alone.
fn run_dma(room: &mut Report<Dma>, start: u64, copies: Copies, at_most: u16) -> Copies
    requires cycles { at_most ≤ 256 }
    requires number { start + at_most < 2 ^ 64 }
    ensures run { RanIn dma_lane tt room.old.before start copies at_most room.new }
    ensures sram { is_some result.ram ≡ is_some copies.ram }
{
    run_lane(room, &(), start, copies, at_most)
}

/// Runs a PIO block alone.
fn run_pio(room: &mut Report<PioBlock>, start: u64, copies: Copies, at_most: u16) -> Copies
    requires cycles { at_most ≤ 256 }
    requires number { start + at_most < 2 ^ 64 }
    ensures run { RanIn pio_lane tt room.old.before start copies at_most room.new }
    ensures sram { is_some result.ram ≡ is_some copies.ram }
{
    run_lane(room, &(), start, copies, at_most)
}

/// Runs the peripherals alone.
fn run_outer<X: Device>(
    room: &mut Report<Outer>,
    world: &World<'_, X>,
    start: u64,
    copies: Copies,
    at_most: u16,
) -> Copies
    requires cycles { at_most ≤ 256 }
    requires number { start + at_most < 2 ^ 64 }
    ensures run { RanIn (peripheral_lane (setting X.meaning world.now)) tt room.old.before start
        copies at_most room.new }
    ensures sram { is_some result.ram ≡ is_some copies.ram }
{
    run_lane(room, world, start, copies, at_most)
}

/// Runs the lane alone whose state is in the room. Gives what is left of its copies.
pub(crate) fn run_room<X: Device>(
    room: &mut LaneRun,
    lane: u8,
    world: &World<'_, X>,
    start: u64,
    copies: Copies,
    at_most: u16,
) -> Copies
    requires kind { is_run_of lane room.old ≡ true }
    requires cycles { at_most ≤ 256 }
    requires number { start + at_most < 2 ^ 64 }
    ensures kind { is_run_of lane room.new ≡ true }
    ensures run { Ran (setting X.meaning world.now) lane start copies at_most room.old room.new }
    ensures sram { is_some result.ram ≡ is_some copies.ram }
{
    match room {
        LaneRun::Core(room) => run_core(room, lane, start, copies, at_most),
        LaneRun::Dma(room) => run_dma(room, start, copies, at_most),
        LaneRun::Pio(room) => run_pio(room, start, copies, at_most),
        LaneRun::Outer(room) => run_outer(room, world, start, copies, at_most),
    }
}

/// How many cycles a run alone has at most: 256, and none at the limit or above.
pub(crate) fn longest_by(limit: u64, start: u64) -> u16
    ensures value { result ≡ longest_by limit start }
    ensures number { start + result < 2 ^ 64 }
    ensures few { result ≤ 256 }
{
    let cycles = limit.saturating_sub(start);
    if cycles <= 256 { cycles as u16 } else { 256 }
}

/// Runs a lane alone, also where the peripherals have another number of words than the device.
pub fn run_by<X: Device>(job: LaneJob, world: &World<'_, X>) -> LaneReport
    requires { job.limit ≡ world.now.limit }
    ensures lane { result.lane ≡ job.lane }
    ensures limit { result.limit ≡ job.limit }
    ensures replays { IsTrueRun (setting X.meaning world.now) result.run }
    ensures words { (count : ℕ) → HasWordsIn count job.set.room → HasWords count result.run }
    ensures alone { (s : State) → IsJobOf s job → IsAlone (setting X.meaning world.now) s result }
{
    let LaneJob {
        lane,
        start,
        limit,
        set,
    } = job;
    let LaneSet { copies, room } = set;
    let Some(room) = room else { unreachable!() };
    let mut run = room;
    let at_most = longest_by(limit, start);
    let copies = run_room(&mut run, lane, world, start, copies, at_most);
    LaneReport {
        lane,
        limit,
        run,
        set: LaneSet { copies, room: None },
    }
}

/// Runs a lane alone: from the state and by the answers that its job holds, up to the limit and for at most 256 cycles.
pub fn run_job<X: Device>(job: LaneJob, world: &World<'_, X>) -> LaneReport
    requires { IsJobFor (setting X.meaning world.now) job }
    ensures lane { result.lane ≡ job.lane }
    ensures holds { IsTrueIn (setting X.meaning world.now) result }
    ensures alone { (s : State) → IsJobOf s job → IsAlone (setting X.meaning world.now) s result }
{
    run_by(job, world)
}

/// The number of a report's first cycle.
pub(crate) fn start_of(run: &LaneRun) -> u64
    ensures { result ≡ start_of run.now }
{
    match run {
        LaneRun::Core(report) => report.start,
        LaneRun::Dma(report) => report.start,
        LaneRun::Pio(report) => report.start,
        LaneRun::Outer(report) => report.start,
    }
}

/// How many cycles a run has.
pub(crate) fn length_of(run: &LaneRun) -> u16
    ensures { result ≡ length_of run.now }
{
    match run {
        LaneRun::Core(report) => report.length,
        LaneRun::Dma(report) => report.length,
        LaneRun::Pio(report) => report.length,
        LaneRun::Outer(report) => report.length,
    }
}

/// The log of a report.
pub(crate) fn log_of(run: &LaneRun) -> &Log
    ensures { result.now ≡ log_of run.now }
{
    match run {
        LaneRun::Core(report) => &report.log,
        LaneRun::Dma(report) => &report.log,
        LaneRun::Pio(report) => &report.log,
        LaneRun::Outer(report) => &report.log,
    }
}

/// Gives a report's set back for the lane's next job, with the report's lane, start and limit.
pub fn back(report: LaneReport) -> LaneJob
    ensures lane { result.lane ≡ report.lane }
    ensures limit { result.limit ≡ report.limit }
    ensures start { result.start ≡ start_of report.run }
    ensures room { result.set.room ≡ Some report.run }
    ensures copies { result.set.copies ≡ report.set.copies }
{
    let LaneReport {
        lane,
        limit,
        run,
        set,
    } = report;
    let LaneSet { copies, room } = set;
    drop(room);
    let start = start_of(&run);
    LaneJob {
        lane,
        start,
        limit,
        set: LaneSet {
            copies,
            room: Some(run),
        },
    }
}

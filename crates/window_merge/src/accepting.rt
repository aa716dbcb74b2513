//! A report of a lane is compared with the lane's run alone from a machine's state.

ghost use Rattle.std.specs.Prelude.{◌≡◌, ◌+◌, ◌^◌, ◌<◌, ◌≤◌, ◌&&◌, Decides, length, unwrap_or, is_none, is_ok, IfErr};
ghost use Rattle.outer_lane.specs.Setting.{Setting};
ghost use Rattle.window_merge.specs.Lanes.{core_lane, dma_lane, pio_lane, peripheral_lane};
ghost use Rattle.window_merge.specs.Merging.{IsRunAlone};
ghost use Rattle.window_merge.specs.Jobs.{core_of, block_of, core_bound, IsTrueIn, IsAloneBy, IsAlone, start_of, length_of};
ghost use Rattle.window_merge.specs.Accept.{log_of, IsStranger};
ghost use Rattle.window_merge.specs.Judged.{IsUnlike, IsUnlikeBy, Judges};

use crate::jobs::{length_of, log_of, longest_by, start_of};
use crate::lane_job::LaneReport;
use crate::lane_run::LaneRun;
use crate::questions::questions_of;
use crate::walk::{Agreement, compare_run};
use dma_engine::Dma;
use lane_look::{Lane, Report};
use m0_core::Core;
use outer_lane::Outer;
use pio_block::PioBlock;
use rp_machine::Machine;

/// A report that is not its lane's run alone from a state.
#[derive(Clone, Copy, Debug, PartialEq, Eq)]
pub struct Stranger {
    /// The number of the lane.
    pub lane: u8,
    /// The number, from 0, of the first entry of the report's log whose answer is another than in the lane's run alone. The number of
    /// all entries where the report begins at another cycle or in another state of the lane, and where nothing but its length is
    /// another.
    pub entry: u32,
}

/// What a comparison says of a report that begins where the lane stands.
fn verdict(outcome: Agreement) -> Result<(), Option<u16>>
    ensures alone { is_ok result ≡ outcome.same_length && is_none outcome.other }
    ensures entry { IfErr result (λ entry. entry ≡ outcome.other) }
{
    if outcome.same_length && outcome.other.is_none() {
        Ok(())
    } else {
        Err(outcome.other)
    }
}

/// Compares a report of a core. Core 1 has no cycle alone where its launcher has a word for it.
fn judge_core(
    machine: &Machine,
    number: u8,
    report: &Report<Core>,
    at_most: u16,
) -> Result<(), Option<u16>>
    requires start { report.now.start ≡ machine.now.cycle }
    requires cycles { report.now.length ≤ 256 }
    requires number { machine.now.cycle + report.now.length < 2 ^ 64 }
    ensures { Judges
        (IsRunAlone core_lane number (core_of number machine.now) machine.now
        (core_bound number (core_of number machine.now) at_most) report.now)
        (IsUnlike core_lane number (core_of number machine.now) machine.now report.now) result }
{
    let core = if number == 0 {
        &machine.core0
    } else {
        &machine.core1
    };
    if !report.before.is_same(core) {
        return Err(None);
    }
    let at_most = if number == 1 && core.is_asleep() && core.has_offer() {
        0
    } else {
        at_most
    };
    let mut lane = Core::new(number);
    Lane::<()>::copy_from(&mut lane, core);
    let outcome = compare_run(lane, machine, number, &report.log, report.length, at_most);
    verdict(outcome)
}

/// Compares a report of the DMA engine.
fn judge_dma(
    machine: &Machine,
    number: u8,
    report: &Report<Dma>,
    at_most: u16,
) -> Result<(), Option<u16>>
    requires start { report.now.start ≡ machine.now.cycle }
    requires cycles { report.now.length ≤ 256 }
    requires number { machine.now.cycle + report.now.length < 2 ^ 64 }
    ensures { Judges
        (IsRunAlone dma_lane number machine.now.dma.block machine.now at_most report.now)
        (IsUnlike dma_lane number machine.now.dma.block machine.now report.now) result }
{
    if !report.before.is_same(&machine.dma.block) {
        return Err(None);
    }
    let mut lane = Dma::new();
    Lane::<()>::copy_from(&mut lane, &machine.dma.block);
    let outcome = compare_run(lane, machine, number, &report.log, report.length, at_most);
    verdict(outcome)
}

/// Compares a report of a PIO block.
fn judge_pio(
    machine: &Machine,
    number: u8,
    report: &Report<PioBlock>,
    at_most: u16,
) -> Result<(), Option<u16>>
    requires start { report.now.start ≡ machine.now.cycle }
    requires cycles { report.now.length ≤ 256 }
    requires number { machine.now.cycle + report.now.length < 2 ^ 64 }
    ensures { Judges
        (IsRunAlone pio_lane number (block_of number machine.now) machine.now at_most report.now)
        (IsUnlike pio_lane number (block_of number machine.now) machine.now report.now) result }
{
    let block = if number == 3 {
        &machine.pio0.block
    } else {
        &machine.pio1.block
    };
    if !report.before.is_same(block) {
        return Err(None);
    }
    let mut lane = PioBlock::new();
    Lane::<()>::copy_from(&mut lane, block);
    let outcome = compare_run(lane, machine, number, &report.log, report.length, at_most);
    verdict(outcome)
}

/// Compares a report of the peripherals: in their run alone they ask the same in each cycle, and it never ends early.
fn judge_outer(
    machine: &Machine,
    number: u8,
    report: &Report<Outer>,
    at_most: u16,
) -> Result<(), Option<u16>>
    requires start { report.now.start ≡ machine.now.cycle }
    requires cycles { report.now.length ≤ 256 }
    requires number { machine.now.cycle + report.now.length < 2 ^ 64 }
    ensures { (w : Setting) → Judges
        (IsRunAlone (peripheral_lane w) number machine.now.outer machine.now at_most report.now)
        (IsUnlike (peripheral_lane w) number machine.now.outer machine.now report.now) result }
{
    if !report.before.is_same(&machine.outer) {
        return Err(None);
    }
    let lane = questions_of(&machine.outer);
    let outcome = compare_run(lane, machine, number, &report.log, report.length, at_most);
    verdict(outcome)
}

/// Compares a report of any lane.
fn judge_run(machine: &Machine, number: u8, run: &LaneRun, at_most: u16) -> Result<(), Option<u16>>
    requires start { start_of run.now ≡ machine.now.cycle }
    requires cycles { length_of run.now ≤ 256 }
    requires number { machine.now.cycle + length_of run.now < 2 ^ 64 }
    ensures { (w : Setting) → Judges (IsAloneBy w machine.now at_most number run.now)
        (IsUnlikeBy w machine.now number run.now) result }
{
    match run {
        LaneRun::Core(report) => judge_core(machine, number, report, at_most),
        LaneRun::Dma(report) => judge_dma(machine, number, report, at_most),
        LaneRun::Pio(report) => judge_pio(machine, number, report, at_most),
        LaneRun::Outer(report) => judge_outer(machine, number, report, at_most),
    }
}

/// The stranger of a report that this entry tells, or that no entry tells.
fn stranger_at(report: &LaneReport, entry: Option<u16>) -> Stranger
    ensures { result ≡ record {
      lane = report.now.lane;
      entry = unwrap_or entry (length (log_of report.now.run));
    } }
{
    let entry = match entry {
        Some(index) => u32::from(index),
        None => u32::from(log_of(&report.run).count()),
    };
    Stranger {
        lane: report.lane,
        entry,
    }
}

/// Whether a report is its lane's run alone from a machine's state, under the limit of the report: it begins at the machine's
/// cycle and in the lane's state, each answer is that of the state overlaid by the lane's own writes, and it has as many
/// cycles. Nothing else of the report is looked at, since a true report has no other state after them, and no other marks.
/// It takes no memory.
///
/// # Errors
///
/// The report is a stranger, with the first entry of its log that tells, or the number of all its entries.
#[tactic(auto, using(crate::proofs::Verdicts::by_limit, crate::proofs::Verdicts::is_stranger))]
pub fn accept(machine: &Machine, report: &LaneReport) -> Result<(), Stranger>
    ensures alone { (w : Setting) → IsTrueIn w report.now
        → Decides (is_ok result) (IsAlone w machine.now report.now) }
    ensures stranger { (w : Setting) → IsTrueIn w report.now
        → IfErr result (λ stranger. IsStranger w machine.now report.now stranger) }
{
    let start = start_of(&report.run);
    let length = length_of(&report.run);
    if start != machine.at || length > 256 || u64::from(length) > u64::MAX - start {
        return Err(stranger_at(report, None));
    }
    match judge_run(
        machine,
        report.lane,
        &report.run,
        longest_by(report.limit, start),
    ) {
        Ok(()) => Ok(()),
        Err(entry) => Err(stranger_at(report, entry)),
    }
}

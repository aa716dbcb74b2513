//! A window of six reports.

ghost use Rattle.std.specs.Prelude.{◌≡◌, ◌+◌, ◌≤◌, false};
ghost use Rattle.outer_lane.specs.Setting.{setting};
ghost use Rattle.bus_fabric.specs.State.{has_hold};
ghost use Rattle.rp_machine.specs.Run.{states};
ghost use Rattle.window_merge.specs.declared.lane_run.LaneRun.TheVariants as run;
ghost use Rattle.window_merge.specs.Window.{window_length};
ghost use Rattle.window_merge.specs.Merging.{marks_in};
ghost use Rattle.window_merge.specs.Jobs.{AreAlone};

use crate::lane_job::LaneReport;
use crate::lane_run::LaneRun;
use crate::merge::merge_runs;
use crate::runs::Runs;
use dma_engine::Dma;
use lane_look::{Device, Marks, Report};
use m0_core::Core;
use outer_lane::{Outer, World};
use pio_block::PioBlock;
use rp_machine::{Machine, Steps};
use std::sync::ledger::Ledger;

/// The report of a core.
fn core_in(report: &LaneReport) -> &Report<Core>
    requires { report.now.lane ≤ 1 }
    ensures { report.now.run ≡ run.Core result.now }
{
    match &report.run {
        LaneRun::Core(report) => report,
        LaneRun::Dma(_) | LaneRun::Pio(_) | LaneRun::Outer(_) => unreachable!(),
    }
}

/// The report of the DMA engine.
fn dma_in(report: &LaneReport) -> &Report<Dma>
    requires { report.now.lane ≡ 2 }
    ensures { report.now.run ≡ run.Dma result.now }
{
    match &report.run {
        LaneRun::Dma(report) => report,
        LaneRun::Core(_) | LaneRun::Pio(_) | LaneRun::Outer(_) => unreachable!(),
    }
}

/// The report of a PIO block.
fn pio_in(report: &LaneReport) -> &Report<PioBlock>
    requires low { 3 ≤ report.now.lane }
    requires high { report.now.lane ≤ 4 }
    ensures { report.now.run ≡ run.Pio result.now }
{
    match &report.run {
        LaneRun::Pio(report) => report,
        LaneRun::Core(_) | LaneRun::Dma(_) | LaneRun::Outer(_) => unreachable!(),
    }
}

/// The report of the peripherals.
fn outer_in(report: &LaneReport) -> &Report<Outer>
    requires { report.now.lane ≡ 5 }
    ensures { report.now.run ≡ run.Outer result.now }
{
    match &report.run {
        LaneRun::Outer(report) => report,
        LaneRun::Core(_) | LaneRun::Dma(_) | LaneRun::Pio(_) => unreachable!(),
    }
}

/// Moves the machine by the window of six reports, which are the lanes' runs alone from its state in the order of the lanes.
/// Gives the window's length. The marks of its cycles are left in `marks`, each cycle counts as one of the steps, and the
/// reports stay.
pub fn merge<X: Device, L: Ledger>(
    machine: &mut Machine,
    world: &World<'_, X>,
    reports: &mut [LaneReport; 6],
    marks: &mut Marks,
    steps: &mut Steps<L>,
) -> u16
    requires number { machine.old.cycle ≤ world.now.limit }
    requires free { has_hold machine.old.fabric ≡ false }
    requires reports { AreAlone (setting X.meaning world.now) machine.old reports.old }
    ensures length { result ≡ window_length (setting X.meaning world.now) machine.old }
    ensures state { machine.new ≡ states (setting X.meaning world.now) machine.old result }
    ensures marks { marks.new ≡ marks_in (setting X.meaning world.now) machine.old result }
    ensures number { machine.new.cycle ≡ machine.old.cycle + result }
    ensures steps { steps.new ≡ steps.old + result }
    ensures reports { reports.new ≡ reports.old }
{
    let [core0, core1, dma, pio0, pio1, outer] = &*reports;
    let runs = Runs {
        core0: core_in(core0),
        core1: core_in(core1),
        dma: dma_in(dma),
        pio0: pio_in(pio0),
        pio1: pio_in(pio1),
        outer: outer_in(outer),
    };
    merge_runs(machine, world, &runs, marks, steps)
}

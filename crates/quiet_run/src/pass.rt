//! Cycles in which nobody has anything to do.

ghost use Rattle.std.specs.Prelude.{◌≡◌, ℕ, ◌+◌, ◌^◌, ◌<◌, ◌≤◌, true};
ghost use Rattle.outer_lane.specs.Setting.{setting};
ghost use Rattle.rp_machine.specs.Alone.{AreBlocksQuiet};
ghost use Rattle.rp_machine.specs.Cycle.{begun};
ghost use Rattle.rp_machine.specs.Quiet.{IsQuiet};
ghost use Rattle.rp_machine.specs.Run.{states};
ghost use Rattle.quiet_run.specs.Parts.{AreOthersQuiet, ArePartsQuiet, HasNoWork};

use lane_look::Device;
use outer_lane::SeenOutputs;
use rp_machine::{Machine, Steps, World};
use std::sync::ledger::Ledger;

/// SIO is quiet, and no access lasts.
fn are_others_quiet(machine: &Machine) -> bool
    ensures { result ≡ true → AreOthersQuiet machine.now }
{
    machine.sio.is_quiet() && !machine.sio.offers() && !machine.fabric.holds()
}

/// For so many cycles nobody has anything to do, where there are any; at most up to a cycle.
#[inline(never)]
pub fn quiet<X: Device>(machine: &Machine, world: &World<'_, X>, to: u64) -> u64
    requires { to ≤ world.now.limit }
    ensures parts { 0 < result → ArePartsQuiet (setting X.meaning world.now) machine.now result }
    ensures within { 0 < result → machine.now.cycle + result ≤ to }
{
    let at = machine.number();
    if to <= at || !are_others_quiet(machine) {
        return 0;
    }
    let blocks = machine.quiet_blocks();
    if blocks == 0 {
        return 0;
    }
    least_quiet(machine, world, blocks, at, to)
}

/// The least end of all, at most up to a cycle, where SIO is quiet and the DMA engine and PIO are quiet for so many cycles.
fn least_quiet<X: Device>(
    machine: &Machine,
    world: &World<'_, X>,
    blocks: u64,
    at: u64,
    to: u64,
) -> u64
    requires at { at ≡ machine.now.cycle }
    requires room { at ≤ to }
    requires limit { to ≤ world.now.limit }
    requires others { AreOthersQuiet machine.now }
    requires blocks { AreBlocksQuiet machine.now blocks }
    ensures parts { ArePartsQuiet (setting X.meaning world.now) machine.now result }
    ensures within { machine.now.cycle + result ≤ to }
{
    let seen = machine.begin_outer(world);
    let lines0 = machine.lines(0);
    let lines1 = machine.lines(1);
    let outer = machine.outer.quiet(world, &seen);
    let core0 = machine.core0.quiet(lines0, at);
    let core1 = machine.core1.quiet(lines1, at);
    let cores = core0.min(core1);
    let lanes = outer.min(blocks);
    let parts = lanes.min(cores);
    let room = to - at;
    parts.min(room)
}

/// What the peripherals see now, with the number of the cycle.
fn seen_now<X: Device>(machine: &Machine, world: &World<'_, X>) -> SeenOutputs
    ensures value { result ≡ (begun machine.now).outer }
    ensures cycle { result.cycle ≡ machine.now.cycle }
{
    machine.begin_outer(world)
}

/// So many cycles at once, in which nobody has anything to do.
#[inline(never)]
pub fn pass<X: Device>(machine: &mut Machine, world: &World<'_, X>, n: u64)
    requires number { machine.old.cycle + n < 2 ^ 64 }
    requires quiet { ArePartsQuiet (setting X.meaning world.now) machine.old n }
    ensures { machine.new ≡ states (setting X.meaning world.now) machine.old n }
{
    let at = machine.number();
    let seen = seen_now(machine, world);
    let lines0 = machine.lines(0);
    let lines1 = machine.lines(1);
    machine.pass_blocks(n);
    machine.core0.pass(lines0, at, n);
    machine.core1.pass(lines1, at, n);
    machine.outer.pass(world, &seen, n);
    machine.at = at + n;
}

/// Goes over as many cycles as nobody has anything to do in, at most up to a cycle, and counts them. Gives how many there are: 0
/// where somebody has work, which costs a few tests while core 0 is awake. Each of them happens, has no events, and leaves the
/// pads as they are.
#[inline(never)]
pub fn pass_waiting<X: Device, L: Ledger>(
    machine: &mut Machine,
    world: &World<'_, X>,
    to: u64,
    steps: &mut Steps<L>,
) -> u64
    requires { to ≤ world.now.limit }
    ensures state { machine.new ≡ states (setting X.meaning world.now) machine.old result }
    ensures quiet { IsQuiet (setting X.meaning world.now) machine.old result }
    ensures within { 0 < result → machine.old.cycle + result ≤ to }
    ensures parts { 0 < result → ArePartsQuiet (setting X.meaning world.now) machine.old result }
    ensures no_work { (k : ℕ) → k < result → HasNoWork machine.old (states (setting X.meaning world.now) machine.old k) }
    ensures steps { steps.new ≡ steps.old + result }
{
    if !machine.core0.is_waiting() {
        return 0;
    }
    let n = quiet(machine, world, to);
    if n == 0 {
        return 0;
    }
    pass(machine, world, n);
    steps.add(n);
    n
}

//! Windows in which nobody has anything to do: they are counted, and none is made.

ghost use Rattle.std.specs.Prelude.{◌≡◌, ◌+◌, ◌*◌, ◌≤◌};
ghost use Rattle.outer_lane.specs.Setting.{setting};
ghost use Rattle.rp_machine.specs.Cycle.{begun};
ghost use Rattle.rp_machine.specs.Run.{states};
ghost use Rattle.window_merge.specs.Quiet.{AreQuietWindows};

use crate::merge::fact_copies_are_known;
use lane_look::Device;
use outer_lane::World;
use quiet_run::pass::{pass, quiet};
use rp_machine::begun::Begun;
use rp_machine::{Machine, Steps, fact_limit_is_bounded};
use std::sync::ledger::Ledger;

/// Goes over as many windows of 256 cycles as nobody has anything to do in, and counts their cycles as steps. Gives how many windows they
/// are. `lanes` has what the lanes begin in the next cycle, before and after.
#[inline(never)]
#[tactic(auto, using(crate::proofs::WaitingCycles::no_window, quiet_run::proofs::Passing::no_states))]
pub fn pass_windows<X: Device, L: Ledger>(
    machine: &mut Machine,
    world: &World<'_, X>,
    lanes: &mut Begun,
    steps: &mut Steps<L>,
) -> u64
    requires number { machine.old.cycle ≤ world.now.limit }
    requires begun { lanes.old ≡ begun machine.old }
    ensures state { machine.new ≡ states (setting X.meaning world.now) machine.old (256 * result) }
    ensures quiet { AreQuietWindows (setting X.meaning world.now) machine.old result }
    ensures within { machine.old.cycle + 256 * result ≤ world.now.limit }
    ensures steps { steps.new ≡ steps.old + 256 * result }
    ensures begun { lanes.new ≡ begun machine.new }
{
    fact_copies_are_known(machine);
    fact_limit_is_bounded(world);
    if !machine.core0.is_waiting() {
        return 0;
    }
    let windows = quiet(machine, world, world.limit) / 256;
    if windows == 0 {
        return 0;
    }
    let cycles = windows * 256;
    pass(machine, world, cycles);
    machine.begin_into(world, lanes);
    steps.add(cycles);
    windows
}

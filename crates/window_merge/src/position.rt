//! The positions at which a run stands between windows and single cycles.

ghost use Rattle.std.specs.Prelude.{◌≡◌, ◌≤◌};
ghost use Rattle.outer_lane.specs.Setting.{setting};
ghost use Rattle.rp_machine.specs.Cycle.{begun};
ghost use Rattle.window_merge.specs.Merging.{IsStep};

use crate::here::window;
use crate::lane_job::Crew;
use lane_look::{Device, Marks};
use outer_lane::World;
use rp_base::Why;
use rp_machine::{Machine, Steps};
use std::sync::ledger::Ledger;

/// How a run came from one position to the next.
#[derive(Clone, Copy, PartialEq, Eq)]
pub enum Moved {
    /// It stands at a stop.
    Stopped(Why),
    /// By a window of so many cycles.
    Window(u16),
    /// By one cycle.
    Cycle,
}

/// Moves the machine to the next position of a run: by a window where no access lasts and the last step was not a window without a
/// cycle, and else by one cycle. The marks of its cycles are left in `marks`, and each counts as one of the steps. The crew has what the
/// lanes begin in the next cycle, before and after, so that they begin once in each.
pub fn advance<X: Device, L: Ledger>(
    machine: &mut Machine,
    world: &World<'_, X>,
    crew: &mut Crew,
    after_empty: bool,
    marks: &mut Marks,
    steps: &mut Steps<L>,
) -> Moved
    requires number { machine.old.cycle ≤ world.now.limit }
    requires begun { crew.old.begun ≡ begun machine.old }
    ensures moved { IsStep (setting X.meaning world.now) after_empty result machine.old machine.new
        marks.old marks.new steps.old steps.new }
    ensures jobs { crew.new.jobs ≡ crew.old.jobs }
    ensures begun { crew.new.begun ≡ begun machine.new }
{
    if after_empty || machine.fabric.holds() {
        if let Some(why) = machine.cycle_of(world, &crew.begun, marks, steps) {
            return Moved::Stopped(why);
        }
        machine.begin_into(world, &mut crew.begun);
        return Moved::Cycle;
    }
    if let Some(why) = machine.stop_of(world, &crew.begun) {
        return Moved::Stopped(why);
    }
    let Crew {
        notes,
        pace,
        begun,
        ..
    } = crew;
    Moved::Window(window(machine, world, notes, pace, begun, marks, steps))
}

//! A machine that goes to a cycle on one thread.

ghost use Rattle.std.specs.Prelude.{◌≡◌, ◌+◌, ◌-◌, ◌≤◌};
ghost use Rattle.outer_lane.specs.Setting.{setting};
ghost use Rattle.rp_machine.specs.Run.{states};
ghost use Rattle.window_merge.specs.Going.{IsReached};

use crate::lane_job::Crew;
use lane_look::{Device, Marks};
use outer_lane::World;
use rp_base::Why;
use rp_machine::{Machine, Steps};
use std::sync::ledger::Ledger;

/// Moves the machine to a cycle, or to the cycle below it at which it stops. None where it then stands at that cycle, also where it
/// would stop there, and else the stop. Each cycle counts as a step. It takes no memory, and leaves the crew, which one thread
/// does not need.
#[tactic(auto, using(rp_machine::proofs::Runs::next_cycle))]
pub fn advance_alone<X: Device, L: Ledger>(
    machine: &mut Machine,
    world: &World<'_, X>,
    crew: &mut Crew,
    to: u64,
    steps: &mut Steps<L>,
) -> Option<Why>
    requires number { machine.old.cycle ≤ world.now.limit }
    requires to { machine.old.cycle ≤ to }
    ensures state { machine.new ≡ states (setting X.meaning world.now) machine.old (to -
        machine.old.cycle) }
    ensures why { IsReached (setting X.meaning world.now) to result machine.new }
    ensures number { machine.new.cycle ≤ world.now.limit }
    ensures steps { steps.new + machine.old.cycle ≡ steps.old + machine.new.cycle }
    ensures crew { crew.new ≡ crew.old }
{
    let mut marks = Marks::new();
    while machine.number() < to {
        if let Some(why) = machine.cycle(world, &mut marks, steps) {
            return Some(why);
        }
    }
    None
}

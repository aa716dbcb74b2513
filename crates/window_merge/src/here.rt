//! A window on one thread: one pass of the machine's own cycles, in which each lane is answered as the start answers it.

ghost use Rattle.std.specs.Prelude.{◌≡◌, ◌+◌, ◌^◌, ◌<◌, ◌≤◌, [], false};
ghost use Rattle.outer_lane.specs.Setting.{setting};
ghost use Rattle.bus_fabric.specs.State.{has_hold};
ghost use Rattle.rp_machine.specs.Cycle.{begun};
ghost use Rattle.rp_machine.specs.Run.{states};
ghost use Rattle.window_merge.specs.Lanes.{is_launching};
ghost use Rattle.window_merge.specs.Inward.{IsWindow};
ghost use Rattle.window_merge.specs.Window.{longest, window_length};
ghost use Rattle.window_merge.specs.Merging.{marks_in};

use crate::inward::go_paced;
use crate::merge::{fact_copies_are_known, longest};
use crate::notes::Notes;
use crate::pass::{goes_by, is_launching, try_later};
use crate::start::Start;
use lane_look::{Device, Marks};
use outer_lane::World;
use quiet_run::Pace;
use rp_machine::begun::Begun;
use rp_machine::wanted::all_wanted;
use rp_machine::{Machine, Steps};
use std::sync::ledger::Ledger;

/// Moves the machine by a window of at most so many cycles. Gives how many it has. `lanes` has what the lanes begin in the next cycle, before
/// and after.
#[inline(never)]
#[tactic(auto, using(crate::proofs::Passing::passes_none, crate::proofs::Passing::along))]
fn go<X: Device, L: Ledger>(
    machine: &mut Machine,
    world: &World<'_, X>,
    notes: &mut Notes,
    pace: &mut Pace,
    lanes: &mut Begun,
    most: u16,
    marks: &mut Marks,
    steps: &mut Steps<L>,
) -> u16
    requires number { machine.old.cycle + most < 2 ^ 64 }
    requires most { most ≡ longest (setting X.meaning world.now) machine.old }
    requires marks { marks.old ≡ [] }
    requires free { has_hold machine.old.fabric ≡ false }
    requires launching { is_launching machine.old.core1 ≡ false }
    requires begun { lanes.old ≡ begun machine.old }
    ensures window { IsWindow (setting X.meaning world.now) machine.old result machine.new
        marks.new }
    ensures steps { steps.new ≡ steps.old + result }
    ensures begun { lanes.new ≡ begun machine.new }
{
    fact_copies_are_known(machine);
    let start = Start::of(machine);
    notes.clear();
    let mut k = 0;
    'cycles: while k < most {
        let left = most - k;
        let more = go_paced(machine, world, &start, notes, pace, k, left, marks, steps);
        if more > 0 {
            k += more;
            continue 'cycles;
        }
        if !try_later(machine, world, &start, notes, k, lanes, marks) {
            return k;
        }
        steps.tick();
        k += 1;
    }
    machine.begin_into(world, lanes);
    most
}

/// Moves the machine by a window: as far as its lanes, each alone from its state, would go the machine's way. Gives the
/// window's length. The marks of its cycles are left in `marks`, each counts as one of the steps, `notes` is room for what it
/// writes to SRAM, `pace` is that of all windows of a run, and `lanes` has what the lanes begin in the next cycle, before and after.
#[tactic(auto, using(crate::proofs::Passing::closed_at_once, crate::proofs::Passing::closed_launching), unfolding(rp_machine::specs::Run::states, crate::specs::Merging::marks_in))]
pub fn window<X: Device, L: Ledger>(
    machine: &mut Machine,
    world: &World<'_, X>,
    notes: &mut Notes,
    pace: &mut Pace,
    lanes: &mut Begun,
    marks: &mut Marks,
    steps: &mut Steps<L>,
) -> u16
    requires number { machine.old.cycle ≤ world.now.limit }
    requires free { has_hold machine.old.fabric ≡ false }
    requires begun { lanes.old ≡ begun machine.old }
    ensures length { result ≡ window_length (setting X.meaning world.now) machine.old }
    ensures state { machine.new ≡ states (setting X.meaning world.now) machine.old result }
    ensures number { machine.new.cycle ≡ machine.old.cycle + result }
    ensures marks { marks.new ≡ marks_in (setting X.meaning world.now) machine.old result }
    ensures steps { steps.new ≡ steps.old + result }
    ensures begun { lanes.new ≡ begun machine.new }
{
    fact_copies_are_known(machine);
    marks.clear();
    let most = longest(machine, world);
    if most == 0 {
        return 0;
    }
    if is_launching(&machine.core1) {
        return 0;
    }
    if !goes_by(lanes, &all_wanted(lanes)) {
        return 0;
    }
    go(machine, world, notes, pace, lanes, most, marks, steps)
}

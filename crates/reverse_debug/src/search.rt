//! The times of what is watched, below a cycle.

ghost use Rattle.std.specs.Prelude.{◌≡◌, ◌≤◌, ◌<◌, ◌+◌, ◌-◌, ◌^◌};
ghost use Rattle.outer_lane.specs.Setting.{setting};
ghost use Rattle.snap_ring.specs.Ring.{state_at, restored, IsNearest};
ghost use Rattle.reverse_debug.specs.Search.{noted, tally};
ghost use Rattle.reverse_debug.specs.Reply.{last_cycle, before_nth};
ghost use Rattle.reverse_debug.specs.Reading.{sought, IsThere};
ghost use Rattle.reverse_debug.specs.Session.{AreOf, Spends, all_kept, first_in};

use crate::advance::advance;
use crate::watch::{Watched, happens_by, seen};
use lane_look::{Device, Marks};
use rp_machine::{Machine, Steps, World};
use snap_ring::{Ring, greater_of};
use std::sync::ledger::Ledger;

/// In how many cycles of a stretch it happened, and the last one of the first of these.
#[derive(Clone, Copy, Debug, PartialEq, Eq)]
pub struct Tally {
    /// How many.
    pub count: u64,
    /// The last one that is remembered.
    pub last: Option<u64>,
}

/// One cycle more, in which it happened or not; only the first ones are remembered, at most so many.
fn noted(most: u64, happened: bool, cycle: u64, tally: Tally) -> Tally
    requires few { tally.count + 1 < 2 ^ 64 }
    ensures { result ≡ noted most happened cycle tally }
{
    if !happened {
        return tally;
    }
    Tally {
        count: tally.count + 1,
        last: if tally.count < most {
            Some(cycle)
        } else {
            tally.last
        },
    }
}

/// Steps a machine up to a cycle, and counts the cycles in which it happens.
fn scan<X: Device, L: Ledger>(
    machine: &mut Machine,
    world: &World<'_, X>,
    watched: Watched,
    most: u64,
    to: u64,
    steps: &mut Steps<L>,
) -> Tally
    requires watched { IsThere watched }
    requires low { machine.old.cycle ≤ world.now.limit }
    requires ahead { machine.old.cycle ≤ to }
    requires to { to ≤ last_cycle (setting X.meaning world.now) machine.old }
    ensures tally { result
        ≡ tally (setting X.meaning world.now) machine.old (sought watched) most (to - machine.old.cycle) }
    ensures steps { steps.new + machine.old.cycle ≡ steps.old + to }
{
    let mut tally = Tally {
        count: 0,
        last: None,
    };
    let mut marks = Marks::new();
    'cycles: while machine.number() < to {
        let cycle = machine.number();
        let before = seen(machine, watched);
        match advance(machine, world, cycle + 1, &mut marks, steps) {
            Some(_) => return tally,
            None => {
                let happened = happens_by(watched, before, seen(machine, watched));
                tally = noted(most, happened, cycle, tally);
                continue 'cycles;
            }
        }
    }
    tally
}

/// The greatest cycle not above another one of which one of two rings keeps the state.
#[tactic(auto, using(snap_ring::proofs::Nearest::nearest_both))]
fn nearest_of(ring: &Ring, near: &Ring, cycle: u64) -> Option<u64>
    ensures { IsNearest cycle (all_kept ring.now near.now) result }
{
    greater_of(ring.nearest(cycle), near.nearest(cycle))
}

/// Sets a machine to the state of a cycle that one of two rings keeps; else it stays as it is.
#[tactic(auto, using(crate::proofs::Rings::restored_first, crate::proofs::Rings::restored_second))]
fn restore_of(ring: &Ring, near: &Ring, cycle: u64, machine: &mut Machine)
    ensures { machine.new ≡ restored (state_at cycle (all_kept ring.now near.now)) machine.old }
{
    if !near.restore(cycle, machine) {
        ring.restore(cycle, machine);
    }
}

/// The n-th cycle below another one in which what is watched happens; it itself where n is 0. The stretches between the states
/// that are kept in either ring are searched from behind, so that what is near is found soon; the one that has a cycle that is
/// not its last is gone over once more. The machine is set to states of the run.
pub(crate) fn nth_before<X: Device, L: Ledger>(
    ring: &Ring,
    near: &Ring,
    machine: &mut Machine,
    world: &World<'_, X>,
    watched: Watched,
    count: u64,
    to: u64,
    steps: &mut Steps<L>,
) -> Option<u64>
    requires watched { IsThere watched }
    requires kept { AreOf (setting X.meaning world.now) (first_in ring.now machine.old) ring.now near.now to }
    requires to { to ≤ last_cycle (setting X.meaning world.now) (first_in ring.now machine.old) }
    ensures found { result
        ≡ before_nth (setting X.meaning world.now) (first_in ring.now machine.old) (sought watched) count to }
    ensures spends { Spends ring.now near.now count to steps.old steps.new result }
{
    if count == 0 {
        return Some(to);
    }
    let mut end = to;
    let mut left = count;
    'stretches: while 0 < end {
        let Some(start) = nearest_of(ring, near, end - 1) else {
            return None;
        };
        restore_of(ring, near, start, machine);
        let all = scan(machine, world, watched, u64::MAX, end, steps);
        if left <= all.count {
            if left == 1 {
                return all.last;
            }
            restore_of(ring, near, start, machine);
            return scan(machine, world, watched, all.count - left + 1, end, steps).last;
        }
        left -= all.count;
        end = start;
        continue 'stretches;
    }
    None
}

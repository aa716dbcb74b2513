//! A window: six runs alone, kept as far as they go the machine's way.

ghost use Rattle.std.specs.Prelude.{◌≡◌, ◌+◌, ◌-◌, ◌^◌, ◌<◌, ◌≤◌, ◌||◌, false, length};
ghost use Rattle.outer_lane.specs.Setting.{setting};
ghost use Rattle.bus_fabric.specs.State.{has_hold};
ghost use Rattle.rp_machine.specs.Cycle.{wanted};
ghost use Rattle.rp_machine.specs.Laws.{KnowsSio};
ghost use Rattle.rp_machine.specs.Run.{states};
ghost use Rattle.window_merge.specs.Window.{is_port_of, clash, longest, window_length};
ghost use Rattle.window_merge.specs.Merging.{AreRunsAlone, wants_of, marks_in};

use crate::compare::begin_logged;
use crate::runs::{Rests, Runs};
use lane_look::{Device, Marks};
use outer_lane::World;
use rp_machine::begun::Begun;
use rp_machine::wanted::Wanted;
use rp_machine::{Machine, Steps, asked_of};
use std::sync::ledger::Ledger;

/// Two accesses are to one port.
#[inline(always)]
fn is_port_of(first: Option<(u8, bool)>, second: Option<(u8, bool)>) -> bool
    ensures { result ≡ is_port_of first second }
{
    match (first, second) {
        (Some((port, _)), Some((other, _))) => other == port,
        _ => false,
    }
}

/// Two of four accesses are to one port.
#[inline(always)]
fn any_shared(
    a: Option<(u8, bool)>,
    b: Option<(u8, bool)>,
    c: Option<(u8, bool)>,
    d: Option<(u8, bool)>,
) -> bool
    ensures { result ≡ is_port_of a b || (is_port_of a c || (is_port_of a d
        || (is_port_of b c || (is_port_of b d || is_port_of c d)))) }
{
    is_port_of(a, b)
        || is_port_of(a, c)
        || is_port_of(a, d)
        || is_port_of(b, c)
        || is_port_of(b, d)
        || is_port_of(c, d)
}

/// Two of the masters' wants ask for one port.
#[tactic(auto, using(crate::proofs::Comparing::clash_four), unfolding(rp_machine::specs::Cycle::wanted))]
pub(crate) fn clash(begun: &Begun, wants: &[Wanted; 4]) -> bool
    requires { wants.now ≡ wanted begun.now }
    ensures { result ≡ clash (wants_of begun.now) }
{
    let [core0, core1, read, write] = wants;
    let core0 = asked_of(&core0.want);
    let core1 = asked_of(&core1.want);
    let read = asked_of(&read.want);
    let write = asked_of(&write.want);
    any_shared(core0, core1, read, write)
}

/// How many cycles a window may have.
pub(crate) fn longest<X: Device>(machine: &Machine, world: &World<'_, X>) -> u16
    requires { machine.now.cycle ≤ world.now.limit }
    ensures value { result ≡ longest (setting X.meaning world.now) machine.now }
    ensures number { machine.now.cycle + result < 2 ^ 64 }
    ensures few { result ≤ 256 }
{
    let cycles = world.limit - machine.at;
    if cycles <= 256 { cycles as u16 } else { 256 }
}

/// What the lanes keep of SIO is what it holds, and SRAM has its words: the machine's type keeps it.
pub(crate) fn fact_copies_are_known(machine: &Machine)
    ensures knows { KnowsSio machine.now }
    ensures sram { length machine.now.sram ≡ 67584 }
{
    let _word = machine.ram.read(0);
}

/// Moves the machine by the window of six runs alone from its state, and gives the window's length. The marks of its cycles are
/// left in `marks`, and each counts as one of the steps.
#[tactic(auto, using(crate::proofs::Windows::ends_at_run, crate::proofs::Windows::tries_at, crate::proofs::Windows::ends_tried, crate::proofs::Windows::ends_full))]
pub fn merge_runs<X: Device, L: Ledger>(
    machine: &mut Machine,
    world: &World<'_, X>,
    runs: &Runs<'_>,
    marks: &mut Marks,
    steps: &mut Steps<L>,
) -> u16
    requires number { machine.old.cycle ≤ world.now.limit }
    requires free { has_hold machine.old.fabric ≡ false }
    requires runs { AreRunsAlone (setting X.meaning world.now) machine.old runs.now }
    ensures length { result ≡ window_length (setting X.meaning world.now) machine.old }
    ensures state { machine.new ≡ states (setting X.meaning world.now) machine.old result }
    ensures number { machine.new.cycle ≡ machine.old.cycle + result }
    ensures marks { marks.new ≡ marks_in (setting X.meaning world.now) machine.old result }
    ensures steps { steps.new ≡ steps.old + result }
{
    fact_copies_are_known(machine);
    marks.clear();
    let longest = longest(machine, world);
    let mut rests = Rests::of(runs);
    let mut lanes = Begun::nothing();
    for k in 0..longest {
        if runs.end_at(k) {
            return k;
        }
        let (left, fits) = begin_logged(machine, world, rests, &mut lanes);
        if !fits {
            return k;
        }
        rests = left;
        machine.step(world, &lanes, marks);
        steps.tick();
    }
    longest
}

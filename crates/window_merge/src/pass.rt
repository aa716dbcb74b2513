//! The cycles of a window on one thread: each is the machine's own, and is kept where it goes as the lanes would go alone.

ghost use Rattle.std.specs.Prelude.{◌≡◌, ◌-◌, ◌^◌, ◌<◌, ◌++◌, ◌∷◌, [], false, if◌then◌else◌, length};
ghost use Rattle.outer_lane.specs.Setting.{setting};
ghost use Rattle.outer_lane.specs.Step.{marked};
ghost use Rattle.rp_machine.specs.Cycle.{begun, wanted, next_by};
ghost use Rattle.window_merge.specs.Lanes.{is_launching};
ghost use Rattle.window_merge.specs.Notes.{noted_by, HasRoom};
ghost use Rattle.window_merge.specs.Start.{begun_from, differs_from, ends_wanted, goes_by, goes_on};

use crate::merge::clash;
use crate::notes::Notes;
use crate::start::{Start, begin_later};
use crate::walk::ends_want;
use lane_look::{Device, Marks};
use m0_core::Core;
use outer_lane::World;
use rp_machine::Machine;
use rp_machine::begun::Begun;
use rp_machine::wanted::{Wanted, all_wanted, is_core0_first};

/// Core 1 has a word of its launcher to take.
pub(crate) fn is_launching(core: &Core) -> bool
    ensures { result ≡ is_launching core.now }
{
    core.is_asleep() && core.has_offer()
}

/// A run alone ends before a cycle with these wants.
#[inline(always)]
fn ends_wanted(wants: &[Wanted; 4]) -> bool
    ensures { result ≡ ends_wanted wants.now }
{
    let [core0, core1, read, write] = wants;
    ends_want(&core0.want)
        || ends_want(&core1.want)
        || ends_want(&read.want)
        || ends_want(&write.want)
}

/// No run alone ends before a cycle in which the lanes have begun this and want that, and no two of its accesses name one port.
#[inline(always)]
#[tactic(auto, using(crate::proofs::InwardCycles::goes_first_alone))]
pub(crate) fn goes_by(lanes: &Begun, wants: &[Wanted; 4]) -> bool
    requires { wants.now ≡ wanted lanes.now }
    ensures { result ≡ goes_by lanes.now }
{
    !ends_wanted(wants) && (is_core0_first(lanes) || !clash(lanes, wants))
}

/// Does a cycle in which the lanes begin this and want that, and notes first what the masters write.
#[inline(always)]
fn step_noted<X: Device>(
    machine: &mut Machine,
    world: &World<'_, X>,
    notes: &mut Notes,
    lanes: &Begun,
    wants: &[Wanted; 4],
    marks: &mut Marks,
)
    requires wants { wants.now ≡ wanted lanes.now }
    requires number { machine.old.cycle < 2 ^ 64 - 1 }
    requires marks { length marks.old < 256 }
    requires room { HasRoom notes.old 3 }
    ensures state { machine.new ≡ next_by (setting X.meaning world.now) lanes.now (wanted
        lanes.now) machine.old }
    ensures marks { marks.new ≡ marks.old ++ marked (setting X.meaning world.now) machine.old.outer
        lanes.now.outer ∷ [] }
    ensures notes { notes.new ≡ noted_by (wanted lanes.now) machine.old.sram notes.old }
{
    notes.note(&machine.ram, wants);
    machine.step(world, lanes, marks);
}

/// A cycle of a window of which so many are over, where each answer of the start is what the machine answers, no run alone ends and no two
/// accesses name one port. Otherwise the machine, the notes and the marks stay. What the lanes begin is left in `lanes`, where it stands
/// already in the first one.
#[inline(never)]
pub(crate) fn try_later<X: Device>(
    machine: &mut Machine,
    world: &World<'_, X>,
    start: &Start,
    notes: &mut Notes,
    k: u16,
    lanes: &mut Begun,
    marks: &mut Marks,
) -> bool
    requires first { k ≡ 0 → lanes.old ≡ begun machine.old }
    requires same { k ≡ 0 → differs_from start.now notes.old machine.old ≡ false }
    requires number { machine.old.cycle < 2 ^ 64 - 1 }
    requires marks { length marks.old < 256 }
    requires room { HasRoom notes.old 3 }
    ensures goes { result ≡ goes_on start.now notes.old machine.old }
    ensures state { machine.new ≡ (if result then next_by (setting X.meaning world.now) (begun_from
        start.now notes.old machine.old) (wanted (begun_from start.now notes.old machine.old))
        machine.old else machine.old) }
    ensures marks { marks.new ≡ marks.old ++ (if result then marked (setting X.meaning world.now)
        machine.old.outer (begun_from start.now notes.old machine.old).outer ∷ [] else []) }
    ensures notes { notes.new ≡ (if result then noted_by
        (wanted (begun_from start.now notes.old machine.old)) machine.old.sram notes.old
        else notes.old) }
    ensures begun { lanes.new ≡ begun machine.old }
{
    if !begin_later(machine, world, start, notes, k, lanes) {
        return false;
    }
    let wants = all_wanted(lanes);
    if !goes_by(lanes, &wants) {
        return false;
    }
    step_noted(machine, world, notes, lanes, &wants, marks);
    true
}

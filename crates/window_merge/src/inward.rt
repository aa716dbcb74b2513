//! Cycles of a window as long as core 0 alone is at work in SRAM beside lanes that are quiet, which lie behind and are brought up once, or
//! nobody has anything to do.

ghost use Rattle.std.specs.Prelude.{◌≡◌, ◌+◌, ◌-◌, ◌*◌, ◌^◌, ◌<◌, ◌≤◌, ◌∷◌, ◌++◌, [], None, false, true, length};
ghost use Rattle.lane_look.specs.Alone.{ends_want};
ghost use Rattle.outer_lane.specs.Setting.{setting};
ghost use Rattle.rp_machine.specs.Answers.{lines_of};
ghost use Rattle.rp_machine.specs.Inward.{core0_want, goes_inward, inward_cycle, inward_after, StaysInward};
ghost use Rattle.window_merge.specs.Inward.{noted_core0, noted_inward, same_marks, GoneOver, KeepsInward};
ghost use Rattle.window_merge.specs.Notes.{is_clean, HasRoom};
ghost use Rattle.window_merge.specs.Start.{start_of};

use crate::notes::Notes;
use crate::start::Start;
use crate::walk::ends_want;
use lane_look::{Device, Lane, Mark, Marks};
use m0_core::{Core, Doing};
use outer_lane::World;
use quiet_run::pass::{pass, quiet};
use quiet_run::{Pace, bring_up, room_alone};
use rp_machine::{Machine, Steps, fact_limit_is_bounded};
use std::sync::ledger::Ledger;

/// One cycle of core 0, whose interrupt lines are these, where its run alone does not end before it and it reaches for nothing but SRAM;
/// what it writes is noted. Otherwise nothing changes.
#[inline(always)]
fn keep_onward(
    machine: &mut Machine,
    lines: u32,
    core0: &mut Doing,
    notes: &mut Notes,
    marks: &mut Marks,
) -> bool
    requires number { machine.old.cycle < 2 ^ 64 - 1 }
    requires lines { lines ≡ lines_of 0 machine.old }
    requires room { HasRoom notes.old 3 }
    ensures inward { result ≡ true → goes_inward machine.old ≡ true }
    ensures keeps { result ≡ true → ends_want (core0_want machine.old) ≡ false }
    ensures done { result ≡ true → machine.new ≡ inward_cycle machine.old }
    ensures notes { result ≡ true → notes.new ≡ noted_core0 (core0_want machine.old)
        machine.old.sram notes.old }
    ensures machine_stays { result ≡ false → machine.new ≡ machine.old }
    ensures notes_stay { result ≡ false → notes.new ≡ notes.old }
    ensures marks { marks.new ≡ marks.old }
{
    if machine.short_onward(lines) {
        return true;
    }
    machine.begin_core0(lines, core0);
    let [want, _] = <Core as Lane<()>>::wants(core0);
    if ends_want(&want) {
        return false;
    }
    let (original, own) = notes.words_of_core0(&machine.ram, &want);
    if !machine.begun_onward(core0, marks) {
        return false;
    }
    notes.add_core0(original, own);
    true
}

/// Core 0 goes on alone for at most so many cycles, as far as its run alone does not end and it reaches for nothing but SRAM, and the other
/// lanes stay as they are. What it writes is noted. How many cycles that were.
fn note_onward<L: Ledger>(
    machine: &mut Machine,
    notes: &mut Notes,
    most: u64,
    marks: &mut Marks,
    steps: &mut Steps<L>,
) -> u64
    requires number { machine.old.cycle + most < 2 ^ 64 }
    requires room { HasRoom notes.old (3 * most) }
    ensures most { result ≤ most }
    ensures state { machine.new ≡ inward_after result machine.old }
    ensures inward { StaysInward machine.old result }
    ensures keeps { KeepsInward machine.old result }
    ensures notes { notes.new ≡ noted_inward notes.old result machine.old }
    ensures marks { marks.new ≡ marks.old }
    ensures steps { steps.new ≡ steps.old + result }
{
    let lines = machine.lines(0);
    let mut core0 = Doing::nothing();
    let mut done = 0;
    while done < most
        && !machine.core0.is_waiting()
        && keep_onward(machine, lines, &mut core0, notes, marks)
    {
        steps.tick();
        done += 1;
    }
    done
}

/// Marks so many cycles in which no frame ends and the pads have these levels.
#[tactic(auto, using(crate::proofs::InwardCycles::same_none))]
fn mark_each(marks: &mut Marks, pads: u32, n: u64)
    requires { length marks.old + n ≤ 256 }
    ensures { marks.new ≡ marks.old ++ same_marks n
        (record { uart = None ∷ None ∷ []; pads = pads }) }
{
    let mark = Mark {
        uart: [None, None],
        pads,
    };
    for _k in 0..n {
        marks.push(mark);
    }
}

/// Each answer is still that of a window's start, of which so many cycles are over, and core 0 sees SRAM as it is. In the first one this is so.
#[inline(always)]
fn is_same(machine: &Machine, start: &Start, notes: &Notes, k: u16) -> bool
    requires first { k ≡ 0 → start.now ≡ start_of machine.now }
    requires none { k ≡ 0 → is_clean 0 notes.now ≡ true }
    ensures start { result ≡ true → start.now ≡ start_of machine.now }
    ensures sees { result ≡ true → is_clean 0 notes.now ≡ true }
{
    if k == 0 {
        return true;
    }
    if !notes.is_clean(0) {
        return false;
    }
    start.is_of(machine)
}

/// Moves the machine over at most so many cycles of a window of which `k` are over, as long as nobody has anything to do, where each answer
/// is still that of the window's start. How many they were.
#[inline(never)]
fn go_waiting<X: Device, L: Ledger>(
    machine: &mut Machine,
    world: &World<'_, X>,
    start: &Start,
    notes: &Notes,
    k: u16,
    most: u16,
    marks: &mut Marks,
    steps: &mut Steps<L>,
) -> u16
    requires first { k ≡ 0 → start.now ≡ start_of machine.old }
    requires none { k ≡ 0 → is_clean 0 notes.now ≡ true }
    requires number { machine.old.cycle + most ≤ world.now.limit }
    requires few { length marks.old + most ≤ 256 }
    ensures most { result ≤ most }
    ensures gone { GoneOver (setting X.meaning world.now) start.now machine.old notes.now marks.old
        result machine.new notes.now marks.new }
    ensures steps { steps.new ≡ steps.old + result }
{
    fact_limit_is_bounded(world);
    let to = machine.at + u64::from(most);
    let cycles = quiet(machine, world, to);
    if cycles == 0 || !is_same(machine, start, notes, k) {
        return 0;
    }
    pass(machine, world, cycles);
    steps.add(cycles);
    mark_each(marks, machine.pads(), cycles);
    cycles as u16
}

/// Moves the machine over at most so many cycles of a window of which `k` are over, as long as core 0 alone is at work in SRAM beside lanes
/// that are quiet, or nobody has anything to do, where each answer is still that of the window's start. How many they were.
#[inline(never)]
fn go_inward<X: Device, L: Ledger>(
    machine: &mut Machine,
    world: &World<'_, X>,
    start: &Start,
    notes: &mut Notes,
    k: u16,
    most: u16,
    marks: &mut Marks,
    steps: &mut Steps<L>,
) -> u16
    requires first { k ≡ 0 → start.now ≡ start_of machine.old }
    requires none { k ≡ 0 → is_clean 0 notes.old ≡ true }
    requires number { machine.old.cycle + most ≤ world.now.limit }
    requires few { length marks.old + most ≤ 256 }
    requires room { HasRoom notes.old (3 * most) }
    ensures most { result ≤ most }
    ensures gone { GoneOver (setting X.meaning world.now) start.now machine.old notes.old marks.old
        result machine.new notes.new marks.new }
    ensures steps { steps.new ≡ steps.old + result }
{
    fact_limit_is_bounded(world);
    if machine.core0.is_waiting() {
        return go_waiting(machine, world, start, notes, k, most, marks, steps);
    }
    let Some((seen, room)) = room_alone(machine, world, u64::from(most)) else {
        return 0;
    };
    if room == 0 || !is_same(machine, start, notes, k) {
        return 0;
    }
    let done = note_onward(machine, notes, room, marks, steps);
    bring_up(machine, world, &seen, done);
    mark_each(marks, machine.pads(), done);
    done as u16
}

/// The same, where a try is due, and the pace knows what came of it.
#[inline(always)]
pub(crate) fn go_paced<X: Device, L: Ledger>(
    machine: &mut Machine,
    world: &World<'_, X>,
    start: &Start,
    notes: &mut Notes,
    pace: &mut Pace,
    k: u16,
    most: u16,
    marks: &mut Marks,
    steps: &mut Steps<L>,
) -> u16
    requires first { k ≡ 0 → start.now ≡ start_of machine.old }
    requires none { k ≡ 0 → is_clean 0 notes.old ≡ true }
    requires number { machine.old.cycle + most ≤ world.now.limit }
    requires few { length marks.old + most ≤ 256 }
    requires room { HasRoom notes.old (3 * most) }
    ensures most { result ≤ most }
    ensures gone { GoneOver (setting X.meaning world.now) start.now machine.old notes.old marks.old
        result machine.new notes.new marks.new }
    ensures steps { steps.new ≡ steps.old + result }
{
    if !pace.is_due(machine) {
        return 0;
    }
    let at = machine.number();
    let done = go_inward(machine, world, start, notes, k, most, marks, steps);
    pace.note(at, u64::from(done));
    if 0 < done && done < most && !machine.core0.is_waiting() {
        // the cycle behind them ended them
        pace.note(machine.number(), 0);
    }
    done
}

//! A run by windows on one thread.

ghost use Rattle.std.specs.Prelude.{◌≡◌, ◌+◌, ◌<◌, ◌≤◌, ◌^◌, ◌==◌, None, length, if◌then◌else◌, IfOk, OnErr};
ghost use Rattle.outer_lane.specs.Setting.{setting};
ghost use Rattle.trace_text.specs.Tape.{Tells};
ghost use Rattle.rp_machine.specs.Cycle.{begun};
ghost use Rattle.rp_machine.specs.Run.{last_state};
ghost use Rattle.window_runner.specs.Told.{all_shown, events_by, run_shown};
ghost use Rattle.window_runner.specs.Alone.{IsRan, IsOnRun, FailsWithin, PassesTo, StepsTo, position_at, stop_in};

use crate::events::tell_marks;
use lane_look::{Device, Marks};
use outer_lane::World;
use rp_base::Why;
use rp_machine::begun::Begun;
use rp_machine::{Machine, Steps, fact_limit_is_bounded};
use std::sync::ledger::Ledger;
use trace_text::tape::Tape;
use trace_text::writer::SinkFault;
use window_merge::{Crew, Moved, advance, pass_windows};

/// What a run came to.
#[derive(Clone, Copy, PartialEq, Eq)]
pub struct Ran {
    /// Why it stopped.
    pub why: Why,
    /// How many windows it tried.
    pub windows: u64,
    /// How many cycles these windows had.
    pub cycles: u64,
}

impl Ran {
    /// A run that counted no windows stopped for this cause.
    pub(crate) fn uncounted(why: Why) -> Ran
        ensures why { result.why ≡ why }
        ensures windows { result.windows ≡ 0 }
        ensures cycles { result.cycles ≡ 0 }
    {
        Ran {
            why,
            windows: 0,
            cycles: 0,
        }
    }
}

/// What a run keeps of the windows that it tried.
#[derive(Clone, Copy)]
pub(crate) struct Counts {
    /// How many.
    pub(crate) windows: u64,
    /// How many cycles they had.
    pub(crate) cycles: u64,
    /// The last step was a window without a cycle.
    pub(crate) after_empty: bool,
}

/// Counts a window of so many cycles.
pub(crate) fn count_window(counts: &mut Counts, length: u16)
    requires windows { counts.old.windows + 1 < 2 ^ 64 }
    requires cycles { counts.old.cycles + length < 2 ^ 64 }
    ensures windows { counts.new.windows ≡ counts.old.windows + 1 }
    ensures cycles { counts.new.cycles ≡ counts.old.cycles + length }
    ensures after_empty { counts.new.after_empty ≡ (length == 0) }
{
    counts.windows += 1;
    counts.cycles += u64::from(length);
    counts.after_empty = length == 0;
}

/// Tells the events of a step that found no stop.
#[inline(always)]
pub(crate) fn tell_step<T: Tape>(
    cycle: u64,
    before: u32,
    marks: &Marks,
    tape: &mut T,
) -> Result<Option<Why>, SinkFault>
    requires { cycle + length marks.now < 2 ^ 64 }
    ensures told { Tells T.took T.missed tape.old tape.new (T.faults tape.old) (T.faults tape.new)
        (all_shown (events_by cycle before marks.now)) result }
    ensures none { stop_in result ≡ None }
{
    match tell_marks(cycle, before, marks, tape) {
        Ok(()) => Ok(None),
        Err(fault) => Err(fault),
    }
}

/// Goes to the next position of a run and tells the events on the way, or finds a stop and changes nothing.
fn step<X: Device, T: Tape, L: Ledger>(
    machine: &mut Machine,
    world: &World<'_, X>,
    crew: &mut Crew,
    counts: &mut Counts,
    marks: &mut Marks,
    tape: &mut T,
    steps: &mut Steps<L>,
) -> Result<Option<Why>, SinkFault>
    requires number { machine.old.cycle ≤ world.now.limit }
    requires begun { crew.old.begun ≡ begun machine.old }
    requires windows { counts.old.windows
        ≤ machine.old.cycle + (if counts.old.after_empty then 1 else 0) }
    requires cycles { counts.old.cycles ≤ machine.old.cycle }
    ensures step { StepsTo T.took T.missed tape.old tape.new (T.faults tape.old) (T.faults tape.new)
        (setting X.meaning world.now) (position_at machine.old counts.old) (position_at machine.new
        counts.new) steps.old steps.new result }
    ensures jobs { crew.new.jobs ≡ crew.old.jobs }
    ensures begun { crew.new.begun ≡ begun machine.new }
{
    fact_limit_is_bounded(world);
    let cycle = machine.number();
    let before = machine.pads();
    match advance(machine, world, crew, counts.after_empty, marks, steps) {
        Moved::Stopped(why) => Ok(Some(why)),
        Moved::Window(length) => {
            count_window(counts, length);
            tell_step(cycle, before, marks, tape)
        }
        Moved::Cycle => {
            counts.after_empty = false;
            tell_step(cycle, before, marks, tape)
        }
    }
}

/// Goes over the windows in which nobody has anything to do, of which nothing is told, and counts them. They are looked for behind a window
/// of 256 cycles.
#[inline(always)]
pub(crate) fn pass_quiet<X: Device, L: Ledger>(
    machine: &mut Machine,
    world: &World<'_, X>,
    lanes: &mut Begun,
    counts: &mut Counts,
    marks: &Marks,
    steps: &mut Steps<L>,
)
    requires number { machine.old.cycle ≤ world.now.limit }
    requires begun { lanes.old ≡ begun machine.old }
    requires windows { counts.old.windows
        ≤ machine.old.cycle + (if counts.old.after_empty then 1 else 0) }
    requires cycles { counts.old.cycles ≤ machine.old.cycle }
    ensures passed { PassesTo (setting X.meaning world.now) (position_at machine.old counts.old)
        (position_at machine.new counts.new) steps.old steps.new }
    ensures begun { lanes.new ≡ begun machine.new }
{
    fact_limit_is_bounded(world);
    if counts.after_empty || marks.count() < 256 {
        return;
    }
    let windows = pass_windows(machine, world, lanes, steps);
    counts.windows += windows;
    counts.cycles += windows * 256;
}

/// Runs a machine by windows and single cycles up to its first stop, and tells the events of all its cycles to a tape, on one
/// thread. Each cycle counts as a step. It uses no job of the crew, and takes no memory.
///
/// # Errors
///
/// The tape failed at an event, and its count of faults rose. It has the events before that one, and the machine stands behind the
/// step of that event, at most 256 cycles behind it.
pub fn run_alone<X: Device, T: Tape, L: Ledger>(
    machine: &mut Machine,
    world: &World<'_, X>,
    crew: &mut Crew,
    tape: &mut T,
    steps: &mut Steps<L>,
) -> Result<Ran, SinkFault>
    requires number { machine.old.cycle ≤ world.now.limit }
    ensures told { Tells T.took T.missed tape.old tape.new (T.faults tape.old) (T.faults tape.new)
        (run_shown (setting X.meaning world.now) machine.old) result }
    ensures ran { IfOk result (IsRan (setting X.meaning world.now) machine.old) }
    ensures state { IfOk result (λ ran. machine.new ≡ last_state (setting X.meaning world.now)
        machine.old) }
    ensures failed { OnErr result (FailsWithin T.took T.missed tape.old tape.new (setting X.meaning
        world.now) 256 machine.old machine.new) }
    ensures on_run { IsOnRun (setting X.meaning world.now) machine.old machine.new }
    ensures steps { steps.new + machine.old.cycle ≡ steps.old + machine.new.cycle }
    ensures jobs { crew.new.jobs ≡ crew.old.jobs }
{
    let mut counts = Counts {
        windows: 0,
        cycles: 0,
        after_empty: false,
    };
    let mut marks = Marks::new();
    machine.begin_into(world, &mut crew.begun);
    'steps: loop {
        match step(machine, world, crew, &mut counts, &mut marks, tape, steps) {
            Ok(None) => pass_quiet(machine, world, &mut crew.begun, &mut counts, &marks, steps),
            Ok(Some(why)) => {
                return Ok(Ran {
                    why,
                    windows: counts.windows,
                    cycles: counts.cycles,
                });
            }
            Err(fault) => return Err(fault),
        }
    }
}

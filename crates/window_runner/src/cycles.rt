//! A run cycle by cycle, which goes at once over cycles of which nothing is told: no window is made of it, and nothing is counted but
//! its cycles.

ghost use Rattle.std.specs.Prelude.{◌≡◌, ◌+◌, ◌<◌, ◌≤◌, false, length, IfOk, IfNone, OnErr, OnOk};
ghost use Rattle.outer_lane.specs.Setting.{setting};
ghost use Rattle.trace_text.specs.Tape.{Tells};
ghost use Rattle.rp_machine.specs.Quiet.{IsQuiet};
ghost use Rattle.rp_machine.specs.Run.{last_state, states};
ghost use Rattle.window_runner.specs.Told.{run_shown};
ghost use Rattle.window_runner.specs.Alone.{IsRanFor, IsOnRun, FailsWithin};
ghost use Rattle.window_runner.specs.Course.{Goes, IsCauseAt, OnItsWay};

use crate::alone::Ran;
use crate::events::tell_marks;
use lane_look::{Device, Marks};
use outer_lane::World;
use quiet_run::{Pace, pass_paced};
use rp_base::Why;
use rp_machine::begun::Begun;
use rp_machine::{Machine, Steps, fact_limit_is_bounded};
use std::sync::ledger::Ledger;
use trace_text::tape::Tape;
use trace_text::writer::SinkFault;

/// Goes over as many cycles as nothing is told of, where a try is due. Gives how many.
#[inline(always)]
fn pass_due<X: Device, L: Ledger>(
    machine: &mut Machine,
    world: &World<'_, X>,
    pace: &mut Pace,
    marks: &mut Marks,
    steps: &mut Steps<L>,
) -> u64
    ensures state { machine.new ≡ states (setting X.meaning world.now) machine.old result }
    ensures quiet { IsQuiet (setting X.meaning world.now) machine.old result }
    ensures steps { steps.new ≡ steps.old + result }
{
    if pace.is_due(machine) {
        return pass_paced(machine, world, world.limit, pace, marks, steps);
    }
    0
}

/// Goes over cycles of which nothing is told, and by one cycle; or finds a stop. What the lanes began in that cycle is left behind.
#[inline(always)]
pub(crate) fn go_by_cycle<X: Device, L: Ledger>(
    machine: &mut Machine,
    world: &World<'_, X>,
    begun: &mut Begun,
    pace: &mut Pace,
    marks: &mut Marks,
    steps: &mut Steps<L>,
) -> Option<Why>
    requires number { machine.old.cycle ≤ world.now.limit }
    ensures goes { Goes (setting X.meaning world.now) 1 machine.old machine.new marks.new steps.old steps.new result }
    ensures on { IfNone result (machine.old.cycle < machine.new.cycle) }
    ensures within { machine.new.cycle ≤ world.now.limit }
{
    pass_due(machine, world, pace, marks, steps);
    machine.begin_into(world, begun);
    machine.cycle_of(world, begun, marks, steps)
}

/// The number of the cycle that left the first of these marks.
#[inline(always)]
pub(crate) fn first_told(machine: &Machine, marks: &Marks) -> u64
    requires { length marks.now ≤ machine.now.cycle }
    ensures { result + length marks.now ≡ machine.now.cycle }
{
    machine.number() - u64::from(marks.count())
}

/// Runs a machine cycle by cycle, and over as many as nobody has anything to do in at once, up to its first stop, whose cause it answers, or
/// to the first cycle behind a number that it comes to, and tells the events of all its cycles to a tape. It takes no memory.
///
/// # Errors
///
/// Those of `run_cycles`.
pub(crate) fn run_to<X: Device, T: Tape, L: Ledger>(
    machine: &mut Machine,
    world: &World<'_, X>,
    until: u64,
    tape: &mut T,
    steps: &mut Steps<L>,
) -> Result<Option<Why>, SinkFault>
    requires number { machine.old.cycle ≤ world.now.limit }
    ensures way { OnOk result (OnItsWay T.took tape.old tape.new (T.faults tape.old) (T.faults
        tape.new) (setting X.meaning world.now) machine.old machine.new steps.old steps.new) }
    ensures cause { IsCauseAt (setting X.meaning world.now) until machine.new result }
    ensures told { OnErr result (Tells T.took T.missed tape.old tape.new (T.faults tape.old)
        (T.faults tape.new) (run_shown (setting X.meaning world.now) machine.old) result) }
    ensures failed { OnErr result (FailsWithin T.took T.missed tape.old tape.new (setting X.meaning
        world.now) 1 machine.old machine.new) }
    ensures on_run { IsOnRun (setting X.meaning world.now) machine.old machine.new }
    ensures steps { steps.new + machine.old.cycle ≡ steps.old + machine.new.cycle }
{
    let mut begun = Begun::nothing();
    let mut marks = Marks::new();
    let mut pace = Pace::default();
    'cycles: loop {
        if until < machine.number() {
            return Ok(None);
        }
        fact_limit_is_bounded(world);
        let before = machine.pads();
        match go_by_cycle(machine, world, &mut begun, &mut pace, &mut marks, steps) {
            Some(why) => return Ok(Some(why)),
            None => {
                let cycle = first_told(machine, &marks);
                match tell_marks(cycle, before, &marks, tape) {
                    Ok(()) => {}
                    Err(fault) => return Err(fault),
                }
            }
        }
    }
}

/// Runs a machine up to its first stop, and tells the events of all its cycles to a tape: cycle by cycle, and over as many as nobody has
/// anything to do in at once. Each cycle counts as a step, and no window is counted. It takes no memory.
///
/// # Errors
///
/// The tape failed at an event, and its count of faults rose. It has the events before that one, and the machine stands right behind
/// the cycle of that event.
pub fn run_cycles<X: Device, T: Tape, L: Ledger>(
    machine: &mut Machine,
    world: &World<'_, X>,
    tape: &mut T,
    steps: &mut Steps<L>,
) -> Result<Ran, SinkFault>
    requires number { machine.old.cycle ≤ world.now.limit }
    ensures told { Tells T.took T.missed tape.old tape.new (T.faults tape.old) (T.faults tape.new)
        (run_shown (setting X.meaning world.now) machine.old) result }
    ensures ran { IfOk result (IsRanFor false (setting X.meaning world.now) machine.old) }
    ensures state { IfOk result (λ ran. machine.new ≡ last_state (setting X.meaning world.now)
        machine.old) }
    ensures failed { OnErr result (FailsWithin T.took T.missed tape.old tape.new (setting X.meaning
        world.now) 1 machine.old machine.new) }
    ensures on_run { IsOnRun (setting X.meaning world.now) machine.old machine.new }
    ensures steps { steps.new + machine.old.cycle ≡ steps.old + machine.new.cycle }
{
    fact_limit_is_bounded(world);
    match run_to(machine, world, u64::MAX, tape, steps) {
        Ok(Some(why)) => Ok(Ran::uncounted(why)),
        Ok(None) => unreachable!(),
        Err(fault) => Err(fault),
    }
}

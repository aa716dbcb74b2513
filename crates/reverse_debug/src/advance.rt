//! How a machine goes forward.

ghost use Rattle.std.specs.Prelude.{◌≡◌, ℕ, ◌≤◌, ◌<◌, ◌+◌, ◌-◌, ◌&&◌, nat_lt, IfNone, false};
ghost use Rattle.outer_lane.specs.Setting.{setting};
ghost use Rattle.rp_machine.specs.Quiet.{IsQuiet};
ghost use Rattle.rp_machine.specs.Run.{states};
ghost use Rattle.reverse_debug.specs.Advance.{Advances, Approaches, SeesAs};
ghost use Rattle.reverse_debug.specs.Reading.{sought, IsThere};
ghost use Rattle.reverse_debug.specs.Reply.{ends_by, seen};

use crate::sight::Sight;
use crate::watch::{Watched, ends_by, seen};
use lane_look::{Device, Marks};
use quiet_run::{Pace, pass_paced, pass_quiet, pass_waiting, pass_watched};
use rp_base::Why;
use rp_machine::{Machine, Steps, World};
use std::sync::ledger::Ledger;

/// Fewer cycles than this are done one by one.
const FEW: u64 = 16;

/// Up to which cycle quiet times are passed at once, on the way to a cycle, before the last of its cycles: 0 where it is not worth while
/// to look for them.
fn passable(at: u64, to: u64, limit: u64) -> u64
    requires ahead { at ≤ to }
    ensures before { result ≤ to - 1 }
    ensures limit { result ≤ limit }
{
    if to - at < FEW { 0 } else { limit.min(to - 1) }
}

/// Steps a machine up to a cycle. None where it stands there, also where it would stop there; else the cause of the stop below
/// that cycle at which it stands. Quiet times are passed at once.
pub(crate) fn advance<X: Device, L: Ledger>(
    machine: &mut Machine,
    world: &World<'_, X>,
    to: u64,
    marks: &mut Marks,
    steps: &mut Steps<L>,
) -> Option<Why>
    requires low { machine.old.cycle ≤ world.now.limit }
    requires ahead { machine.old.cycle ≤ to }
    ensures way { Advances (setting X.meaning world.now) machine.old to machine.new result steps.old steps.new }
    ensures there { IfNone result (machine.new.cycle ≡ to) }
{
    let most = passable(machine.number(), to, world.limit);
    let mut pace = Pace::default();
    'cycles: while machine.number() < to {
        match machine.cycle(world, marks, steps) {
            Some(why) => return Some(why),
            None => {}
        }
        if pace.is_due(machine) {
            pass_paced(machine, world, most, &mut pace, marks, steps);
        }
    }
    None
}

/// So many cycles were passed, and a move forward ends behind the last of them.
fn has_ended(passed: u64, watched: Watched, before: u32, machine: &Machine) -> bool
    requires { IsThere watched }
    ensures { result ≡ (nat_lt 0 passed && ends_by (sought watched) before (seen (sought watched) machine.now)) }
{
    0 < passed && ends_by(watched, before, seen(machine, watched))
}

/// Goes over cycles behind which a move forward does not end, but maybe behind the last one, at most up to a cycle: quiet times, and those
/// in which core 0 alone is at work. How many they were, 0 also where none is passed at once.
#[tactic(auto, using(crate::proofs::Ends::pin_unended, crate::proofs::Ends::waiting_stays, crate::proofs::Sights::word_unended, crate::proofs::Sights::begun_unended))]
fn pass_seeking<X: Device, L: Ledger>(
    machine: &mut Machine,
    world: &World<'_, X>,
    watched: Watched,
    before: u32,
    to: u64,
    marks: &mut Marks,
    steps: &mut Steps<L>,
) -> u64
    requires limit { to ≤ world.now.limit }
    requires before { SeesAs (sought watched) before machine.old }
    ensures state { machine.new ≡ states (setting X.meaning world.now) machine.old result }
    ensures quiet { IsQuiet (setting X.meaning world.now) machine.old result }
    ensures within { 0 < result → machine.old.cycle + result ≤ to }
    ensures none { (k : ℕ) → k + 1 < result → ends_by (sought watched) before
        (seen (sought watched) (states (setting X.meaning world.now) machine.old (k + 1))) ≡ false }
    ensures steps { steps.new ≡ steps.old + result }
{
    if machine.core0.is_waiting() {
        return pass_waiting(machine, world, to, steps);
    }
    match watched {
        Watched::Pin(_) => pass_quiet(machine, world, to, marks, steps),
        Watched::Word(address) => {
            let sight = Sight::Word(address, before);
            pass_watched(machine, world, to, &sight, marks, steps)
        }
        Watched::Begun(core, address) => {
            let sight = Sight::Begun(core != 0, address);
            pass_watched(machine, world, to, &sight, marks, steps)
        }
    }
}

/// Steps a machine up to a cycle, or up to the first behind which a move forward ends by what is watched. None where it stands there,
/// also where it would stop there; else the cause of the stop below that cycle at which it stands.
pub(crate) fn seek<X: Device, L: Ledger>(
    machine: &mut Machine,
    world: &World<'_, X>,
    watched: Watched,
    to: u64,
    marks: &mut Marks,
    steps: &mut Steps<L>,
) -> Option<Why>
    requires watched { IsThere watched }
    requires low { machine.old.cycle ≤ world.now.limit }
    requires ahead { machine.old.cycle < to }
    ensures { Approaches (setting X.meaning world.now) (sought watched) machine.old to machine.new result steps.old steps.new }
{
    let before = seen(machine, watched);
    let most = passable(machine.number(), to, world.limit);
    let mut pace = Pace::default();
    'cycles: while machine.number() < to {
        match machine.cycle(world, marks, steps) {
            Some(why) => return Some(why),
            None => {}
        }
        if ends_by(watched, before, seen(machine, watched)) {
            return None;
        }
        if pace.is_due(machine) {
            let at = machine.number();
            let passed = pass_seeking(machine, world, watched, before, most, marks, steps);
            pace.note(at, passed);
            if has_ended(passed, watched, before, machine) {
                return None;
            }
        }
    }
    None
}

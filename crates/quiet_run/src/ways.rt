//! Which way to go over many cycles.

ghost use Rattle.std.specs.Prelude.{◌≡◌, ℕ, ◌+◌, ◌<◌, ◌≤◌, false};
ghost use Rattle.outer_lane.specs.Setting.{setting};
ghost use Rattle.quiet_run.specs.Pacing.{paced};
ghost use Rattle.rp_machine.specs.Quiet.{IsQuiet};
ghost use Rattle.rp_machine.specs.Run.{states};

use crate::onward::{Unwatched, Watch, pass_onward};
use crate::pass::pass_waiting;
use lane_look::{Device, Marks};
use rp_machine::{Machine, Steps, World};
use std::sync::ledger::Ledger;

/// When a way over many cycles is tried: after one, three, seven and then always fifteen cycles behind tries that went over none, so that a
/// run in which somebody has something to do in each cycle does not pay for a try in each.
#[derive(Clone, Copy, Default)]
pub struct Pace {
    // before this cycle nothing is tried, which is so many behind the last try
    next: u64,
    apart: u64,
}

impl Pace {
    ghost use Rattle.std.specs.Prelude.{◌≡◌, ◌&&◌, nat_le, not};
    ghost use Rattle.bus_fabric.specs.State.{has_hold};
    ghost use Rattle.quiet_run.specs.Pacing.{paced};

    /// A try is due: so many cycles are over since the last one, and no access lasts.
    #[inline(always)]
    pub fn is_due(&self, machine: &Machine) -> bool
        ensures { result ≡ (nat_le self.now.next machine.now.cycle && not (has_hold machine.now.fabric)) }
    {
        self.next <= machine.number() && !machine.fabric.holds()
    }

    /// A try at a cycle, when it was due, went over so many: where that is none the next one is due later, else at once.
    #[inline(always)]
    pub fn note(&mut self, at: u64, done: u64)
        ensures { self.new ≡ paced at done self.old }
    {
        if done == 0 {
            self.apart = self.apart % 8 * 2 + 1;
            self.next = at.saturating_add(self.apart);
        } else {
            self.apart = 0;
        }
    }
}

/// Goes over cycles in which core 0 alone is at work in SRAM, or waits for the peripherals, beside lanes that are quiet, and nothing stops it,
/// at most up to a cycle, and counts them. Gives how many there are, 0 also where an access lasts at the start or core 1 is at work. Each of
/// them happens, has no events, and leaves the pads as they are.
#[inline(always)]
pub fn pass_watched<X: Device, W: Watch, L: Ledger>(
    machine: &mut Machine,
    world: &World<'_, X>,
    to: u64,
    watch: &W,
    marks: &mut Marks,
    steps: &mut Steps<L>,
) -> u64
    requires { to ≤ world.now.limit }
    ensures state { machine.new ≡ states (setting X.meaning world.now) machine.old result }
    ensures quiet { IsQuiet (setting X.meaning world.now) machine.old result }
    ensures within { 0 < result → machine.old.cycle + result ≤ to }
    ensures unstopped { (k : ℕ) → k + 1 < result → W.stops watch.now (states (setting X.meaning world.now) machine.old (k + 1)) ≡ false }
    ensures marks { marks.new ≡ marks.old }
    ensures steps { steps.new ≡ steps.old + result }
{
    if machine.fabric.holds() || !machine.core1.is_waiting() {
        return 0;
    }
    pass_onward(machine, world, to, watch, marks, steps)
}

/// Goes over cycles of which nothing is told, at most up to a cycle, and counts them: those in which nobody has anything to do, or in
/// which core 0 alone is at work in SRAM, or waits for the peripherals, beside lanes that are quiet. Gives how many there are, 0 also where
/// an access lasts at the start. Each of them happens, has no events, and leaves the pads as they are.
pub fn pass_quiet<X: Device, L: Ledger>(
    machine: &mut Machine,
    world: &World<'_, X>,
    to: u64,
    marks: &mut Marks,
    steps: &mut Steps<L>,
) -> u64
    requires { to ≤ world.now.limit }
    ensures state { machine.new ≡ states (setting X.meaning world.now) machine.old result }
    ensures quiet { IsQuiet (setting X.meaning world.now) machine.old result }
    ensures within { 0 < result → machine.old.cycle + result ≤ to }
    ensures marks { marks.new ≡ marks.old }
    ensures steps { steps.new ≡ steps.old + result }
{
    if machine.core0.is_waiting() {
        return pass_waiting(machine, world, to, steps);
    }
    pass_watched(machine, world, to, &Unwatched, marks, steps)
}

/// The same, and the pace knows what came of it.
#[inline(always)]
pub fn pass_paced<X: Device, L: Ledger>(
    machine: &mut Machine,
    world: &World<'_, X>,
    to: u64,
    pace: &mut Pace,
    marks: &mut Marks,
    steps: &mut Steps<L>,
) -> u64
    requires { to ≤ world.now.limit }
    ensures state { machine.new ≡ states (setting X.meaning world.now) machine.old result }
    ensures quiet { IsQuiet (setting X.meaning world.now) machine.old result }
    ensures within { 0 < result → machine.old.cycle + result ≤ to }
    ensures marks { marks.new ≡ marks.old }
    ensures pace { pace.new ≡ paced machine.old.cycle result pace.old }
    ensures steps { steps.new ≡ steps.old + result }
{
    let at = machine.number();
    let done = pass_quiet(machine, world, to, marks, steps);
    pace.note(at, done);
    done
}

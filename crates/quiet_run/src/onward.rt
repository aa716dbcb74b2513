//! Core 0 at work by itself, beside a core 1, a DMA engine, PIO and peripherals that are quiet.

ghost use Rattle.std.specs.Prelude.{◌≡◌, ℕ, ◌+◌, ◌^◌, ◌<◌, ◌≤◌, false, IfSome};
ghost use Rattle.outer_lane.specs.Setting.{setting};
ghost use Rattle.outer_lane.specs.Quiet.{outer_after};
ghost use Rattle.rp_machine.specs.Alone.{blocks_after, core1_after};
ghost use Rattle.rp_machine.specs.Inward.{with_beside};
ghost use Rattle.rp_machine.specs.Quiet.{IsQuiet};
ghost use Rattle.quiet_run.specs.Parts.{MayBringUp, MayGoAlone};
ghost use Rattle.rp_machine.specs.Run.{states};

use lane_look::{Device, Marks};
use outer_lane::SeenOutputs;
use rp_machine::{Machine, Steps, World};
use std::sync::ledger::Ledger;

/// What may stop core 0 at work, by the state behind a cycle; of the other lanes only what core 1 begins is looked at.
pub trait Watch {
    ghost use Rattle.std.specs.Prelude.{◌≡◌, ℕ, ◌+◌, ◌^◌, ◌<◌, ◌≤◌, Bool, false};
    ghost use Rattle.m0_core.specs.State.{State as Core};
    ghost use Rattle.m0_core.specs.Begins.{begins};
    ghost use Rattle.outer_lane.specs.State.{State as OuterState};
    ghost use Rattle.rp_machine.specs.State.{State};
    ghost use Rattle.rp_machine.specs.Alone.{Blocks};
    ghost use Rattle.rp_machine.specs.Inward.{with_beside, inward_after, StaysInward};

    /// It stops core 0 behind the cycle that left this state.
    ghost stops: { Self → State → Bool };

    /// Core 0 goes on alone as by `Machine::go_onward`, at most up to the first cycle behind which this stops it. How many cycles that
    /// were.
    fn go_onward<L: Ledger>(
        &self,
        machine: &mut Machine,
        most: u64,
        marks: &mut Marks,
        steps: &mut Steps<L>,
    ) -> u64
        requires number { machine.old.cycle + most < 2 ^ 64 }
        ensures most { result ≤ most }
        ensures state { machine.new ≡ inward_after result machine.old }
        ensures inward { StaysInward machine.old result }
        ensures unstopped { (k : ℕ) → k + 1 < result → stops self.now (inward_after (k + 1) machine.old) ≡ false }
        ensures marks { marks.new ≡ marks.old }
        ensures steps { steps.new ≡ steps.old + result };

    /// It is the same beside others, where core 1 begins the same.
    ghost looks_inward: { (watch : Self) (p : Blocks) (c : Core) (o : OuterState) (s : State)
        → begins c ≡ begins s.core1 → stops watch (with_beside p c o s) ≡ stops watch s };
}

/// Nothing stops core 0.
#[derive(Clone, Copy, Debug)]
pub struct Unwatched;

impl Watch for Unwatched {
    ghost use Rattle.std.specs.Prelude.{false};
    ghost use Rattle.std.proofs.Common.{refl};

    ghost stops = { λ watch s. false };

    #[inline(always)]
    fn go_onward<L: Ledger>(
        &self,
        machine: &mut Machine,
        most: u64,
        marks: &mut Marks,
        steps: &mut Steps<L>,
    ) -> u64 {
        machine.go_onward(most, marks, steps)
    }

    ghost looks_inward = { λ watch p c o s same. refl };
}

/// For how many cycles, at most so many, core 0 may go on alone, and what the peripherals see meanwhile, where core 1 sleeps or waits and the
/// other lanes are quiet.
#[inline(always)]
pub fn room_alone<X: Device>(
    machine: &Machine,
    world: &World<'_, X>,
    most: u64,
) -> Option<(SeenOutputs, u64)>
    requires { machine.now.cycle + most ≤ world.now.limit }
    ensures { IfSome result (λ r. MayGoAlone (setting X.meaning world.now) r.0 machine.now r.1 × (r.1 ≤ most)) }
{
    if !machine.core1.is_waiting() || machine.sio.offers() {
        return None;
    }
    let blocks = machine.quiet_blocks();
    if blocks == 0 {
        return None;
    }
    let seen = machine.begin_outer(world);
    let outer = machine.outer.quiet(world, &seen);
    let lanes = outer.min(blocks);
    let others = lanes.min(machine.quiet_core1());
    Some((seen, others.min(most)))
}

/// Brings the lanes beside core 0 up by so many cycles, in which they are quiet.
pub fn bring_up<X: Device>(machine: &mut Machine, world: &World<'_, X>, seen: &SeenOutputs, n: u64)
    requires number { seen.now.cycle + n < 2 ^ 64 }
    requires quiet { MayBringUp (setting X.meaning world.now) seen.now machine.old n }
    ensures { machine.new ≡ with_beside (blocks_after n machine.old) (core1_after seen.now.cycle n machine.old)
        (outer_after (setting X.meaning world.now) seen.now n machine.old.outer) machine.old }
{
    machine.pass_core1(seen.cycle, n);
    machine.pass_blocks(n);
    machine.outer.pass(world, seen, n);
}

/// Goes on as far as core 0 alone is at work and reaches for nothing but SRAM, or waits for the peripherals, the other lanes are quiet and
/// nothing stops it, at most up to a cycle; and counts the cycles. Each of them happens, has no events, and leaves the pads as they are. How
/// many they were.
#[inline(never)]
pub(crate) fn pass_onward<X: Device, W: Watch, L: Ledger>(
    machine: &mut Machine,
    world: &World<'_, X>,
    to: u64,
    watch: &W,
    marks: &mut Marks,
    steps: &mut Steps<L>,
) -> u64
    requires { to ≤ world.now.limit }
    ensures state { machine.new ≡ states (setting X.meaning world.now) machine.old result }
    ensures quiet { IsQuiet (setting X.meaning world.now) machine.old result }
    ensures within { 0 < result → machine.old.cycle + result ≤ to }
    ensures unstopped { (k : ℕ) → k + 1 < result → W.stops watch.now (states (setting X.meaning world.now) machine.old (k + 1)) ≡ false }
    ensures marks { marks.new ≡ marks.old }
    ensures steps { steps.new ≡ steps.old + result }
{
    let at = machine.number();
    if to <= at {
        return 0;
    }
    let Some((seen, most)) = room_alone(machine, world, to - at) else {
        return 0;
    };
    let done = watch.go_onward(machine, most, marks, steps);
    bring_up(machine, world, &seen, done);
    done
}

//! The lanes begin a cycle by their logs, and the answers are compared with the machine's.

ghost use Rattle.std.specs.Prelude.{◌≡◌, ◌&&◌, not};
ghost use Rattle.lane_look.specs.Replay.{told, left, talk};
ghost use Rattle.lane_look.specs.Alone.{differs};
ghost use Rattle.rp_machine.specs.Answers.{answer_of};
ghost use Rattle.window_merge.specs.Merging.{begun_by, left_by, differs_by, fits};

use crate::merge::clash;
use crate::runs::Rests;
use lane_look::{Ask, Device, Lane, LogLook, Look};
use outer_lane::World;
use rp_machine::Machine;
use rp_machine::begun::Begun;
use rp_machine::wanted::all_wanted;

/// Answers a lane by what is left of a log, and keeps whether each answer is what the machine answers.
#[derive(Drop)]
struct Comparer<'a, 'b> {
    rest: LogLook<'a>,
    machine: &'b Machine,
    lane: u8,
    same: bool,
}

impl<'a, 'b> Look for Comparer<'a, 'b> {
    ghost use Rattle.std.specs.Prelude.{◌≡◌, ◌&&◌, nat_eq};
    ghost use Rattle.lane_look.specs.Replay.{first_answer, others};
    ghost use Rattle.rp_machine.specs.Answers.{answer_of};

    ghost answers = { λ old ask answer new. (answer ≡ first_answer old.rest) × (new ≡ record old {
      rest = others old.rest;
      same = old.same && nat_eq (answer_of old.lane old.machine.now ask) answer;
    }) };

    #[inline(always)]
    fn ask(&mut self, ask: Ask) -> u128 {
        let answer = self.rest.ask(ask);
        let here = self.machine.answer(self.lane, ask) == answer;
        self.same = self.same && here;
        answer
    }
}

/// Begins a lane's cycle by what is left of a log, and compares the answers with the machine's: `same` stays where each is the same. Gives
/// also what is left then.
#[inline(always)]
#[tactic(auto, using(crate::proofs::Comparing::runs_both))]
fn begin_compared<'a, E, S: Lane<E>>(
    lane: &S,
    env: &E,
    number: u8,
    machine: &Machine,
    rest: LogLook<'a>,
    same: &mut bool,
) -> (S::Begun, LogLook<'a>)
    ensures begun { result.0 ≡ told rest.entry (S.asks env.now lane.now machine.now.cycle) }
    ensures rest { result.1 ≡ left rest.entry (S.asks env.now lane.now machine.now.cycle) }
    ensures same { same.new ≡ (same.old && not (differs (answer_of number machine.now)
        (talk rest.entry (S.asks env.now lane.now machine.now.cycle)))) }
{
    let mut look = Comparer {
        rest,
        machine,
        lane: number,
        same: *same,
    };
    let begun = lane.begin(env, machine.at, &mut look);
    let Comparer {
        rest,
        same: now,
        ..
    } = look;
    *same = now;
    (begun, rest)
}

/// Begins the cycle of all lanes by their logs, in the place of what they began before, and says whether each answer is the machine's. Gives
/// also what is left of the logs then.
#[inline(always)]
fn compare<'a, X: Device>(
    machine: &Machine,
    world: &World<'_, X>,
    rests: Rests<'a>,
    lanes: &mut Begun,
) -> (Rests<'a>, bool)
    ensures begun { lanes.new ≡ begun_by rests.entry machine.now }
    ensures rests { result.0 ≡ left_by rests.entry machine.now }
    ensures same { result.1 ≡ not (differs_by rests.entry machine.now) }
{
    let m = machine;
    let mut same = true;
    let (begun, core0) = begin_compared(&m.core0, &(), 0, m, rests.core0, &mut same);
    lanes.core0 = begun;
    let (begun, core1) = begin_compared(&m.core1, &(), 1, m, rests.core1, &mut same);
    lanes.core1 = begun;
    let (begun, dma) = begin_compared(&m.dma.block, &(), 2, m, rests.dma, &mut same);
    lanes.dma = begun;
    let (begun, pio0) = begin_compared(&m.pio0.block, &(), 3, m, rests.pio0, &mut same);
    lanes.pio0 = begun;
    let (begun, pio1) = begin_compared(&m.pio1.block, &(), 4, m, rests.pio1, &mut same);
    lanes.pio1 = begun;
    let (begun, outer) = begin_compared(&m.outer, world, 5, m, rests.outer, &mut same);
    lanes.outer = begun;
    let left = Rests {
        core0,
        core1,
        dma,
        pio0,
        pio1,
        outer,
    };
    (left, same)
}

/// Begins so the cycle of all lanes, and says whether it is one of the window: each answer is the machine's, and no two accesses name one
/// port. Gives also what is left of the logs then.
pub(crate) fn begin_logged<'a, X: Device>(
    machine: &Machine,
    world: &World<'_, X>,
    rests: Rests<'a>,
    lanes: &mut Begun,
) -> (Rests<'a>, bool)
    ensures begun { lanes.new ≡ begun_by rests.entry machine.now }
    ensures rests { result.0 ≡ left_by rests.entry machine.now }
    ensures fits { result.1 ≡ fits rests.entry machine.now }
{
    let (left, same) = compare(machine, world, rests, lanes);
    let wants = all_wanted(lanes);
    (left, same && !clash(lanes, &wants))
}

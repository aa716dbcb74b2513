//! A lane that runs alone.

ghost use Rattle.std.specs.Prelude.{◌≡◌, ℕ, ◌+◌, ◌^◌, ◌<◌, ◌≤◌, ◌++◌, ◌∷◌, [], nat_le, if◌then◌else◌, Bool, not, length};
ghost use Rattle.lane_look.specs.declared.lane.Ask.{Ask};
ghost use Rattle.lane_look.specs.declared.lane.Want.{Want};
ghost use Rattle.lane_look.specs.Replay.{Entry, meaning};
ghost use Rattle.lane_look.specs.Alone.{surroundings, all_stored, begun_alone, alone_cycle, alone, ends_want, ends_wants, ends_now, ends_at, alone_length, recorded, standing};
ghost use Rattle.lane_look.specs.Truth.{IsTrue};

use crate::lane::{Ask, Lane, Look, Want};
use crate::log::Log;
use crate::marks::Marks;
use crate::replay::{Report, finish_alone};

/// What is around a lane that runs alone: it answers the lane's questions, and keeps what the lane stores.
pub trait Around {
    /// The answer to a question.
    ghost answer: { Self → Ask → ℕ };

    /// What an access leaves.
    ghost stored: { Self → Want → Self };

    /// Answers a question.
    fn answer(&self, ask: Ask) -> u128
        ensures { result ≡ answer self.now ask };

    /// Does the access of a want, if it is one to SRAM.
    fn store(&mut self, want: &Want)
        ensures { self.new ≡ stored self.old want.now };
}

/// Answers by what is around the lane, and writes down what it answered, as long as there is room.
pub struct Recorder<'a, W> {
    pub around: W,
    pub log: &'a mut Log,
}

impl<W: Around> Look for Recorder<'_, W> {
    ghost use Rattle.std.specs.Prelude.{◌≡◌};
    ghost use Rattle.lane_look.specs.Alone.{recorded};

    ghost answers = { λ old ask answer new. (answer ≡ W.answer old.around ask)
        × (new.around ≡ old.around) × (new.log.now ≡ recorded old.log.now (ask, answer))
        × (new.log.ghost_name ≡ old.log.ghost_name) };

    fn ask(&mut self, ask: Ask) -> u128 {
        let answer = self.around.answer(ask);
        if self.log.count() < 2048 {
            self.log.push(ask, answer);
        }
        answer
    }
}

/// The run ends before a cycle with such a want.
fn ends_want(want: &Want) -> bool
    ensures { result ≡ ends_want want.now }
{
    match *want {
        Want::Nothing | Want::Ram(_) => false,
        Want::Outward(_) | Want::Signal | Want::Stopped(_) => true,
    }
}

/// One of two wants is such a one.
fn ends_wants(wants: &[Want; 2]) -> bool
    ensures { result ≡ ends_wants wants.now }
{
    let [first, second] = wants;
    ends_want(first) || ends_want(second)
}

/// Does the accesses of both wants.
pub fn store_all<W: Around>(around: &mut W, wants: &[Want; 2])
    ensures { around.new ≡ all_stored (surroundings W.answer W.stored) around.old wants.now }
{
    let [first, second] = wants;
    around.store(first);
    around.store(second);
}

/// One cycle of a lane that runs alone. False where the run ends before it; nothing is changed then.
fn cycle_alone<E, S: Lane<E>, W: Around>(
    lane: &mut S,
    env: &E,
    cycle: u64,
    look: &mut Recorder<'_, W>,
    marks: &mut Marks,
) -> bool
    requires marks { length marks.old < 256 }
    requires room { length look.old.log.now + 8 ≤ 2048 }
    ensures goes { result ≡ not (ends_now (meaning S.asks S.wanted S.next S.marked)
        (surroundings W.answer W.stored) env.now cycle lane.old look.old.around) }
    ensures state { standing lane.new look.new.around look.new.log.now marks.new ≡
        (if result then alone_cycle (meaning S.asks S.wanted S.next S.marked)
        (surroundings W.answer W.stored) env.now cycle (standing lane.old look.old.around
        look.old.log.now marks.old) else standing lane.old look.old.around look.old.log.now
        marks.old) }
    ensures log { length look.new.log.now ≤ length look.old.log.now + 8 }
    ensures same_log { look.new.log.ghost_name ≡ look.old.log.ghost_name }
    ensures marks { length marks.new ≤ length marks.old + 1 }
{
    let kept = look.log.count();
    let begun = lane.begin(env, cycle, look);
    let wants = S::wants(&begun);
    if ends_wants(&wants) {
        look.log.cut(kept);
        return false;
    }
    finish_alone(lane, env, &begun, marks);
    store_all(&mut look.around, &wants);
    true
}

/// Cycles of a lane that runs alone, at most so many. Gives how many there are.
#[tactic(auto, using(crate::proofs::RunsAlone::alone_first))]
fn cycles_alone<E, S: Lane<E>, W: Around>(
    lane: &mut S,
    env: &E,
    start: u64,
    look: &mut Recorder<'_, W>,
    marks: &mut Marks,
    at_most: u16,
) -> u16
    requires cycles { at_most ≤ 256 }
    requires number { start + at_most < 2 ^ 64 }
    requires marks { marks.old ≡ [] }
    requires log { look.old.log.now ≡ [] }
    ensures length { result ≡ alone_length (meaning S.asks S.wanted S.next S.marked)
        (surroundings W.answer W.stored) env.now lane.old start look.old.around at_most }
    ensures within { result ≤ at_most }
    ensures state { standing lane.new look.new.around look.new.log.now marks.new ≡ alone
        (meaning S.asks S.wanted S.next S.marked) (surroundings W.answer W.stored) env.now lane.old
        start look.old.around result }
    ensures same_log { look.new.log.ghost_name ≡ look.old.log.ghost_name }
{
    for k in 0..at_most {
        if !cycle_alone(lane, env, start + u64::from(k), look, marks) {
            return k;
        }
    }
    at_most
}

/// Runs a lane alone in the report. Gives what is left around the lane.
fn alone_in<E, S: Lane<E>, W: Around>(report: &mut Report<S>, env: &E, around: W, at_most: u16) -> W
    requires cycles { at_most ≤ 256 }
    requires number { report.old.start + at_most < 2 ^ 64 }
    ensures start { report.new.start ≡ report.old.start }
    ensures before { report.new.before ≡ report.old.before }
    ensures length { report.new.length ≡ alone_length (meaning S.asks S.wanted S.next S.marked)
        (surroundings W.answer W.stored) env.now report.old.before report.old.start around at_most }
    ensures within { report.new.length ≤ at_most }
    ensures run { standing report.new.after result report.new.log report.new.marks ≡ alone
        (meaning S.asks S.wanted S.next S.marked) (surroundings W.answer W.stored) env.now
        report.old.before report.old.start around report.new.length }
{
    report.after.copy_from(&report.before);
    report.log.clear();
    report.marks.clear();
    let mut look = Recorder {
        around,
        log: &mut report.log,
    };
    let length = cycles_alone(
        &mut report.after,
        env,
        report.start,
        &mut look,
        &mut report.marks,
        at_most,
    );
    let Recorder { around, log: _log } = look;
    report.length = length;
    around
}

/// The run alone of a lane from the report's `before` and `start`, of at most so many cycles, in the report: nothing of it is
/// moved. Gives what is left around the lane.
pub fn run_lane_alone<E, S: Lane<E>, W: Around>(
    report: &mut Report<S>,
    env: &E,
    around: W,
    at_most: u16,
) -> W
    requires cycles { at_most ≤ 256 }
    requires number { report.old.start + at_most < 2 ^ 64 }
    ensures holds { IsTrue (meaning S.asks S.wanted S.next S.marked) env.now report.new }
    ensures start { report.new.start ≡ report.old.start }
    ensures before { report.new.before ≡ report.old.before }
    ensures length { report.new.length ≡ alone_length (meaning S.asks S.wanted S.next S.marked)
        (surroundings W.answer W.stored) env.now report.old.before report.old.start around at_most }
    ensures run { standing report.new.after result report.new.log report.new.marks ≡ alone
        (meaning S.asks S.wanted S.next S.marked) (surroundings W.answer W.stored) env.now
        report.old.before report.old.start around report.new.length }
{
    alone_in(report, env, around, at_most)
}

//! Reports of runs, and their replay.

ghost use Rattle.std.specs.Prelude.{◌≡◌, ◌+◌, ◌-◌, ◌^◌, ◌<◌, ◌≤◌, ◌++◌, [], length, List, map, take, IsSome};
ghost use Rattle.std.specs.Option.{option_to_list};
ghost use Rattle.lane_look.specs.Truth.{IsTrue, replay_of};
ghost use Rattle.lane_look.specs.Replay.{Entry, turn_alone, meaning, after_begun, marks_with, replayed};

use crate::lane::{Lane, Turn, Want};
use crate::log::{Log, LogLook};
use crate::marks::Marks;

/// A run of a lane apart from the others, in at most 256 cycles.
#[derive(Drop)]
pub struct Report<S> {
    /// The number of its first cycle.
    pub start: u64,
    /// How many cycles it has.
    pub length: u16,
    /// The lane before the first cycle, and after the last.
    pub before: S,
    pub after: S,
    /// What it asked, and what it was told.
    pub log: Log,
    /// The marks of its cycles.
    pub marks: Marks,
}

/// What a lane that runs alone is given for a want: an access to SRAM is done at once.
pub fn turn_alone(want: &Want) -> Turn
    ensures { result ≡ turn_alone want.now }
{
    match *want {
        Want::Ram(_) => Turn::Done(0),
        Want::Nothing | Want::Outward(_) | Want::Signal | Want::Stopped(_) => Turn::Nothing,
    }
}

/// What it is given for both wants.
fn turns_alone(wants: &[Want; 2]) -> [Turn; 2]
    ensures { result ≡ map turn_alone wants.now }
{
    let [first, second] = wants;
    [turn_alone(first), turn_alone(second)]
}

/// Ends a cycle of a lane that runs alone.
pub fn finish_alone<E, S: Lane<E>>(lane: &mut S, env: &E, begun: &S::Begun, marks: &mut Marks)
    requires { length marks.old < 256 }
    ensures state { lane.new ≡ after_begun (meaning S.asks S.wanted S.next S.marked) env.now
        lane.old begun.now }
    ensures marks { marks.new ≡ marks_with (meaning S.asks S.wanted S.next S.marked) env.now
        lane.old begun.now marks.old }
{
    let turns = turns_alone(&S::wants(begun));
    lane.finish(env, begun, turns, marks);
}

/// Replays a log for so many cycles. Gives how many of its entries were used.
#[tactic(auto, using(crate::proofs::Replays::stands_first, crate::proofs::Replays::stands_used))]
fn replay<E, S: Lane<E>>(
    lane: &mut S,
    env: &E,
    start: u64,
    log: &Log,
    n: u16,
    marks: &mut Marks,
) -> u16
    requires cycles { n ≤ 256 }
    requires number { start + n < 2 ^ 64 }
    requires none { marks.old ≡ [] }
    ensures state { lane.new ≡ (replayed (meaning S.asks S.wanted S.next S.marked) env.now lane.old
        start log.now n).state }
    ensures marks { marks.new ≡ (replayed (meaning S.asks S.wanted S.next S.marked) env.now lane.old
        start log.now n).marks }
    ensures used { length log.now ≡ result + length (replayed
        (meaning S.asks S.wanted S.next S.marked) env.now lane.old start log.now n).rest }
{
    let mut look = LogLook::new(log);
    for k in 0..n {
        let begun = lane.begin(env, start + u64::from(k), &mut look);
        finish_alone(lane, env, &begun, marks);
    }
    log.count() - look.count()
}

/// Makes `after` the state after the first cycles, and keeps the log and the marks of these.
#[tactic(auto, using(crate::proofs::Rewinds::rewound_true))]
pub fn rewind<E, S: Lane<E>>(report: &mut Report<S>, env: &E, n: u16)
    requires report { IsTrue (meaning S.asks S.wanted S.next S.marked) env.now report.old }
    requires within { n ≤ report.old.length }
    ensures report { IsTrue (meaning S.asks S.wanted S.next S.marked) env.now report.new }
    ensures state { report.new.after ≡ (replay_of (meaning S.asks S.wanted S.next S.marked) env.now
        report.old n).state }
    ensures before { report.new.before ≡ report.old.before }
    ensures start { report.new.start ≡ report.old.start }
    ensures length { report.new.length ≡ n }
    ensures log { (rest : List Entry) × (report.old.log ≡ report.new.log ++ rest) }
{
    report.after.copy_from(&report.before);
    report.marks.clear();
    let used = replay(
        &mut report.after,
        env,
        report.start,
        &report.log,
        n,
        &mut report.marks,
    );
    report.log.cut(used);
    report.length = n;
}

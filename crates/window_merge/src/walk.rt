//! A lane that runs alone again from a machine, and is compared with the log of a report.

ghost use Rattle.std.specs.Prelude.{◌≡◌, ◌+◌, ◌^◌, ◌<◌, ◌≤◌, ◌∷◌, [], true, List, length, Decides};
ghost use Rattle.lane_look.specs.Replay.{Entry, meaning};
ghost use Rattle.lane_look.specs.Alone.{ends_want, ends_wants, ends_now, alone_length};
ghost use Rattle.window_merge.specs.declared.walk.Walker.{Walker};
ghost use Rattle.window_merge.specs.Lanes.{around};
ghost use Rattle.window_merge.specs.Accept.{talk_alone};
ghost use Rattle.window_merge.specs.Judged.{IsFirstOther};
ghost use Rattle.window_merge.specs.Walks.{seen_by, IsCompared, GoesOn, IsStepped, IsWalked};

use crate::copies::half_of;
use crate::patch::WordLog;
use lane_look::replay::finish_alone;
use lane_look::{Ask, Lane, Log, Look, Marks, Want};
use rp_base::map::{Spot, place};
use rp_machine::Machine;

/// Answers a lane as a machine does, but for the words of SRAM that the lane wrote, and compares what it asks, and is answered,
/// with a log.
#[derive(Drop)]
pub(crate) struct Walker<'a, 'b> {
    machine: &'a Machine,
    lane: u8,
    /// What the lane wrote.
    words: WordLog,
    log: &'b Log,
    /// How many entries of the log are those that the lane made, from the first.
    index: u16,
    /// Whether these are all that it made.
    same: bool,
}

/// The entry of a log has this question and this answer.
fn is_entry(entry: (Ask, u128), ask: Ask, answer: u128) -> bool
    ensures { Decides result (entry ≡ (ask, answer)) }
{
    let (question, told) = entry;
    (question == ask) & (told == answer)
}

/// Compares one more entry with a log: how many are the same, and whether these are all.
fn compare(log: &Log, index: u16, same: bool, ask: Ask, answer: u128) -> (u16, bool)
    ensures { GoesOn log.now ((ask, answer) ∷ []) index same result.0 result.1 }
{
    if !same {
        return (index, false);
    }
    if index < log.count() {
        if is_entry(log.entry(index), ask, answer) {
            return (index + 1, true);
        }
    }
    (index, false)
}

/// The first entry of a log that is another one than what was asked, where so many are the same, and where these are all that
/// was asked or not.
fn first_other(log: &Log, index: u16, same: bool) -> Option<u16>
    ensures { (talk : List Entry) → IsCompared log.now talk index same → IsFirstOther log.now talk
        result }
{
    if same && index == log.count() {
        None
    } else {
        Some(index)
    }
}

impl Walker<'_, '_> {
    ghost use Rattle.std.specs.Prelude.{◌≡◌, ◌+◌, ◌<◌, ◌≤◌, length};
    ghost use Rattle.lane_look.specs.Alone.{all_stored};
    ghost use Rattle.rp_machine.specs.Answers.{answer_of, word_in};
    ghost use Rattle.window_merge.specs.Lanes.{around};
    ghost use Rattle.window_merge.specs.Walks.{seen_by};

    /// The word of SRAM that holds an address, 0 where there is none.
    fn word(&self, address: u32) -> u32
        ensures { result ≡ word_in (seen_by self.now).sram address }
    {
        let machine: &Machine = self.machine;
        match place(address) {
            Spot::Ram { index, .. } => self.words.read(&machine.ram, index),
            Spot::Reg { .. } | Spot::Sio { .. } | Spot::Ppb { .. } | Spot::Outside => 0,
        }
    }

    /// The answer to a question.
    fn answer(&self, ask: Ask) -> u128
        ensures { result ≡ answer_of self.now.lane (seen_by self.now) ask }
    {
        match ask {
            Ask::Half(address) => u128::from(half_of(self.word(address), address)),
            Ask::Word(address) => u128::from(self.word(address)),
            Ask::Lines => self.machine.answer(self.lane, Ask::Lines),
            Ask::Pacing => self.machine.answer(self.lane, Ask::Pacing),
            Ask::Inputs => self.machine.answer(self.lane, Ask::Inputs),
            Ask::Outs(block) => self.machine.answer(self.lane, Ask::Outs(block)),
        }
    }

    /// Does the accesses of both wants.
    fn store(&mut self, wants: &[Want; 2])
        requires { length self.old.words + 2 ≤ 512 }
        ensures stored { seen_by self.new ≡ all_stored (around self.old.lane) (seen_by self.old)
            wants.now }
        ensures rest { self.new ≡ record self.old { words = self.new.words } }
        ensures few { length self.new.words ≤ length self.old.words + 2 }
    {
        let machine: &Machine = self.machine;
        let [first, second] = wants;
        self.words.store(&machine.ram, first);
        self.words.store(&machine.ram, second);
    }
}

impl Look for Walker<'_, '_> {
    ghost use Rattle.window_merge.specs.Walks.{Answers};

    ghost answers = { Answers };

    fn ask(&mut self, ask: Ask) -> u128 {
        let answer = self.answer(ask);
        let (index, same) = compare(self.log, self.index, self.same, ask, answer);
        self.index = index;
        self.same = same;
        answer
    }
}

/// A run alone ends before a cycle with this want.
#[inline(always)]
pub(crate) fn ends_want(want: &Want) -> bool
    ensures { result ≡ ends_want want.now }
{
    match want {
        Want::Nothing | Want::Ram(_) => false,
        Want::Outward(_) | Want::Signal | Want::Stopped(_) => true,
    }
}

/// A run alone ends before a cycle with one of these wants.
fn ends_wants(wants: &[Want; 2]) -> bool
    ensures { result ≡ ends_wants wants.now }
{
    let [first, second] = wants;
    ends_want(first) || ends_want(second)
}

/// One cycle of a lane, as it is where it runs alone. Gives whether the run ends before this cycle. What was in `marks` is of no
/// use, and what is left there too.
#[tactic(auto, using(crate::proofs::Walking::runs_found))]
fn step<S: Lane<()>>(
    lane: &mut S,
    cycle: u64,
    walker: &mut Walker<'_, '_>,
    marks: &mut Marks,
) -> bool
    requires { length walker.old.words + 2 ≤ 512 }
    ensures { IsStepped (meaning S.asks S.wanted S.next S.marked) cycle lane.old lane.new walker.old
        walker.new result }
{
    let begun = lane.begin(&(), cycle, walker);
    let wants = S::wants(&begun);
    marks.clear();
    finish_alone(lane, &(), &begun, marks);
    walker.store(&wants);
    ends_wants(&wants)
}

/// So many cycles of a lane. Gives whether the run ends before one of these cycles.
#[tactic(auto, using(crate::proofs::Walking::walk_first))]
fn walk<S: Lane<()>>(lane: &mut S, start: u64, cycles: u16, walker: &mut Walker<'_, '_>) -> bool
    requires cycles { cycles ≤ 256 }
    requires number { start + cycles < 2 ^ 64 }
    requires words { walker.old.words ≡ [] }
    requires index { walker.old.index ≡ 0 }
    requires same { walker.old.same ≡ true }
    ensures { IsWalked (meaning S.asks S.wanted S.next S.marked) lane.old start walker.old cycles
        lane.new walker.new result }
{
    let mut marks = Marks::new();
    let mut ended = false;
    for k in 0..cycles {
        if step(lane, start + u64::from(k), walker, &mut marks) {
            ended = true;
        }
    }
    ended
}

/// Whether the run ends before a cycle.
fn ends_here<S: Lane<()>>(lane: &S, cycle: u64, walker: &mut Walker<'_, '_>) -> bool
    ensures { result ≡ ends_now (meaning S.asks S.wanted S.next S.marked) (around walker.old.lane)
        tt cycle lane.now (seen_by walker.old) }
{
    let begun = lane.begin(&(), cycle, walker);
    ends_wants(&S::wants(&begun))
}

/// Whether the run alone has as many cycles as were walked, where it has at most so many.
#[tactic(auto, using(crate::proofs::Walking::length_ended, crate::proofs::Walking::length_full))]
fn is_length<S: Lane<()>>(
    lane: &S,
    start: u64,
    walker: &mut Walker<'_, '_>,
    ended: bool,
    cycles: u16,
    at_most: u16,
) -> bool
    requires { start + cycles < 2 ^ 64 }
    ensures { (before : S) (first : Walker) → IsWalked (meaning S.asks S.wanted S.next S.marked)
        before start first cycles lane.now walker.old ended → Decides result (cycles ≡ alone_length
        (meaning S.asks S.wanted S.next S.marked) (around first.lane) tt before start
        (seen_by first) at_most) }
{
    if ended {
        return false;
    }
    if at_most < cycles {
        return false;
    }
    if cycles == at_most {
        return true;
    }
    ends_here(lane, start + u64::from(cycles), walker)
}

/// What a comparison came to.
#[derive(Clone, Copy)]
pub(crate) struct Agreement {
    /// The run alone has as many cycles.
    pub(crate) same_length: bool,
    /// The first entry of the log that is not one of the run alone, in as many cycles.
    pub(crate) other: Option<u16>,
}

/// Compares a log of so many cycles with the run alone of a lane from a machine, of at most so many cycles.
pub(crate) fn compare_run<S: Lane<()> + Drop>(
    lane: S,
    machine: &Machine,
    number: u8,
    log: &Log,
    cycles: u16,
    at_most: u16,
) -> Agreement
    requires cycles { cycles ≤ 256 }
    requires number { machine.now.cycle + cycles < 2 ^ 64 }
    ensures length { Decides result.same_length (cycles ≡ alone_length
        (meaning S.asks S.wanted S.next S.marked) (around number) tt lane machine.now.cycle
        machine.now at_most) }
    ensures other { IsFirstOther log.now (talk_alone (meaning S.asks S.wanted S.next S.marked)
        number lane machine.now cycles) result.other }
{
    let mut lane = lane;
    let mut walker = Walker {
        machine,
        lane: number,
        words: WordLog::new(),
        log,
        index: 0,
        same: true,
    };
    let ended = walk(&mut lane, machine.at, cycles, &mut walker);
    let other = first_other(log, walker.index, walker.same);
    let same_length = is_length(&lane, machine.at, &mut walker, ended, cycles, at_most);
    Agreement { same_length, other }
}

//! What a core wants in a cycle, and how the cycle ends.

ghost use Rattle.std.specs.Prelude.{◌≡◌, ◌<◌, ◌||◌, Decides, if◌then◌else◌, true, false, Some, slice_get};
ghost use Rattle.lane_look.specs.declared.lane.Want.TheVariants.{Nothing};
ghost use Rattle.m0_beats.specs.Shapes.{is_one_access};
ghost use Rattle.lane_look.specs.Asking.Asking.{Ready};
ghost use Rattle.thumb_rows.specs.Rows.{operation_of};
ghost use Rattle.m0_core.specs.Kinds.{is_signal};
ghost use Rattle.m0_core.specs.Shortcuts.{is_plain};
ghost use Rattle.m0_core.specs.Fetch.{asks_decoded, asks_second};
ghost use Rattle.m0_core.specs.Cycle.{want_of, waiting, followed, with_read, returning, called, ended, passed_instruction, passed_entry, passed_return, passed_work, passed, is_paused_op, is_paused, after_inner, faulted, done_word, after_access, value_of, after_outward, after_private, after, closed, is_idle, next};

use crate::doing::{Act, Doing, Work};
use crate::exceptions::{ENTRY_BEATS, RETURN_BEATS};
use crate::kinds::{
    awaits_event, awaits_interrupt, is_branch, is_call, is_pause, is_plain, is_signal, is_single,
};
use crate::placed::Placed;
use crate::processor::Core;
use lane_look::{Turn, Want};
use m0_beats::{
    Beat, effect, exception_return, has_more, is_one_access, shape_beat, shape_is_unaligned,
    shape_of,
};
use m0_nvic::numbers::{HARDFAULT, SVCALL};
use rp_base::Request;
use rp_base::access::lanes;
use rp_base::op::Op;
use thumb_rows::{decode, is_long};

/// What a core wants.
pub(crate) fn want(begun: &Doing) -> Want
    ensures { result ≡ want_of begun.now }
{
    match begun.act {
        Act::Asleep | Act::Fault | Act::Private(..) => Want::Nothing,
        Act::Stopped(why) => Want::Stopped(why),
        Act::Inner(Work::Instruction(op)) if is_signal(&op) => Want::Signal,
        Act::Inner(_) => Want::Nothing,
        Act::Read(_, access, _) | Act::Write(_, access) => Want::Ram(*access.request()),
        Act::Outward(_, access) => Want::Outward(*access.request()),
    }
}

impl Doing {
    /// The core wants nothing.
    #[inline(always)]
    pub fn wants_nothing(&self) -> bool
        ensures { Decides result (want_of self.now ≡ Nothing) }
    {
        if let Act::Inner(Work::Instruction(op)) = &self.act {
            return !is_signal(op);
        }
        match &self.act {
            Act::Inner(_) | Act::Asleep | Act::Fault | Act::Private(..) => true,
            Act::Stopped(_) | Act::Read(..) | Act::Write(..) | Act::Outward(..) => false,
        }
    }
}

/// Nothing happens to the core.
#[inline(always)]
pub(crate) fn is_idle(act: &Act) -> bool
    ensures { result ≡ is_idle act.now }
{
    matches!(act, Act::Asleep | Act::Stopped(_))
}

/// The word of an access that is done.
pub(crate) fn done_word(turns: &[Turn; 2]) -> Option<u32>
    ensures { result ≡ done_word (slice_get turns.now 0) }
{
    match turns[0] {
        Turn::Done(word) => Some(word),
        Turn::Wait | Turn::Nothing => None,
    }
}

/// A read's lanes of a word; a write has no value.
fn value_of(request: &Request, word: u32) -> Option<u32>
    ensures { result ≡ value_of request.now request.now.write word }
{
    match request.write {
        None => Some(lanes(request.size, request.address, word)),
        Some(_) => None,
    }
}

/// The exception return that begins.
fn returning(value: Option<u32>) -> Option<Work>
    ensures { result ≡ returning value }
{
    match value {
        None => None,
        Some(value) => Some(Work::Return(value)),
    }
}

/// Both are the same instruction.
#[inline(always)]
fn is_instruction(work: &Work, other: &Work) -> bool
    ensures { result ≡ true → work.now ≡ other.now }
{
    match work {
        Work::Instruction(op) => match other {
            Work::Instruction(same) => *op == *same,
            Work::Entry(_) | Work::Return(_) => false,
        },
        Work::Entry(_) | Work::Return(_) => false,
    }
}

impl Core {
    /// The instruction in progress is this.
    #[inline(always)]
    fn is_at(&self, work: &Work) -> bool
        ensures { result ≡ true → self.now.work ≡ Some work.now }
    {
        match &self.work {
            None => false,
            Some(present) => is_instruction(present, work),
        }
    }

    /// The beat is not over.
    #[inline(always)]
    #[tactic(auto, using(crate::proofs::Kept::at_work))]
    pub(crate) fn wait(&mut self, work: &Work)
        ensures { self.new ≡ waiting work.now self.old }
    {
        if !self.is_at(work) {
            self.work = Some(*work);
            self.is_kept = false;
        }
    }

    /// Another beat follows.
    fn follow(&mut self, work: Work)
        requires { self.old.beats_done < 32 }
        ensures { self.new ≡ followed work self.old }
    {
        self.work = Some(work);
        self.beats_done += 1;
        self.is_kept = false;
    }

    /// Keeps a value that was read.
    fn keep(&mut self, value: Option<u32>)
        ensures { self.new ≡ with_read value self.old }
    {
        if let Some(value) = value {
            if self.read.len() < 16 {
                self.read.push(value);
            }
        }
    }

    /// SVC makes its exception pending.
    fn call(&mut self, op: &Op)
        ensures { self.new ≡ record self.old { nvic = called op.now self.old.nvic } }
    {
        if is_call(op) {
            self.nvic.pend(SVCALL);
        }
    }

    /// The last beat of a plain instruction, or of a load or a store of one register, is over: it begins no return, is no call
    /// and waits for nothing.
    #[inline(always)]
    #[tactic(auto, using(crate::proofs::Plain::plainly_ended))]
    fn end_plain(&mut self, op: &Op)
        requires { (is_plain op.now || is_one_access op.now) ≡ true }
        ensures { self.new ≡ ended op.now self.old }
    {
        effect(op, &mut self.regs, self.read.as_slice());
        self.work = None;
        self.beats_done = 0;
        self.read.clear();
    }

    /// WFI or WFE lasts on, so that the beat changes nothing.
    #[inline(always)]
    #[tactic(auto, unfolding(crate::specs::Cycle::after_inner), using(crate::proofs::Kept::at_work))]
    fn lasts(&self, work: &Work) -> bool
        ensures { result ≡ true → after_inner work.now self.now ≡ self.now }
    {
        self.is_at(work) && self.is_paused(work)
    }

    /// An inner beat of a plain instruction, or of a load or a store of one register, is over, as most are, or WFI or WFE lasts on; false
    /// where it is other, and then nothing changes.
    #[inline(always)]
    #[tactic(auto, using(crate::proofs::Plain::single_after, crate::proofs::Plain::single_plain, crate::proofs::Plain::branch_plain, crate::proofs::Plain::plainly_after))]
    pub(crate) fn pass_plain(&mut self, work: &Work) -> bool
        ensures { self.new ≡ (if result then after_inner work.now self.old else self.old) }
    {
        match work {
            Work::Instruction(op) if is_single(op) => {
                self.end_plain(op);
                true
            }
            Work::Instruction(op) if is_branch(op) => {
                self.pass_instruction(op);
                true
            }
            Work::Instruction(op) if is_one_access(op) => {
                self.pass_access(op);
                true
            }
            Work::Instruction(op) if is_pause(op) => self.lasts(work),
            _ => false,
        }
    }

    /// A cycle in which the core begins the instruction of this halfword, where that is a plain one (`is_plain`), a branch by an offset, or
    /// a load or a store of one register whose access comes later. False elsewhere; then nothing changes.
    #[inline(always)]
    #[tactic(auto, unfolding(crate::specs::Fetch::asks_second), using(crate::proofs::Plain::plain_decoded, crate::proofs::Plain::plainly_after))]
    pub fn pass_short(&mut self, first: u16, lines: u32, cycle: u64) -> bool
        ensures begun { result ≡ true
            → asks_second first self.old ≡ Ready (Act.Inner (Work.Instruction (operation_of first 0))) }
        ensures silent { result ≡ true → is_signal (operation_of first 0) ≡ false }
        ensures state { self.new ≡ (if result then closed lines cycle
            (after_inner (Work.Instruction (operation_of first 0)) self.old) else self.old) }
    {
        if is_long(first) || !self.regs.t {
            return false;
        }
        let op = decode(first, 0);
        let passes = if is_one_access(&op) {
            self.keep_access(&op)
        } else {
            is_plain(&op) && self.pass_plain(&Work::Instruction(op))
        };
        if passes {
            self.close(lines, cycle);
        }
        passes
    }

    /// Ends a cycle in which this was begun, whatever it is.
    #[inline(never)]
    #[tactic(auto, unfolding(crate::specs::Cycle::next))]
    pub(crate) fn finish_any(&mut self, begun: &Doing, turns: &[Turn; 2])
        ensures { self.new ≡ next self.old begun.now turns.now }
    {
        if !is_idle(&begun.act) {
            self.after(&begun.act, done_word(turns));
            self.close(begun.lines, begun.cycle);
        }
    }

    /// The last beat of an instruction is over.
    #[inline(always)]
    #[tactic(auto, unfolding(crate::specs::Cycle::ended))]
    fn end(&mut self, op: &Op)
        ensures { self.new ≡ ended op.now self.old }
    {
        if is_plain(op) {
            self.end_plain(op);
            return;
        }
        self.call(op);
        let value = exception_return(op, &self.regs, self.read.as_slice());
        effect(op, &mut self.regs, self.read.as_slice());
        self.event = self.event && !awaits_event(op);
        self.work = returning(value);
        self.beats_done = 0;
        self.is_kept = false;
        self.read.clear();
    }

    /// A beat of an instruction is over.
    #[inline(always)]
    #[tactic(auto, unfolding(crate::specs::Cycle::passed_instruction))]
    fn pass_instruction(&mut self, op: &Op)
        ensures { self.new ≡ passed_instruction op.now self.old }
    {
        if has_more(op, &self.regs, self.beats_done) {
            self.work = Some(Work::Instruction(*op));
            self.beats_done += 1;
            self.is_kept = false;
        } else {
            self.end(op);
        }
    }

    /// Ends the first beat of a load or a store of one register, where it is inside the core and the access comes next; the core keeps
    /// that access. False elsewhere, as where the instruction faults; then nothing changes.
    #[inline(never)]
    #[tactic(auto, unfolding(crate::specs::Cycle::passed_instruction), using(crate::proofs::OneAccess::kept))]
    fn keep_access(&mut self, op: &Op) -> bool
        requires { is_one_access op.now ≡ true }
        ensures begun { result ≡ true → self.old.regs.t ≡ true
            → asks_decoded op.now self.old ≡ Ready (Act.Inner (Work.Instruction op.now)) }
        ensures state { self.new ≡ (if result then passed_instruction op.now self.old else self.old) }
    {
        let shape = shape_of(op, &self.regs);
        if self.beats_done != 0 || shape_is_unaligned(&shape, &self.regs) {
            return false;
        }
        match (
            shape_beat(&shape, &self.regs, 0),
            shape_beat(&shape, &self.regs, 1),
        ) {
            (Some(Beat::Inner), Some(Beat::Access(request))) => {
                self.work = Some(Work::Instruction(*op));
                self.beats_done = 1;
                self.is_kept = true;
                self.kept = Placed::new(request);
                true
            }
            _ => false,
        }
    }

    /// A beat of a load or a store of one register is over. No beat comes behind the second.
    #[inline(always)]
    #[tactic(auto, using(crate::proofs::OneAccess::second_over))]
    fn pass_access(&mut self, op: &Op)
        requires { is_one_access op.now ≡ true }
        ensures { self.new ≡ passed_instruction op.now self.old }
    {
        if self.beats_done != 0 {
            self.end_plain(op);
        } else if !self.keep_access(op) {
            self.pass_instruction(op);
        }
    }

    /// A beat of an entry is over.
    #[tactic(auto, unfolding(crate::specs::Cycle::passed_entry))]
    fn pass_entry(&mut self, number: u8)
        ensures { self.new ≡ passed_entry number self.old }
    {
        if self.beats_done < ENTRY_BEATS - 1 {
            self.follow(Work::Entry(number));
        } else {
            self.end_entry(number);
        }
    }

    /// A beat of a return is over.
    #[tactic(auto, unfolding(crate::specs::Cycle::passed_return))]
    fn pass_return(&mut self, value: u32)
        ensures { self.new ≡ passed_return value self.old }
    {
        if self.beats_done < RETURN_BEATS - 1 {
            self.follow(Work::Return(value));
        } else {
            self.end_return(value);
        }
    }

    /// A beat is over, and its value was kept.
    #[inline(always)]
    fn pass_work(&mut self, work: &Work)
        ensures { self.new ≡ passed_work work.now self.old }
    {
        match work {
            Work::Instruction(op) if is_one_access(op) => self.pass_access(op),
            Work::Instruction(op) => self.pass_instruction(op),
            Work::Entry(number) => {
                self.take_first(*number);
                self.pass_entry(*number);
            }
            Work::Return(value) => self.pass_return(*value),
        }
    }

    /// A beat is over that may have read a value.
    #[inline(always)]
    #[tactic(auto, unfolding(crate::specs::Cycle::passed))]
    fn pass_beat(&mut self, work: &Work, value: Option<u32>)
        ensures { self.new ≡ passed work.now value self.old }
    {
        self.keep(value);
        self.pass_work(work);
    }

    /// The second beat of WFE or WFI lasts on.
    #[inline(always)]
    fn is_paused_op(&self, op: &Op) -> bool
        ensures { result ≡ is_paused_op op.now self.now }
    {
        self.beats_done == 1
            && (awaits_interrupt(op) || awaits_event(op) && !self.event)
            && !self.nvic.wakes()
    }

    /// The beat lasts on.
    #[inline(always)]
    pub(crate) fn is_paused(&self, work: &Work) -> bool
        ensures { result ≡ is_paused work.now self.now }
    {
        match work {
            Work::Instruction(op) => self.is_paused_op(op),
            Work::Entry(_) | Work::Return(_) => false,
        }
    }

    /// The end of a cycle inside the core.
    #[inline(always)]
    #[tactic(auto, unfolding(crate::specs::Cycle::after_inner))]
    fn after_inner(&mut self, work: &Work)
        ensures { self.new ≡ after_inner work.now self.old }
    {
        if self.is_paused(work) {
            self.wait(work);
        } else {
            self.pass_beat(work, None);
        }
    }

    /// The end of a cycle with a fault.
    #[tactic(auto, unfolding(crate::specs::Cycle::faulted))]
    fn fault(&mut self)
        ensures { self.new ≡ faulted self.old }
    {
        self.nvic.pend(HARDFAULT);
        self.work = None;
        self.beats_done = 0;
        self.read.clear();
    }

    /// The end of a cycle of an access, which has this value where it is done.
    #[inline(always)]
    fn after_access(&mut self, word: Option<u32>, work: &Work, value: Option<u32>)
        ensures { self.new ≡ after_access word work.now value self.old }
    {
        if word.is_some() {
            self.pass_beat(work, value);
        } else {
            self.wait(work);
        }
    }

    /// The end of a cycle of an access that is not to SRAM, which has this word where it is done.
    #[inline(always)]
    fn after_outward(&mut self, word: Option<u32>, work: &Work, request: &Request)
        ensures { self.new ≡ after_outward word work.now request.now self.old }
    {
        match word {
            None => self.wait(work),
            Some(word) => self.pass_beat(work, value_of(request, word)),
        }
    }

    /// The end of a cycle of an access to the private bus.
    #[tactic(auto, unfolding(crate::specs::Cycle::after_private))]
    fn after_private(&mut self, work: &Work, request: &Request, offset: u16)
        ensures { self.new ≡ after_private work.now request.now offset self.old }
    {
        let value = self.private_value(request, offset);
        self.access(request, offset);
        self.pass_beat(work, value);
    }

    /// The end of what was begun.
    #[inline(always)]
    pub(crate) fn after(&mut self, act: &Act, word: Option<u32>)
        ensures { self.new ≡ after act.now word self.old }
    {
        match act {
            Act::Asleep | Act::Stopped(_) => {}
            Act::Fault => self.fault(),
            Act::Inner(work) => self.after_inner(work),
            Act::Read(work, access, told) => {
                let request = access.request();
                let value = lanes(request.size, request.address, *told);
                self.after_access(word, work, Some(value));
            }
            Act::Write(work, _) => self.after_access(word, work, None),
            Act::Outward(work, access) => self.after_outward(word, work, access.request()),
            Act::Private(work, request, offset) => self.after_private(work, request, *offset),
        }
    }

    /// The system timer and the interrupt lines have their turn.
    #[inline(always)]
    #[tactic(auto, unfolding(crate::specs::Cycle::closed))]
    pub(crate) fn close(&mut self, lines: u32, cycle: u64)
        ensures { self.new ≡ closed lines cycle self.old }
    {
        if self.nvic.end_cycle(lines, cycle) {
            self.event = true;
        }
    }
}

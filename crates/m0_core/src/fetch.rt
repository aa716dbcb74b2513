//! What a core asks in a cycle.

ghost use Rattle.std.specs.Prelude.{◌≡◌, ◌%◌, ◌^◌, Some, true};
ghost use Rattle.rp_base.specs.Map.{place_of};
ghost use Rattle.lane_look.specs.Asking.{Runs};
ghost use Rattle.lane_look.specs.declared.lane.Ask.TheVariants.{Lines};
ghost use Rattle.lane_look.specs.Asking.Asking.{Ready};
ghost use Rattle.rp_base.specs.Access.{master_of};
ghost use Rattle.m0_beats.specs.Instructions.{beats_of};
ghost use Rattle.m0_core.specs.Begins.{begins};
ghost use Rattle.m0_beats.specs.Shapes.{beats_of_shape};
ghost use Rattle.m0_core.specs.Fetch.{is_ram, is_locked, asks_fault, is_callable, is_faulty, beat_of, beat_of_work, in_ram, in_private, at_spot, in_beat, asks_beat, locks_last, asks_return, asks_decoded, asks_second, asks_first, taken_of, asks_boundary, asks_work, asks_awake, asks};

use crate::doing::{Act, Doing, Work};
use crate::exceptions::RETURN_BEATS;
use crate::kinds::{is_branch, is_breakpoint, is_call, is_pause, is_plain, is_undefined};
use crate::placed::Placed;
use crate::processor::Core;
use crate::returns::{is_misfit, value_at};
use lane_look::{Ask, Look};
use m0_beats::{Beat, Shape, beat_at, shape_beat, shape_is_unaligned, shape_of};
use m0_nvic::numbers::SVCALL;
use rp_base::access::{master_of, word_written};
use rp_base::map::{Spot, place};
use rp_base::op::Op;
use rp_base::{Request, Why};
use thumb_rows::{decode, is_long};

/// An address of SRAM. Most are in its striped view, which costs one test.
#[inline(always)]
#[tactic(auto, unfolding(crate::specs::Fetch::is_ram, rp_base::specs::Map::place_of))]
fn is_ram(address: u32) -> bool
    ensures { result ≡ is_ram address }
{
    if 0x2000_0000 <= address && address <= 0x2003_ffff {
        return true;
    }
    matches!(place(address), Spot::Ram { .. })
}

/// The halfword of an answer.
fn half_of(answer: u128) -> u16
    ensures { result ≡ answer % 2 ^ 16 }
{
    (answer % 0x1_0000) as u16
}

/// The word of an answer.
fn word_of(answer: u128) -> u32
    ensures { result ≡ answer % 2 ^ 32 }
{
    (answer % 0x1_0000_0000) as u32
}

/// An access to SRAM; a read asks for its word.
#[inline(always)]
fn begin_ram<K: Look>(work: &Work, access: &Placed, look: &mut K, act: &mut Act)
    ensures { Runs K.answers look.old (in_ram work.now access.now access.now.write) act.new look.new }
{
    let request = *access.request();
    match request.write {
        None => {
            let answer = look.ask(Ask::Word(request.address));
            *act = Act::Read(*work, *access, word_of(answer));
        }
        Some(_) => *act = Act::Write(*work, *access),
    }
}

impl Core {
    /// The beat that is next.
    #[tactic(auto, unfolding(crate::specs::Fetch::beat_of))]
    fn beat(&self, op: &Op) -> Beat
        ensures { result ≡ beat_of op.now self.now }
    {
        beat_at(op, &self.regs, self.beats_done).unwrap_or(Beat::Inner)
    }

    /// The next beat of what is in progress.
    fn beat_of_work(&self, work: &Work) -> Beat
        ensures { result ≡ beat_of_work work.now self.now }
    {
        match *work {
            Work::Instruction(op) => self.beat(&op),
            Work::Entry(number) => self.entry_beat(number),
            Work::Return(value) => self.return_beat(value),
        }
    }

    /// An access to the private bus, or the stop at it.
    fn begin_private(&self, work: &Work, request: Request, offset: u16, act: &mut Act)
        ensures { Ready act.new ≡ in_private work.now request offset self.now }
    {
        if self.nvic.allows(offset, word_written(&request)) {
            *act = Act::Private(*work, request, offset);
        } else {
            *act = self.outside(request.address);
        }
    }

    /// An access, by the spot that it goes to.
    #[inline(always)]
    fn begin_placed<K: Look>(&self, work: &Work, access: &Placed, look: &mut K, act: &mut Act)
        ensures { Runs K.answers look.old
            (at_spot work.now access.now self.now (place_of access.now.address)) act.new look.new }
    {
        match *access.spot() {
            Spot::Ram { .. } => begin_ram(work, access, look, act),
            Spot::Ppb { offset } => self.begin_private(work, *access.request(), offset, act),
            Spot::Reg { .. } | Spot::Sio { .. } | Spot::Outside => {
                *act = Act::Outward(*work, *access);
            }
        }
    }

    /// A beat, which is inside the core or an access.
    #[inline(always)]
    fn begin_as<K: Look>(&self, work: &Work, beat: Beat, look: &mut K, act: &mut Act)
        ensures { Runs K.answers look.old (in_beat work.now self.now beat) act.new look.new }
    {
        match beat {
            Beat::Inner => *act = Act::Inner(*work),
            Beat::Access(request) => self.begin_placed(work, &Placed::new(request), look, act),
        }
    }

    /// The beat that is next.
    #[inline(always)]
    #[tactic(auto, unfolding(crate::specs::Fetch::asks_beat))]
    fn begin_beat<K: Look>(&self, work: &Work, look: &mut K, act: &mut Act)
        ensures { Runs K.answers look.old (asks_beat work.now self.now) act.new look.new }
    {
        self.begin_as(work, self.beat_of_work(work), look, act);
    }

    /// The execution priority is -1 or lower.
    #[tactic(auto, unfolding(crate::specs::Fetch::is_locked))]
    fn is_locked(&self) -> bool
        ensures { result ≡ is_locked self.now }
    {
        self.nvic.priority(self.regs.primask) < 0
    }

    /// A fault, or the stop at it.
    fn begin_fault(&self) -> Act
        ensures { Ready result ≡ asks_fault self.now }
    {
        if self.is_locked() {
            Act::Stopped(Why::Lockup(self.number()))
        } else {
            Act::Fault
        }
    }

    /// SVC has an exception that can be taken at once.
    #[tactic(auto, unfolding(crate::specs::Fetch::is_callable))]
    fn is_callable(&self) -> bool
        ensures { result ≡ is_callable self.now }
    {
        self.nvic.rank(SVCALL) < self.nvic.priority(self.regs.primask)
    }

    /// The instruction of these beats faults.
    #[inline(always)]
    #[tactic(auto, using(crate::proofs::Shapes::unaligned))]
    fn is_faulty(&self, op: &Op, shape: &Shape) -> bool
        requires { beats_of_shape shape.now self.now.regs ≡ beats_of op.now self.now.regs }
        ensures { result ≡ is_faulty op.now self.now }
    {
        is_undefined(op)
            || !self.regs.t
            || shape_is_unaligned(shape, &self.regs)
            || is_call(op) && !self.is_callable()
    }

    /// The last beat of a return faults, and the core is locked up by it.
    fn locks_last(&self, value: u32) -> bool
        ensures { result ≡ locks_last value self.now }
    {
        self.beats_done == RETURN_BEATS - 1
            && is_misfit(value, value_at(self.read.as_slice(), 7))
            && self.is_locked()
    }

    /// The next beat of a return.
    #[tactic(auto, unfolding(crate::specs::Fetch::asks_return))]
    fn begin_return<K: Look>(&self, value: u32, look: &mut K, act: &mut Act)
        ensures { Runs K.answers look.old (asks_return value self.now) act.new look.new }
    {
        if self.beats_done == 0 && self.is_bad(value) {
            *act = self.begin_fault();
        } else if self.locks_last(value) {
            *act = Act::Stopped(Why::Lockup(self.number()));
        } else {
            self.begin_beat(&Work::Return(value), look, act);
        }
    }

    /// The next beat of an instruction of these beats.
    #[inline(always)]
    #[tactic(auto, unfolding(crate::specs::Fetch::asks_beat, crate::specs::Fetch::beat_of))]
    fn begin_shape<K: Look>(&self, op: Op, shape: &Shape, look: &mut K, act: &mut Act)
        requires { beats_of_shape shape.now self.now.regs ≡ beats_of op self.now.regs }
        ensures { Runs K.answers look.old (asks_beat (Work.Instruction op) self.now) act.new
            look.new }
    {
        let beat = shape_beat(shape, &self.regs, self.beats_done).unwrap_or(Beat::Inner);
        self.begin_as(&Work::Instruction(op), beat, look, act);
    }

    /// The first beat of an instruction, or the stop at it. Most instructions are plain, which costs one test.
    #[inline(always)]
    #[tactic(auto, using(crate::proofs::Plain::plain_decoded))]
    fn begin_decoded<K: Look>(&self, op: Op, look: &mut K, act: &mut Act)
        ensures { Runs K.answers look.old (asks_decoded op self.now) act.new look.new }
    {
        if self.regs.t && is_plain(&op) {
            *act = Act::Inner(Work::Instruction(op));
            return;
        }
        self.begin_other(op, look, act);
    }

    /// The same of an instruction that may stop, fault or access.
    #[inline(never)]
    #[tactic(auto, unfolding(crate::specs::Fetch::asks_decoded))]
    fn begin_other<K: Look>(&self, op: Op, look: &mut K, act: &mut Act)
        ensures { Runs K.answers look.old (asks_decoded op self.now) act.new look.new }
    {
        if is_breakpoint(&op) {
            *act = Act::Stopped(Why::Bkpt(self.number()));
            return;
        }
        let shape = shape_of(&op, &self.regs);
        if self.is_faulty(&op, &shape) {
            *act = self.begin_fault();
        } else {
            self.begin_shape(op, &shape, look, act);
        }
    }

    /// A fetch outside SRAM.
    fn outside(&self, address: u32) -> Act
        ensures { result ≡ Act.Stopped (Why.Outside (master_of self.now.number) address) }
    {
        Act::Stopped(Why::Outside(master_of(self.number()), address))
    }

    /// An instruction whose first halfword is this.
    #[inline(always)]
    #[tactic(auto, unfolding(crate::specs::Fetch::asks_second))]
    fn begin_second_half<K: Look>(&self, first: u16, look: &mut K, act: &mut Act)
        ensures { Runs K.answers look.old (asks_second first self.now) act.new look.new }
    {
        if !is_long(first) {
            self.begin_decoded(decode(first, 0), look, act);
            return;
        }
        let address = self.regs.pc.wrapping_add(2);
        if !is_ram(address) {
            *act = self.outside(address);
            return;
        }
        let answer = look.ask(Ask::Half(address));
        self.begin_decoded(decode(first, half_of(answer)), look, act);
    }

    /// The next instruction.
    #[inline(always)]
    #[tactic(auto, unfolding(crate::specs::Fetch::asks_first))]
    fn begin_first_half<K: Look>(&self, look: &mut K, act: &mut Act)
        ensures { Runs K.answers look.old (asks_first self.now) act.new look.new }
    {
        let address = self.regs.pc;
        if !is_ram(address) {
            *act = self.outside(address);
            return;
        }
        let answer = look.ask(Ask::Half(address));
        self.begin_second_half(half_of(answer), look, act);
    }

    /// The exception that is taken.
    #[inline(always)]
    #[tactic(auto, unfolding(crate::specs::Fetch::taken_of))]
    fn taken(&self) -> Option<u8>
        ensures { result ≡ taken_of self.now }
    {
        match self.nvic.best() {
            Some(number) if self.nvic.rank(number) < self.nvic.priority(self.regs.primask) => Some(
                number,
            ),
            _ => None,
        }
    }

    /// The first beat of the entry to an exception.
    #[inline(never)]
    fn begin_entry<K: Look>(&self, number: u8, look: &mut K, act: &mut Act)
        ensures { Runs K.answers look.old (asks_beat (Work.Entry number) self.now) act.new
            look.new }
    {
        self.begin_beat(&Work::Entry(number), look, act);
    }

    /// The entry to an exception, or the next instruction.
    #[inline(always)]
    #[tactic(auto, unfolding(crate::specs::Fetch::asks_boundary))]
    fn begin_boundary<K: Look>(&self, look: &mut K, act: &mut Act)
        ensures { Runs K.answers look.old (asks_boundary self.now) act.new look.new }
    {
        match self.taken() {
            None => self.begin_first_half(look, act),
            Some(number) => self.begin_entry(number, look, act),
        }
    }

    /// The next beat of what is in progress. All beats of a branch by an offset, of WFI and of WFE are inside the core.
    #[inline(always)]
    #[tactic(auto, using(crate::proofs::Plain::branch_begins, crate::proofs::Plain::pause_begins))]
    fn begin_work<K: Look>(&self, work: &Work, look: &mut K, act: &mut Act)
        requires { self.now.work ≡ Some work.now }
        ensures { Runs K.answers look.old (asks_work work.now self.now) act.new look.new }
    {
        match work {
            Work::Instruction(op) if is_branch(op) => *act = Act::Inner(*work),
            Work::Instruction(op) if is_pause(op) => *act = Act::Inner(*work),
            Work::Instruction(_) if self.is_kept => self.begin_placed(work, &self.kept, look, act),
            Work::Instruction(_) | Work::Entry(_) => self.begin_beat(work, look, act),
            Work::Return(value) => self.begin_return(*value, look, act),
        }
    }

    /// The next beat of what is in progress, or what a boundary begins.
    #[inline(always)]
    #[tactic(auto, unfolding(crate::specs::Fetch::asks_awake))]
    fn begin_awake<K: Look>(&self, look: &mut K, act: &mut Act)
        ensures { Runs K.answers look.old (asks_awake self.now) act.new look.new }
    {
        match &self.work {
            None => self.begin_boundary(look, act),
            Some(work) => self.begin_work(work, look, act),
        }
    }

    /// The address of the instruction that the core begins in the coming cycle, which is the one whose first halfword it fetches then.
    /// It begins none where it is asleep, where a beat of something in progress is next, where it takes an exception, and where it stops
    /// because PC is outside SRAM.
    #[inline(always)]
    #[tactic(auto, unfolding(crate::specs::Begins::begins))]
    pub fn begins(&self) -> Option<u32>
        ensures { result ≡ begins self.now }
    {
        let is_between = !self.is_asleep() && self.work.is_none();
        if is_between && self.taken().is_none() && is_ram(self.regs.pc) {
            Some(self.regs.pc)
        } else {
            None
        }
    }

    /// What the core begins in a cycle, in the place of what it began before.
    #[inline(always)]
    #[tactic(auto, unfolding(crate::specs::Fetch::asks), using(crate::proofs::Carrying::carrying))]
    pub fn begin_into<K: Look>(&self, cycle: u64, look: &mut K, begun: &mut Doing)
        ensures { Runs K.answers look.old (asks self.now cycle) begun.new look.new }
    {
        begun.cycle = cycle;
        if self.is_asleep() {
            begun.act = Act::Asleep;
            begun.lines = 0;
        } else {
            begun.lines = word_of(look.ask(Ask::Lines));
            self.begin_awake(look, &mut begun.act);
        }
    }

    /// What the core begins in a cycle, in the place of what it began before, as `begin_into`, where the look would answer these
    /// interrupt lines (line 0 in bit 0), which were found before: it is not asked for them.
    #[inline(always)]
    #[tactic(auto, unfolding(crate::specs::Fetch::asks), using(crate::proofs::Carrying::carrying))]
    pub fn begin_told<K: Look>(&self, cycle: u64, lines: u32, look: &mut K, begun: &mut Doing)
        requires { K.answers look.old Lines lines look.old }
        ensures { Runs K.answers look.old (asks self.now cycle) begun.new look.new }
    {
        begun.cycle = cycle;
        if self.is_asleep() {
            begun.act = Act::Asleep;
            begun.lines = 0;
        } else {
            begun.lines = lines;
            self.begin_awake(look, &mut begun.act);
        }
    }
}

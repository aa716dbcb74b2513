//! What the start of a window answers each lane, while the machine goes on; and looks that compare it with what the machine answers.

ghost use Rattle.std.specs.Prelude.{◌≡◌, ◌&&◌, false, not};
ghost use Rattle.lane_look.specs.Asking.{Runs};
ghost use Rattle.lane_look.specs.Replay.{asked};
ghost use Rattle.lane_look.specs.Alone.{differs};
ghost use Rattle.dma_engine.specs.Asks as dma;
ghost use Rattle.m0_core.specs.Fetch.{asks};
ghost use Rattle.outer_lane.specs.Step as outer;
ghost use Rattle.rp_machine.specs.Answers.{answer_of, lines_of};
ghost use Rattle.window_merge.specs.Notes.{seen_of};
ghost use Rattle.rp_machine.specs.Cycle.{begun};
ghost use Rattle.window_merge.specs.Start.{guess, matched, IsBegun, differs_from};

use crate::copies::half_of;
use crate::notes::Notes;
use dma_engine::BegunTransfer;
use lane_look::{Ask, Device, Lane, Look};
use m0_core::{Act, Core, Doing};
use outer_lane::{SeenOutputs, World};
use rp_base::map::{Spot, place};
use rp_machine::Machine;
use rp_machine::begun::Begun;

/// What the state at the start of a window answers, but for words of SRAM.
#[derive(Clone, Copy, PartialEq, Eq)]
pub(crate) struct Start {
    /// The interrupt lines of core 0.
    lines0: u128,
    /// The interrupt lines of core 1.
    lines1: u128,
    /// The counts that pace DMA channels, six bits each.
    pacing: u128,
    /// The input words.
    inputs: u128,
    /// What PIO block 0 puts out.
    pio0: u128,
    /// What PIO block 1 puts out.
    pio1: u128,
}

impl Start {
    ghost use Rattle.std.specs.Prelude.{◌≡◌, true};
    ghost use Rattle.window_merge.specs.Start.{start_of};

    /// What a machine answers now.
    #[inline(never)]
    pub(crate) fn of(machine: &Machine) -> Start
        ensures { result ≡ start_of machine.now }
    {
        Start {
            lines0: machine.answer(0, Ask::Lines),
            lines1: machine.answer(1, Ask::Lines),
            pacing: machine.answer(2, Ask::Pacing),
            inputs: machine.answer(3, Ask::Inputs),
            pio0: machine.answer(5, Ask::Outs(0)),
            pio1: machine.answer(5, Ask::Outs(1)),
        }
    }

    /// A machine answers the same now.
    pub(crate) fn is_of(&self, machine: &Machine) -> bool
        ensures { result ≡ true → self.now ≡ start_of machine.now }
    {
        *self == Start::of(machine)
    }
}

/// Answers a lane as the machine does, and keeps whether the start of the window would have answered each question so.
#[derive(Drop)]
pub(crate) struct Matcher<'a> {
    machine: &'a Machine,
    lane: u8,
    start: &'a Start,
    notes: &'a Notes,
    same: bool,
}

impl Matcher<'_> {
    ghost use Rattle.std.specs.Prelude.{◌≡◌, nat_eq};
    ghost use Rattle.rp_base.specs.Map.{place_of};
    ghost use Rattle.rp_machine.specs.Answers.{answer_of};
    ghost use Rattle.window_merge.specs.Notes.{seen_of};
    ghost use Rattle.window_merge.specs.Start.{word_by, guessed};

    /// The word of SRAM that holds an address as the lane sees it, 0 where there is none.
    fn word(&self, address: u32) -> u32
        ensures { result ≡ word_by (seen_of self.now.lane self.now.notes.now
            self.now.machine.now.sram) (place_of address) }
    {
        let machine: &Machine = self.machine;
        match place(address) {
            Spot::Ram { index, .. } => self.notes.seen(&machine.ram, self.lane, index),
            Spot::Reg { .. } | Spot::Sio { .. } | Spot::Ppb { .. } | Spot::Outside => 0,
        }
    }

    /// What the start answers.
    #[inline(always)]
    fn guess(&self, ask: Ask) -> u128
        ensures { result ≡ guessed self.now ask }
    {
        match ask {
            Ask::Lines => {
                if self.lane == 0 {
                    self.start.lines0
                } else {
                    self.start.lines1
                }
            }
            Ask::Half(address) => u128::from(half_of(self.word(address), address)),
            Ask::Word(address) => u128::from(self.word(address)),
            Ask::Pacing => self.start.pacing,
            Ask::Inputs => self.start.inputs,
            Ask::Outs(block) => {
                if block == 0 {
                    self.start.pio0
                } else {
                    self.start.pio1
                }
            }
        }
    }

    /// The start answers as the machine does. Where no other lane wrote, the lane sees the machine's SRAM.
    #[inline(always)]
    fn matches(&self, ask: Ask, answer: u128) -> bool
        requires { answer ≡ answer_of self.now.lane self.now.machine.now ask }
        ensures { result ≡ nat_eq (guessed self.now ask) answer }
    {
        match ask {
            Ask::Half(_) | Ask::Word(_) if self.notes.is_clean(self.lane) => true,
            _ => self.guess(ask) == answer,
        }
    }
}

impl Look for Matcher<'_> {
    ghost use Rattle.window_merge.specs.Start.{matched};

    ghost answers = { matched };

    #[inline(always)]
    fn ask(&mut self, ask: Ask) -> u128 {
        let answer = self.machine.answer(self.lane, ask);
        if !self.matches(ask, answer) {
            self.same = false;
        }
        answer
    }
}

/// Begins the cycle of a lane of that number, and compares each answer with that of the start: `same` stays where each is.
#[inline(always)]
#[tactic(auto, using(crate::proofs::Starting::runs_match))]
fn begin_by<E, S: Lane<E>>(
    lane: &S,
    env: &E,
    number: u8,
    machine: &Machine,
    start: &Start,
    notes: &Notes,
    same: &mut bool,
) -> S::Begun
    ensures { IsBegun number start.now notes.now machine.now
        (S.asks env.now lane.now machine.now.cycle) same.old result same.new }
{
    let mut look = Matcher {
        machine,
        lane: number,
        start,
        notes,
        same: *same,
    };
    let begun = lane.begin(env, machine.at, &mut look);
    *same = look.same;
    begun
}

/// Begins the cycle of a core by a look that it asks for its interrupt lines.
#[inline(never)]
fn begin_asked(core: &Core, cycle: u64, look: &mut Matcher<'_>, begun: &mut Doing)
    ensures { Runs matched look.old (asks core.now cycle) begun.new look.new }
{
    core.begin_into(cycle, look, begun);
}

/// Begins the cycle of a core by a look. Most often the start of the window would have answered it the interrupt lines that it has
/// now, and it is told them.
#[inline(always)]
fn begin_matched(core: &Core, cycle: u64, lines: u32, look: &mut Matcher<'_>, begun: &mut Doing)
    requires { lines ≡ lines_of look.old.lane look.old.machine.now }
    ensures { Runs matched look.old (asks core.now cycle) begun.new look.new }
{
    if look.guess(Ask::Lines) == u128::from(lines) {
        core.begin_told(cycle, lines, look, begun);
    } else {
        begin_asked(core, cycle, look, begun);
    }
}

/// Begins the cycle of a core of that number so, in the place of what it began before.
#[inline(always)]
#[tactic(auto, using(crate::proofs::Starting::runs_match))]
fn begin_core(
    core: &Core,
    number: u8,
    machine: &Machine,
    start: &Start,
    notes: &Notes,
    begun: &mut Doing,
    same: &mut bool,
)
    ensures { IsBegun number start.now notes.now machine.now (asks core.now machine.now.cycle)
        same.old begun.new same.new }
{
    let mut look = Matcher {
        machine,
        lane: number,
        start,
        notes,
        same: *same,
    };
    begin_matched(core, machine.at, machine.lines(number), &mut look, begun);
    *same = look.same;
}

/// Begins the cycle of the DMA engine so, in the place of what it began before.
#[inline(always)]
#[tactic(auto, using(crate::proofs::Starting::runs_match))]
fn begin_dma(
    machine: &Machine,
    start: &Start,
    notes: &Notes,
    begun: &mut BegunTransfer,
    same: &mut bool,
)
    ensures { IsBegun 2 start.now notes.now machine.now (dma.asks machine.now.dma.block) same.old
        begun.new same.new }
{
    let mut look = Matcher {
        machine,
        lane: 2,
        start,
        notes,
        same: *same,
    };
    machine.dma.block.begin_into(&mut look, begun);
    *same = look.same;
}

/// Begins the cycle of core 1 so. While it sleeps it asks nothing.
#[inline(always)]
#[tactic(auto, unfolding(rp_machine::specs::Cycle::begun, m0_core::specs::Fetch::asks))]
fn begin_core1(machine: &Machine, start: &Start, notes: &Notes, core1: &mut Doing, same: &mut bool)
    ensures begun { core1.new ≡ (begun machine.now).core1 }
    ensures same { same.new ≡ (same.old && not (differs
        (answer_of 1 machine.now)
        (asked (guess 1 start.now (seen_of 1 notes.now machine.now.sram))
        (asks machine.now.core1 machine.now.cycle)))) }
{
    if machine.core1.is_asleep() {
        core1.act = Act::Asleep;
        core1.lines = 0;
        core1.cycle = machine.at;
    } else {
        begin_core(&machine.core1, 1, machine, start, notes, core1, same);
    }
}

/// Begins the cycle of the peripherals so.
#[inline(always)]
#[tactic(auto, using(crate::proofs::Starting::runs_match))]
fn begin_outer<X: Device>(
    machine: &Machine,
    world: &World<'_, X>,
    start: &Start,
    notes: &Notes,
    seen: &mut SeenOutputs,
    same: &mut bool,
)
    ensures { IsBegun 5 start.now notes.now machine.now
        (outer.asks machine.now.outer machine.now.cycle) same.old seen.new same.new }
{
    let mut look = Matcher {
        machine,
        lane: 5,
        start,
        notes,
        same: *same,
    };
    *seen = machine.outer.begin(world, machine.at, &mut look);
    *same = look.same;
}

/// Begins the cycle of all lanes, in the place of what they began before, and says whether each answer is that of the start. In the first
/// cycle of a window this is so, and they have begun.
#[inline(always)]
#[tactic(auto, unfolding(rp_machine::specs::Cycle::begun))]
pub(crate) fn begin_later<X: Device>(
    machine: &Machine,
    world: &World<'_, X>,
    start: &Start,
    notes: &Notes,
    k: u16,
    lanes: &mut Begun,
) -> bool
    requires first { k ≡ 0 → lanes.old ≡ begun machine.now }
    requires same { k ≡ 0 → differs_from start.now notes.now machine.now ≡ false }
    ensures begun { lanes.new ≡ begun machine.now }
    ensures same { result ≡ not (differs_from start.now notes.now machine.now) }
{
    if k == 0 {
        return true;
    }
    let mut same = true;
    let core0 = &mut lanes.core0;
    begin_core(&machine.core0, 0, machine, start, notes, core0, &mut same);
    begin_core1(machine, start, notes, &mut lanes.core1, &mut same);
    begin_dma(machine, start, notes, &mut lanes.dma, &mut same);
    lanes.pio0 = begin_by(
        &machine.pio0.block,
        &(),
        3,
        machine,
        start,
        notes,
        &mut same,
    );
    lanes.pio1 = begin_by(
        &machine.pio1.block,
        &(),
        4,
        machine,
        start,
        notes,
        &mut same,
    );
    begin_outer(machine, world, start, notes, &mut lanes.outer, &mut same);
    same
}

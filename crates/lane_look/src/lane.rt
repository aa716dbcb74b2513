//! Questions, wants and turns, and the two traits.

ghost use Rattle.std.specs.Prelude.{◌≡◌, ◌++◌, ◌<◌, ◌≤◌, ℕ, List, length, Option, IsSome};
ghost use Rattle.std.specs.Option.{option_to_list};
ghost use Rattle.lane_look.specs.Asking.{Asking, AsksAtMost, Runs};
ghost use Rattle.lane_look.specs.Steps.{without_words};
ghost use Rattle.lane_look.specs.declared.lane.Ask.{Ask};
ghost use Rattle.lane_look.specs.declared.lane.Want.{Want};
ghost use Rattle.lane_look.specs.declared.lane.Turn.{Turn};
ghost use Rattle.lane_look.specs.declared.marks.Mark.{Mark};

use crate::marks::Marks;
use rp_base::{Request, Why};

/// One question of a lane about the state at the start of a cycle.
#[derive(Clone, Copy, PartialEq, Eq)]
pub enum Ask {
    /// The core's 32 interrupt lines.
    Lines,
    /// The halfword at an address of SRAM.
    Half(u32),
    /// The word that holds an address of SRAM.
    Word(u32),
    /// The counts by which DMA channels are paced.
    Pacing,
    /// The two input words of a PIO block.
    Inputs,
    /// The outputs of the PIO block of that number.
    Outs(u8),
}

/// What answers a lane's questions.
pub trait Look {
    /// What stands between the look before, the question, the answer and the look after.
    ghost answers: { Self → Ask → ℕ → Self → Type 0 };

    /// Answers one question.
    fn ask(&mut self, ask: Ask) -> u128
        ensures { answers self.old ask result self.new };
}

/// What a lane wants of the rest of the machine in a cycle.
#[derive(Clone, Copy, PartialEq, Eq)]
pub enum Want {
    /// Nothing.
    Nothing,
    /// An access to SRAM.
    Ram(Request),
    /// An access outside the lane that is not to SRAM.
    Outward(Request),
    /// That the event registers of both cores are set.
    Signal,
    /// That the machine stops before this cycle.
    Stopped(Why),
}

/// What the bus gave a lane in a cycle.
#[derive(Clone, Copy, PartialEq, Eq)]
pub enum Turn {
    /// Nothing was asked for.
    Nothing,
    /// The access waits.
    Wait,
    /// The access is done. The word is that of a read outside SRAM; a read of SRAM has the word that the lane was told
    /// when it asked, and a write has none.
    Done(u32),
}

/// A part of the machine that steps by itself: by the answers to its questions, and by what the bus gives it. `E` is what
/// the lane steps in, which no cycle changes.
pub trait Lane<E> {
    /// What a lane has begun in a cycle, once its questions are answered.
    type Begun: Drop;

    /// What the lane asks in that cycle, and what it has begun then: environment, state, cycle and answers determine it.
    ghost asks: { E → Self → ℕ → Asking Self.Begun };

    /// How many questions it asks in a cycle at most.
    ghost most: { ℕ };

    /// The two wants of what was begun.
    ghost wanted: { Self.Begun → List Want };

    /// The lane after the cycle.
    ghost next: { E → Self → Self.Begun → List Turn → Self };

    /// The mark that the cycle leaves, if it leaves one.
    ghost marked: { E → Self → Self.Begun → List Turn → Option Mark };

    /// Asks, and begins the cycle of that number.
    fn begin<K: Look>(&self, env: &E, cycle: u64, look: &mut K) -> Self::Begun
        ensures { Runs K.answers look.old (asks env.now self.now cycle) result look.new };

    /// What the lane wants: a core and a peripheral have at most one want, the DMA engine a read and a write.
    fn wants(begun: &Self::Begun) -> [Want; 2]
        ensures { result ≡ wanted begun.now };

    /// Ends the cycle by what was given for the two wants. A mark goes to the end of the marks.
    fn finish(&mut self, env: &E, begun: &Self::Begun, turns: [Turn; 2], marks: &mut Marks)
        requires { IsSome (marked env.now self.old begun.now turns) → length marks.old < 256 }
        ensures state { self.new ≡ next env.now self.old begun.now turns }
        ensures marks { marks.new ≡ marks.old
            ++ option_to_list (marked env.now self.old begun.now turns) };

    /// Takes the state of another lane.
    fn copy_from(&mut self, other: &Self)
        ensures { self.new ≡ other.now };

    /// A log of 256 cycles has room for 8 questions in each.
    ghost few: { most ≤ 8 };

    /// Whatever the answers are, it asks no more.
    ghost asks_at_most: { (env : E) (state : Self) (cycle : ℕ)
        → AsksAtMost most (asks env state cycle) };

    /// The step reads no word of the turn of an access to SRAM.
    ghost reads_no_word: { (env : E) (state : Self) (begun : Self.Begun) (turns : List Turn)
        → next env state begun (without_words (wanted begun) turns) ≡ next env state begun turns };
}

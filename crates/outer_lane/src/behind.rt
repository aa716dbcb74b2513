//! The timer and the UARTs lie behind: as long as they are quiet, a cycle of them is only counted.

use crate::blocks::{Blocks, word};
use io_bank::uart_outputs;
use rp_base::map::Block;
use rp_base::resettable::unless_held;
use rp_timer::Timer;
use std::marker::Model;

/// The timer and the UARTs as they were some cycles ago, and since then quiet. Contracts see them brought up to now.
#[derive(Drop)]
pub struct Behind {
    pub(crate) blocks: Blocks,
    // the levels that the UARTs hear
    line0: bool,
    line1: bool,
    span: Span,
}

/// The number of the first cycle that they lie behind, how many cycles these are, for how many from the first one on they are
/// quiet, and their interrupt lines.
#[derive(Clone, Copy)]
pub struct Span {
    pub(crate) first: u64,
    pub(crate) count: u64,
    pub(crate) quiet: u64,
    pub(crate) lines: u32,
}

impl Model for Behind {
    ghost use Rattle.std.specs.Prelude.{◌≡◌, ◌≤◌, ◌<◌, ◌+◌, ◌^◌};
    ghost use Rattle.outer_lane.specs.BroughtUp.{Told, blocks_after, blocks_lines, AreBlocksQuiet};

    ghost Value = { Told };

    ghost view = { λ b. record {
      blocks = blocks_after b.line0 b.line1 b.span.first b.span.count b.blocks;
      line0 = b.line0;
      line1 = b.line1;
    } };

    ghost invariant = { λ b. (b.span.count ≤ b.span.quiet) × ((b.span.first + b.span.quiet < 2 ^ 64)
        × (AreBlocksQuiet b.line0 b.line1 b.blocks b.span.first b.span.quiet × (b.span.lines ≡ blocks_lines b.blocks))) };
}

impl Behind {
    ghost use Rattle.std.specs.Prelude.{◌≡◌, ◌+◌, ◌<◌, ◌^◌, ◌∷◌, ◌++◌, [], true, false, None, Decides};
    ghost use Rattle.rp_base.specs.Held.{unless_held};
    ghost use Rattle.rp_timer.specs.Words.{word_of};
    ghost use Rattle.rp_uart.specs.Step.{pacing_of};
    ghost use Rattle.outer_lane.specs.BroughtUp.{told_at_start, told_step, told_after, blocks_outs, blocks_lines, blocks_word, blocks_pure, blocks_accessed, blocks_reset, AreBlocksQuiet};
    ghost use Rattle.outer_lane.specs.Step.{byte_of};

    /// Before the first cycle: each is at reset and none is held, and the lines are high.
    #[tactic(auto, unfolding(lane_look::specs::Times::times))]
    pub(crate) fn new() -> Behind
        ensures { result ≡ told_at_start }
    {
        let blocks = Blocks::new();
        let span = blocks.span(true, true, 0);
        Behind {
            blocks,
            line0: true,
            line1: true,
            span,
        }
    }

    /// One cycle, where they are known to be quiet in it; whether they are.
    #[inline(always)]
    #[tactic(auto, using(crate::proofs::BroughtUp::next_one))]
    pub(crate) fn go_on(&mut self, cycle: u64) -> bool
        ensures after { result ≡ true → self.new ≡ told_step cycle self.old }
        ensures byte0 { result ≡ true → byte_of self.old.blocks.uart0 ≡ None }
        ensures byte1 { result ≡ true → byte_of self.old.blocks.uart1 ≡ None }
        ensures outs { result ≡ true → blocks_outs self.new.blocks ≡ blocks_outs self.old.blocks }
        ensures same { result ≡ false → self.new ≡ self.old }
    {
        if self.span.count < self.span.quiet && cycle == self.span.first + self.span.count {
            self.span.count += 1;
            return true;
        }
        false
    }

    /// One cycle, quiet or not; the bytes whose frames ended.
    #[tactic(auto, unfolding(lane_look::specs::Times::times))]
    pub(crate) fn step(&mut self, cycle: u64) -> [Option<u8>; 2]
        ensures after { self.new ≡ told_step cycle self.old }
        ensures bytes { result ≡ byte_of self.old.blocks.uart0 ∷ byte_of self.old.blocks.uart1 ∷ [] }
    {
        self.blocks
            .pass(self.line0, self.line1, self.span.first, self.span.count);
        let bytes = self.blocks.step(self.line0, self.line1, cycle);
        let next = cycle.saturating_add(1);
        self.span = self.blocks.span(self.line0, self.line1, next);
        bytes
    }

    /// So many cycles from one on. Whether they were known to be quiet in these.
    #[tactic(auto, unfolding(lane_look::specs::Times::times), using(crate::proofs::BroughtUp::from_next))]
    pub(crate) fn pass(&mut self, cycle: u64, n: u64) -> bool
        requires { cycle + n < 2 ^ 64 }
        ensures after { self.new ≡ told_after cycle n self.old }
        ensures outs { result ≡ true → blocks_outs self.new.blocks ≡ blocks_outs self.old.blocks }
    {
        if cycle == self.span.first + self.span.count && n <= self.span.quiet - self.span.count {
            self.span.count += n;
            return true;
        }
        self.blocks
            .pass(self.line0, self.line1, self.span.first, self.span.count);
        self.blocks.pass(self.line0, self.line1, cycle, n);
        self.span = self.blocks.span(self.line0, self.line1, cycle + n);
        false
    }

    /// For so many cycles from this one on each of them is quiet.
    #[inline(always)]
    pub(crate) fn quiet(&self, cycle: u64) -> u64
        ensures { AreBlocksQuiet self.now.line0 self.now.line1 self.now.blocks cycle result }
    {
        if cycle == self.span.first + self.span.count {
            self.span.quiet - self.span.count
        } else {
            0
        }
    }

    /// Takes the levels that the UARTs hear from now on.
    #[inline(always)]
    pub(crate) fn tell(&mut self, line0: bool, line1: bool)
        ensures { self.new ≡ record self.old { line0 = line0; line1 = line1 } }
    {
        if line0 != self.line0 || line1 != self.line1 {
            self.tell_others(line0, line1);
        }
    }

    /// The same, where they are others.
    #[inline(never)]
    #[tactic(auto, unfolding(lane_look::specs::Times::times))]
    fn tell_others(&mut self, line0: bool, line1: bool)
        ensures { self.new ≡ record self.old { line0 = line0; line1 = line1 } }
    {
        self.blocks
            .pass(self.line0, self.line1, self.span.first, self.span.count);
        self.line0 = line0;
        self.line1 = line1;
        let next = self.span.first + self.span.count;
        self.span = self.blocks.span(line0, line1, next);
    }

    /// A read at this offset of one of them changes nothing.
    #[inline(always)]
    pub(crate) fn is_pure_read(&self, block: Block, offset: u16) -> bool
        ensures { result ≡ blocks_pure block offset self.now.blocks }
    {
        match block {
            Block::Uart0 => self.blocks.uart0.block.is_pure_read(offset),
            Block::Uart1 => self.blocks.uart1.block.is_pure_read(offset),
            Block::Timer => Timer::is_pure_read(offset),
            _ => false,
        }
    }

    /// Does what a read, or a write of this word, does to one of them.
    #[tactic(auto, unfolding(lane_look::specs::Times::times))]
    pub(crate) fn access(&mut self, block: Block, offset: u16, write: Option<u32>)
        ensures { self.new ≡ record self.old {
          blocks = blocks_accessed block offset write self.old.blocks;
        } }
    {
        self.blocks
            .pass(self.line0, self.line1, self.span.first, self.span.count);
        self.blocks.access(block, offset, write);
        let next = self.span.first + self.span.count;
        self.span = self.blocks.span(self.line0, self.line1, next);
    }

    /// Takes the bits of RESETS.
    #[tactic(auto, unfolding(lane_look::specs::Times::times))]
    pub(crate) fn reset(&mut self, bits: u32)
        ensures { self.new ≡ record self.old { blocks = blocks_reset bits self.old.blocks } }
    {
        self.blocks
            .pass(self.line0, self.line1, self.span.first, self.span.count);
        self.blocks.reset(bits);
        let next = self.span.first + self.span.count;
        self.span = self.blocks.span(self.line0, self.line1, next);
    }

    /// What a word of one of them reads as. None where there is no such word, or the block is none of them.
    #[tactic(auto, unfolding(crate::specs::Words::own_word))]
    pub(crate) fn read(&self, block: Block, offset: u16) -> Option<u32>
        ensures { result ≡ blocks_word block offset self.now.blocks }
    {
        match block {
            Block::Uart0 => word(&self.blocks.uart0, offset),
            Block::Uart1 => word(&self.blocks.uart1, offset),
            Block::Timer => self.read_timer(offset),
            _ => None,
        }
    }

    /// A word of the timer.
    #[inline(always)]
    #[tactic(auto, using(crate::proofs::Cycles::timer_reads))]
    fn read_timer(&self, offset: u16) -> Option<u32>
        ensures { result ≡ unless_held self.now.blocks.timer.held (word_of offset self.now.blocks.timer.block) }
    {
        let timer = &self.blocks.timer;
        let word = timer
            .block
            .read_after(offset, self.span.first, self.span.count);
        unless_held(timer.held, word)
    }

    /// Their interrupt lines.
    #[inline(always)]
    pub(crate) fn lines(&self) -> u32
        ensures { result ≡ blocks_lines self.now.blocks }
    {
        self.span.lines
    }

    /// The counts that pace DMA channels, those of UART0 first.
    #[inline(always)]
    pub(crate) fn pacing(&self) -> [u8; 4]
        ensures { result ≡ pacing_of self.now.blocks.uart0.block
            ++ pacing_of self.now.blocks.uart1.block }
    {
        let [free0, words0] = self.blocks.uart0.block.pacing();
        let [free1, words1] = self.blocks.uart1.block.pacing();
        [free0, words0, free1, words1]
    }

    /// What the UARTs put out, by pin: levels and enables.
    #[inline(always)]
    pub(crate) fn outs(&self) -> [u32; 2]
        ensures { result ≡ blocks_outs self.now.blocks }
    {
        uart_outputs(self.blocks.uart0.block.out(), self.blocks.uart1.block.out())
    }

    /// A copy of them that is brought up.
    fn brought_up(&self) -> Blocks
        ensures { result ≡ self.now.blocks }
    {
        let mut blocks = Blocks::new();
        blocks.copy_from(&self.blocks);
        blocks.pass(self.line0, self.line1, self.span.first, self.span.count);
        blocks
    }

    /// Both are in the same state, whatever they are told.
    pub(crate) fn is_same(&self, other: &Behind) -> bool
        ensures { Decides result (self.now.blocks ≡ other.now.blocks) }
    {
        let blocks = self.brought_up();
        blocks.is_same(&other.brought_up())
    }

    /// Takes the state of others.
    pub(crate) fn copy_from(&mut self, other: &Behind)
        ensures { self.new ≡ other.now }
    {
        self.blocks.copy_from(&other.blocks);
        self.line0 = other.line0;
        self.line1 = other.line1;
        self.span = other.span;
    }
}

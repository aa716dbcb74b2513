//! The timer and both UARTs, which have nothing to do with each other.

ghost use Rattle.std.specs.Prelude.{◌≡◌, ◌+◌, ◌<◌, ◌^◌, false};
ghost use Rattle.rp_base.specs.Held.{unless_held};
ghost use Rattle.rp_base.specs.Resettable.{unless_held_becomes};
ghost use Rattle.lane_look.specs.Times.{times};
ghost use Rattle.outer_lane.specs.Quiet.{IsTimerQuiet, IsUartQuiet, uart_cycle};
ghost use Rattle.outer_lane.specs.Lines.{block_lines};
ghost use Rattle.outer_lane.specs.Step.{byte_of, timer_after, uart_after};

use crate::behind::Span;
use rp_base::bits::has_bit;
use rp_base::map::Block;
use rp_base::resets::{TIMER, UART0, UART1};
use rp_base::{Registers, Resettable};
use rp_timer::Timer;
use rp_uart::Uart;

/// The timer and both UARTs, each beside its bit of RESETS. A block that is held does not step, reads 0 and ignores accesses.
#[derive(Drop)]
pub struct Blocks {
    pub timer: Resettable<Timer>,
    pub uart0: Resettable<Uart>,
    pub uart1: Resettable<Uart>,
}

impl Blocks {
    ghost use Rattle.std.specs.Prelude.{◌≡◌, ◌+◌, ◌<◌, ◌^◌, ◌∷◌, [], Decides};
    ghost use Rattle.outer_lane.specs.BroughtUp.{blocks_at_start, blocks_step, blocks_after, blocks_lines, blocks_accessed, blocks_reset, AreBlocksQuiet};
    ghost use Rattle.outer_lane.specs.Step.{byte_of};

    /// Each is at reset and none is held.
    pub(crate) fn new() -> Blocks
        ensures { result ≡ blocks_at_start }
    {
        Blocks {
            timer: Resettable::new(Timer::new()),
            uart0: Resettable::new(Uart::new()),
            uart1: Resettable::new(Uart::new()),
        }
    }

    /// One cycle, in which the UARTs hear these levels; the bytes whose frames ended.
    pub(crate) fn step(&mut self, line0: bool, line1: bool, cycle: u64) -> [Option<u8>; 2]
        ensures after { self.new ≡ blocks_step line0 line1 cycle self.old }
        ensures bytes { result ≡ byte_of self.old.uart0 ∷ byte_of self.old.uart1 ∷ [] }
    {
        step_timer(&mut self.timer, cycle);
        [
            step_uart(&mut self.uart0, line0),
            step_uart(&mut self.uart1, line1),
        ]
    }

    /// So many cycles from one on, in which the UARTs hear these levels.
    pub(crate) fn pass(&mut self, line0: bool, line1: bool, first: u64, n: u64)
        requires { first + n < 2 ^ 64 }
        ensures { self.new ≡ blocks_after line0 line1 first n self.old }
    {
        pass_timer(&mut self.timer, first, n);
        pass_uart(&mut self.uart0, line0, first, n);
        pass_uart(&mut self.uart1, line1, first, n);
    }

    /// As they are before this cycle: they lie none behind; for so many cycles from it on, which end before the last number of a
    /// cycle, each of them is quiet, where the UARTs hear these levels; and their interrupt lines.
    pub(crate) fn span(&self, line0: bool, line1: bool, first: u64) -> Span
        ensures first { result.first ≡ first }
        ensures count { result.count ≡ 0 }
        ensures quiet { AreBlocksQuiet line0 line1 self.now first result.quiet }
        ensures within { first + result.quiet < 2 ^ 64 }
        ensures lines { result.lines ≡ blocks_lines self.now }
    {
        let timer = timer_quiet(&self.timer, first);
        let uart0 = uart_quiet(&self.uart0, line0, first);
        let uart1 = uart_quiet(&self.uart1, line1, first);
        let uarts = uart0.min(uart1);
        let all = timer.min(uarts);
        let lines = uart_lines(self.uart0.block.line(), self.uart1.block.line());
        Span {
            first,
            count: 0,
            quiet: all.min(u64::MAX - first),
            lines: self.timer.block.lines() | lines,
        }
    }

    /// Does what a read, or a write of this word, does to one of them.
    #[tactic(auto, unfolding(crate::specs::Words::outer_accessed))]
    pub(crate) fn access(&mut self, block: Block, offset: u16, write: Option<u32>)
        ensures { self.new ≡ blocks_accessed block offset write self.old }
    {
        match block {
            Block::Uart0 => access(&mut self.uart0, offset, write),
            Block::Uart1 => access(&mut self.uart1, offset, write),
            Block::Timer => access(&mut self.timer, offset, write),
            _ => {}
        }
    }

    /// Takes the bits of RESETS.
    pub(crate) fn reset(&mut self, bits: u32)
        ensures { self.new ≡ blocks_reset bits self.old }
    {
        self.timer.set_held(has_bit(bits, TIMER));
        self.uart0.set_held(has_bit(bits, UART0));
        self.uart1.set_held(has_bit(bits, UART1));
    }

    /// Both are in the same state.
    pub(crate) fn is_same(&self, other: &Blocks) -> bool
        ensures { Decides result (self.now ≡ other.now) }
    {
        let timer = self.timer.block.is_same(&other.timer.block);
        let uart0 = self.uart0.block.is_same(&other.uart0.block);
        let uart1 = self.uart1.block.is_same(&other.uart1.block);
        timer
            & (self.timer.held == other.timer.held)
            & uart0
            & (self.uart0.held == other.uart0.held)
            & uart1
            & (self.uart1.held == other.uart1.held)
    }

    /// Takes the state of others.
    pub(crate) fn copy_from(&mut self, other: &Blocks)
        ensures { self.new ≡ other.now }
    {
        self.timer.block = other.timer.block;
        self.timer.held = other.timer.held;
        self.uart0.block.copy_from(&other.uart0.block);
        self.uart0.held = other.uart0.held;
        self.uart1.block.copy_from(&other.uart1.block);
        self.uart1.held = other.uart1.held;
    }
}

/// The lines of the UARTs.
#[inline(always)]
#[tactic(auto, unfolding(crate::specs::Lines::block_lines))]
fn uart_lines(first: bool, second: bool) -> u32
    ensures { result ≡ block_lines false first second }
{
    u32::from(first) * 0x10_0000 + u32::from(second) * 0x20_0000
}

/// A UART that hears this level steps unless it is held; the byte whose frame ended.
#[inline(always)]
fn step_uart(uart: &mut Resettable<Uart>, line: bool) -> Option<u8>
    ensures after { uart.new ≡ uart_after line uart.old }
    ensures byte { result ≡ byte_of uart.old }
{
    if uart.held {
        None
    } else {
        uart.block.step(line)
    }
}

/// The timer steps unless it is held.
#[inline(always)]
fn step_timer(timer: &mut Resettable<Timer>, cycle: u64)
    ensures { timer.new ≡ timer_after cycle timer.old }
{
    if !timer.held {
        timer.block.step(cycle);
    }
}

/// For so many cycles from this one on the lines of the timer stay.
#[tactic(auto, using(crate::proofs::Cycles::timer_stays))]
fn timer_quiet(timer: &Resettable<Timer>, cycle: u64) -> u64
    ensures { IsTimerQuiet timer.now cycle result }
{
    if timer.held {
        u64::MAX
    } else {
        timer.block.quiet(cycle)
    }
}

/// So many cycles of the timer from this one on.
#[tactic(auto, using(crate::proofs::Cycles::timer_cycles))]
fn pass_timer(timer: &mut Resettable<Timer>, cycle: u64, n: u64)
    requires { cycle + n < 2 ^ 64 }
    ensures { timer.new ≡ times timer_after cycle n timer.old }
{
    if !timer.held {
        timer.block.pass(cycle, n);
    }
}

/// For so many cycles with this line a UART ends no frame, and shows the same.
#[tactic(auto, using(crate::proofs::Cycles::uart_stays))]
fn uart_quiet(uart: &Resettable<Uart>, line: bool, cycle: u64) -> u64
    ensures { IsUartQuiet line uart.now cycle result }
{
    let _first = cycle;
    if uart.held {
        u64::MAX
    } else {
        uart.block.quiet(line)
    }
}

/// So many cycles of a UART with this line.
#[tactic(auto, using(crate::proofs::Cycles::uart_cycles))]
fn pass_uart(uart: &mut Resettable<Uart>, line: bool, cycle: u64, n: u64)
    ensures { uart.new ≡ times (uart_cycle line) cycle n uart.old }
{
    let _first = cycle;
    if !uart.held {
        uart.block.pass(line, n);
    }
}

/// An access to a block that has its bit of RESETS beside it.
fn access<B: Registers<()>>(block: &mut Resettable<B>, offset: u16, write: Option<u32>)
    ensures { block.new ≡ unless_held_becomes block.old (B.accessed offset write block.old.block) }
{
    let _ = <Resettable<B> as Registers<()>>::effect(block, offset, write);
}

/// A word of such a block.
pub(crate) fn word<B: Registers<()>>(block: &Resettable<B>, offset: u16) -> Option<u32>
    ensures { result ≡ unless_held block.now.held (B.word offset tt block.now.block) }
{
    block.read(&(), offset)
}

//! The return from an exception.

ghost use Rattle.std.specs.Prelude.{◌≡◌, ◌<◌, slice_index, length};
ghost use Rattle.m0_core.specs.Return.{is_to_handler, is_to_process, is_to_thread, is_alone, is_bad, return_frame, unstacking, return_beat, stacked_number, is_misfit, stack_after, with_stack, with_five, with_frame, with_return, after_return, return_ended};

use crate::exceptions::{TO_HANDLER, TO_MAIN, TO_PROCESS};
use crate::processor::Core;
use m0_beats::{Beat, Regs};
use m0_nvic::Nvic;
use m0_nvic::numbers::HARDFAULT;
use rp_base::{Request, Size};

/// The word at an index, 0 past the end.
pub(crate) fn value_at(words: &[u32], index: usize) -> u32
    ensures { result ≡ slice_index words.now index }
{
    if index < words.len() { words[index] } else { 0 }
}

/// The frame of a return.
fn return_frame(value: u32, regs: &Regs) -> u32
    ensures { result ≡ return_frame value regs.now }
{
    if value == TO_PROCESS {
        regs.psp
    } else {
        regs.msp
    }
}

/// The read of a word of the frame.
fn unstacking(value: u32, index: usize, regs: &Regs) -> Beat
    requires { index < 8 }
    ensures { result ≡ unstacking value index regs.now }
{
    Beat::Access(Request {
        address: return_frame(value, regs).wrapping_add(4 * index as u32),
        size: Size::Word,
        write: None,
    })
}

/// The stacked exception number is that of the other mode.
pub(crate) fn is_misfit(value: u32, xpsr: u32) -> bool
    ensures { result ≡ is_misfit value xpsr }
{
    let number = xpsr % 64;
    if value == TO_HANDLER {
        number == 0
    } else {
        number != 0
    }
}

/// The stack behind a frame.
fn stack_after(frame: u32, xpsr: u32) -> u32
    ensures { result ≡ stack_after frame xpsr }
{
    let stack = frame.wrapping_add(32);
    if (xpsr >> 9) & 1 == 1 {
        stack | 4
    } else {
        stack
    }
}

/// R0 to R3 and R12.
fn restore_five(words: &[u32], r: &mut [u32; 13])
    ensures { r.new ≡ with_five words.now r.old }
{
    r[0] = value_at(words, 0);
    r[1] = value_at(words, 1);
    r[2] = value_at(words, 2);
    r[3] = value_at(words, 3);
    r[12] = value_at(words, 4);
}

/// The registers of a frame.
fn restore_frame(value: u32, words: &[u32], regs: &mut Regs)
    ensures { regs.new ≡ with_frame value words.now regs.old }
{
    let xpsr = value_at(words, 7);
    regs.set_flags_word(xpsr);
    restore_five(words, &mut regs.r);
    regs.lr = value_at(words, 5);
    regs.pc = value_at(words, 6) & !1;
    regs.t = (xpsr >> 24) & 1 == 1;
    regs.ipsr = (xpsr % 64) as u8;
    regs.spsel = value == TO_PROCESS;
}

/// The stack pointer of a return.
fn set_stack(value: u32, sp: u32, regs: &mut Regs)
    ensures { regs.new ≡ with_stack value sp regs.old }
{
    if value == TO_PROCESS {
        regs.psp = sp;
    } else {
        regs.msp = sp;
    }
}

/// The registers at the end of a return.
#[tactic(auto, unfolding(crate::specs::Return::with_return))]
fn restore(value: u32, words: &[u32], regs: &mut Regs)
    ensures { regs.new ≡ with_return value words.now regs.old }
{
    let sp = stack_after(return_frame(value, regs), value_at(words, 7));
    restore_frame(value, words, regs);
    set_stack(value, sp, regs);
}

/// The exception is not active any more.
#[tactic(auto, unfolding(crate::specs::Return::after_return))]
fn leave(nvic: &mut Nvic, value: u32, xpsr: u32, number: u8)
    ensures { nvic.new ≡ after_return value xpsr number nvic.old }
{
    nvic.leave(number);
    if is_misfit(value, xpsr) {
        nvic.pend(HARDFAULT);
    }
}

impl Core {
    /// No other exception is active.
    #[tactic(auto, unfolding(crate::specs::Return::is_alone))]
    fn is_alone(&self) -> bool
        ensures { result ≡ is_alone self.now }
    {
        self.nvic.is_alone(self.regs.ipsr)
    }

    /// A value with which no return is possible.
    #[tactic(auto, unfolding(crate::specs::Return::is_bad))]
    pub(crate) fn is_bad(&self, value: u32) -> bool
        ensures { result ≡ is_bad value self.now }
    {
        match value {
            TO_HANDLER => self.is_alone(),
            TO_MAIN | TO_PROCESS => !self.is_alone(),
            _ => true,
        }
    }

    /// The next beat of a return.
    #[tactic(auto, unfolding(crate::specs::Return::return_beat))]
    pub(crate) fn return_beat(&self, value: u32) -> Beat
        ensures { result ≡ return_beat value self.now }
    {
        match self.beats_done {
            1..=8 => unstacking(value, self.beats_done - 1, &self.regs),
            _ => Beat::Inner,
        }
    }

    /// The last beat of a return is over.
    #[tactic(auto, unfolding(crate::specs::Return::return_ended))]
    pub(crate) fn end_return(&mut self, value: u32)
        ensures { self.new ≡ return_ended value self.old }
    {
        let xpsr = value_at(self.read.as_slice(), 7);
        leave(&mut self.nvic, value, xpsr, self.regs.ipsr);
        restore(value, self.read.as_slice(), &mut self.regs);
        self.event = true;
        self.work = None;
        self.beats_done = 0;
        self.read.clear();
    }
}

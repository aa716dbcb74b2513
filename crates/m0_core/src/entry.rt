//! The entry to an exception.

ghost use Rattle.std.specs.Prelude.{◌≡◌, ◌+◌, ◌<◌, slice_index};
ghost use Rattle.m0_core.specs.Entry.{entry_frame, stacked_xpsr, stacked, stacking, entry_beat, link_of, with_entry, entry_ended, taken_first};

use crate::exceptions::{TO_HANDLER, TO_MAIN, TO_PROCESS};
use crate::processor::Core;
use crate::returns::value_at;
use m0_beats::{Beat, Regs};
use rp_base::{Request, Size};

/// The frame below the active stack.
fn entry_frame(regs: &Regs) -> u32
    ensures { result ≡ entry_frame regs.now }
{
    regs.active_sp().wrapping_sub(32) & 0xffff_fffb
}

/// The stacked xPSR.
fn stacked_xpsr(regs: &Regs) -> u32
    ensures { result ≡ stacked_xpsr regs.now }
{
    if (regs.active_sp() >> 2) & 1 == 1 {
        regs.xpsr() | 0x200
    } else {
        regs.xpsr()
    }
}

/// A word of the frame.
fn stacked(regs: &Regs, index: usize) -> u32
    requires { index < 8 }
    ensures { result ≡ slice_index (stacked regs.now) index }
{
    match index {
        0 => regs.r[0],
        1 => regs.r[1],
        2 => regs.r[2],
        3 => regs.r[3],
        4 => regs.r[12],
        5 => regs.lr,
        6 => regs.pc,
        _ => stacked_xpsr(regs),
    }
}

/// The write of a word of the frame.
fn stacking(regs: &Regs, index: usize) -> Beat
    requires { index < 8 }
    ensures { result ≡ stacking index regs.now }
{
    Beat::Access(Request {
        address: entry_frame(regs).wrapping_add(4 * index as u32),
        size: Size::Word,
        write: Some(stacked(regs, index)),
    })
}

/// What LR tells the return.
fn link_of(regs: &Regs) -> u32
    ensures { result ≡ link_of regs.now }
{
    if !regs.is_thread() {
        TO_HANDLER
    } else if regs.spsel {
        TO_PROCESS
    } else {
        TO_MAIN
    }
}

/// The handler begins at its vector.
fn enter(regs: &mut Regs, number: u8, vector: u32)
    ensures { regs.new ≡ with_entry number vector regs.old }
{
    let frame = entry_frame(regs);
    let link = link_of(regs);
    regs.set_active_sp(frame);
    regs.lr = link;
    regs.pc = vector & !1;
    regs.t = vector & 1 == 1;
    regs.ipsr = number;
    regs.spsel = false;
}

impl Core {
    /// The next beat of an entry.
    #[tactic(auto, unfolding(crate::specs::Entry::entry_beat))]
    pub(crate) fn entry_beat(&self, number: u8) -> Beat
        ensures { result ≡ entry_beat number self.now }
    {
        match self.beats_done {
            1..=8 => stacking(&self.regs, self.beats_done - 1),
            9 => Beat::Access(Request {
                address: self.nvic.vtor().wrapping_add(4 * u32::from(number)),
                size: Size::Word,
                write: None,
            }),
            _ => Beat::Inner,
        }
    }

    /// The first beat takes the exception.
    #[tactic(auto, unfolding(crate::specs::Entry::taken_first))]
    pub(crate) fn take_first(&mut self, number: u8)
        ensures { self.new ≡ taken_first number self.old }
    {
        if self.beats_done == 0 {
            self.nvic.enter(number);
        }
    }

    /// The last beat of an entry is over.
    #[tactic(auto, unfolding(crate::specs::Entry::entry_ended))]
    pub(crate) fn end_entry(&mut self, number: u8)
        ensures { self.new ≡ entry_ended number self.old }
    {
        let vector = value_at(self.read.as_slice(), 0);
        enter(&mut self.regs, number, vector);
        self.event = true;
        self.work = None;
        self.beats_done = 0;
        self.read.clear();
    }
}

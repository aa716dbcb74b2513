//! The words of a block by their offsets.

ghost use Rattle.std.specs.Prelude.{◌≡◌, ◌<◌, ◌≤◌, ◌+◌, ◌-◌, ◌*◌, ◌/◌, ◌%◌, ◌^◌};
ghost use Rattle.rp_base.specs.Rows.{Each, is_at};
ghost use Rattle.pio_block.specs.Words.{is_word, sets_left_out, is_allowed};

use crate::machine::register;
use crate::registers::{
    CTRL, DBG_CFGINFO, DBG_PADOE, DBG_PADOUT, END, FDEBUG, FLEVEL, FSTAT, INPUT_SYNC_BYPASS,
    INSTR_MEM0, INTR, IRQ, IRQ_FORCE, IRQ0_INTE, IRQ0_INTF, IRQ0_INTS, IRQ1_INTE, IRQ1_INTF,
    IRQ1_INTS, RXF0, SM_BYTES, SM0_CLKDIV, SM0_EXECCTRL, TXF0,
};
use crate::state::State;
use rp_base::bits::has_bit;

/// The pins of the chip.
pub(crate) const PINS: u32 = 0x3fff_ffff;

impl State {
    ghost use Rattle.std.specs.Prelude.{◌≡◌, ◌<◌, ◌≤◌, ◌∷◌, [], Bool, true, false, None, Some, ⊤};
    ghost use Rattle.rp_base.specs.Rows.{word_at, effect_at};
    ghost use Rattle.pio_block.specs.Control.{control_written};
    ghost use Rattle.pio_block.specs.Queues.{fdebug_of, debug_written, sent, taken, first_of, is_rx_empty};
    ghost use Rattle.pio_block.specs.Words.{control_rows, fifo_rows, pin_rows, memory_rows, interrupt_rows, intr_of, ints_of, ints0_of, ints1_of, word_of, after_any, effect_of, is_allowed, lines_of};

    /// FDEBUG.
    #[tactic(auto, unfolding(crate::specs::Queues::fdebug_of))]
    fn fdebug(&self) -> u32
        ensures { result ≡ fdebug_of self.now }
    {
        joined_sets(
            self.machines.tx_stalls(),
            self.tx_over,
            self.rx_under,
            self.machines.rx_stalls(),
        )
    }

    /// A write of FDEBUG.
    #[tactic(auto, unfolding(crate::specs::Queues::debug_written))]
    fn write_debug(&mut self, word: u32)
        ensures { self.new ≡ debug_written word self.old }
    {
        self.machines.clear_stalls(word);
        self.tx_over &= !(((word >> 16) & 0xf) as u8);
        self.rx_under &= !(((word >> 8) & 0xf) as u8);
    }

    /// CTRL, FSTAT, FDEBUG or FLEVEL.
    fn control_word(&self, offset: u16) -> Option<u32>
        ensures { result ≡ word_at (control_rows {V = ⊤}) tt offset self.now }
    {
        match offset {
            CTRL => Some(self.machines.ctrl()),
            FSTAT => Some(self.machines.fstat()),
            FDEBUG => Some(self.fdebug()),
            FLEVEL => Some(self.machines.flevel()),
            _ => None,
        }
    }

    /// A write of CTRL or FDEBUG.
    #[tactic(auto, unfolding(crate::specs::Control::control_written))]
    fn write_control(&mut self, offset: u16, word: u32)
        ensures { self.new ≡ effect_at (control_rows {V = ⊤}) offset (Some word) self.old }
    {
        match offset {
            CTRL => self.machines.control(word),
            FDEBUG => self.write_debug(word),
            _ => {}
        }
    }

    /// The first word of RXF; 0 where it is empty, and for TXF.
    fn fifo_word(&self, offset: u16) -> Option<u32>
        requires low { 0x010 ≤ offset }
        requires high { offset < 0x030 }
        ensures { result ≡ word_at (fifo_rows {V = ⊤}) tt offset self.now }
    {
        if offset % 4 != 0 {
            None
        } else if offset < RXF0 {
            Some(0)
        } else {
            Some(self.machines.at(((offset - RXF0) / 4) as u8).rx.first())
        }
    }

    /// Sends a word to a machine, or loses it where the FIFO is full.
    #[tactic(auto, unfolding(crate::specs::Queues::sent))]
    fn send(&mut self, number: u8, word: u32)
        requires { number < 4 }
        ensures { self.new ≡ sent number word self.old }
    {
        if self.machines.at(number).is_tx_full() {
            self.tx_over |= 1 << number;
        }
        self.machines.send(number, word);
    }

    /// Takes a word from a machine, where there is one.
    #[tactic(auto, unfolding(crate::specs::Queues::taken))]
    fn take(&mut self, number: u8)
        requires { number < 4 }
        ensures { self.new ≡ taken number self.old }
    {
        if self.machines.at(number).rx.level() == 0 {
            self.rx_under |= 1 << number;
        }
        self.machines.take(number);
    }

    /// A write of TXF.
    fn write_fifo(&mut self, offset: u16, word: u32)
        requires low { 0x010 ≤ offset }
        requires high { offset < 0x030 }
        ensures { self.new ≡ effect_at (fifo_rows {V = ⊤}) offset (Some word) self.old }
    {
        if offset % 4 == 0 && offset < RXF0 {
            self.send(((offset - TXF0) / 4) as u8, word);
        }
    }

    /// IRQ, IRQ_FORCE, INPUT_SYNC_BYPASS, DBG_PADOUT, DBG_PADOE or DBG_CFGINFO.
    fn pin_word(&self, offset: u16) -> Option<u32>
        ensures { result ≡ word_at (pin_rows {V = ⊤}) tt offset self.now }
    {
        match offset {
            IRQ => Some(u32::from(self.seen.flags)),
            IRQ_FORCE => Some(0),
            INPUT_SYNC_BYPASS => Some(self.seen.bypass),
            DBG_PADOUT => Some(self.levels & PINS),
            DBG_PADOE => Some(self.enables & PINS),
            DBG_CFGINFO => Some(0x0020_0404),
            _ => None,
        }
    }

    /// Clears flags, sets flags, or writes INPUT_SYNC_BYPASS.
    fn write_pins(&mut self, offset: u16, word: u32)
        ensures { self.new ≡ effect_at (pin_rows {V = ⊤}) offset (Some word) self.old }
    {
        let flags = (word & 0xff) as u8;
        match offset {
            IRQ => self.seen.flags &= !flags,
            IRQ_FORCE => self.seen.flags |= flags,
            INPUT_SYNC_BYPASS => self.seen.bypass = word,
            _ => {}
        }
    }

    /// A word of the instruction memory, which cannot be read.
    fn memory_word(&self, offset: u16) -> Option<u32>
        requires low { 0x048 ≤ offset }
        requires high { offset < 0x0c8 }
        ensures { result ≡ word_at (memory_rows {V = ⊤}) tt offset self.now }
    {
        if offset % 4 == 0 { Some(0) } else { None }
    }

    /// A write of a word of the instruction memory.
    fn write_memory(&mut self, offset: u16, word: u32)
        requires low { 0x048 ≤ offset }
        requires high { offset < 0x0c8 }
        ensures { self.new ≡ effect_at (memory_rows {V = ⊤}) offset (Some word) self.old }
    {
        if offset % 4 == 0 {
            let address = ((offset - INSTR_MEM0) / 4) as u8;
            self.seen.memory.write(address, (word & 0xffff) as u16);
        }
    }

    /// INTR.
    #[tactic(auto, unfolding(crate::specs::Words::intr_of))]
    fn intr(&self) -> u32
        ensures { result ≡ intr_of self.now }
    {
        u32::from(self.seen.flags % 16) * 0x100
            + self.machines.with_room() * 16
            + self.machines.with_words()
    }

    /// INTS of line 0. Where no interrupt is enabled INTR is not looked at.
    #[inline(always)]
    #[tactic(auto, using(crate::proofs::Masks::none_enabled))]
    pub(crate) fn ints0(&self) -> u32
        ensures { result ≡ ints0_of self.now }
    {
        if self.inte0 == 0 {
            return u32::from(self.intf0);
        }
        (self.intr() & u32::from(self.inte0)) | u32::from(self.intf0)
    }

    /// INTS of line 1. Where no interrupt is enabled INTR is not looked at.
    #[inline(always)]
    #[tactic(auto, using(crate::proofs::Masks::none_enabled))]
    pub(crate) fn ints1(&self) -> u32
        ensures { result ≡ ints1_of self.now }
    {
        if self.inte1 == 0 {
            return u32::from(self.intf1);
        }
        (self.intr() & u32::from(self.inte1)) | u32::from(self.intf1)
    }

    /// Both interrupt lines.
    #[inline(always)]
    pub(crate) fn lines(&self) -> [bool; 2]
        ensures { result ≡ lines_of self.now }
    {
        [self.ints0() != 0, self.ints1() != 0]
    }

    /// INTR, or INTE, INTF or INTS of a line.
    fn interrupt_word(&self, offset: u16) -> Option<u32>
        ensures { result ≡ word_at (interrupt_rows {V = ⊤}) tt offset self.now }
    {
        match offset {
            INTR => Some(self.intr()),
            IRQ0_INTE => Some(u32::from(self.inte0)),
            IRQ0_INTF => Some(u32::from(self.intf0)),
            IRQ0_INTS => Some(self.ints0()),
            IRQ1_INTE => Some(u32::from(self.inte1)),
            IRQ1_INTF => Some(u32::from(self.intf1)),
            IRQ1_INTS => Some(self.ints1()),
            _ => None,
        }
    }

    /// A write of INTE or INTF.
    fn write_interrupts(&mut self, offset: u16, word: u32)
        ensures { self.new ≡ effect_at (interrupt_rows {V = ⊤}) offset (Some word) self.old }
    {
        let bits = (word & 0xfff) as u16;
        match offset {
            IRQ0_INTE => self.inte0 = bits,
            IRQ0_INTF => self.intf0 = bits,
            IRQ1_INTE => self.inte1 = bits,
            IRQ1_INTF => self.intf1 = bits,
            _ => {}
        }
    }

    /// The word at an offset.
    #[tactic(auto, using(crate::proofs::Rows::control_word, crate::proofs::Rows::fifo_word, crate::proofs::Rows::pin_word, crate::proofs::Rows::memory_word, crate::proofs::Rows::machine_word, crate::proofs::Rows::interrupt_word))]
    pub(crate) fn read(&self, offset: u16) -> Option<u32>
        ensures { result ≡ word_of offset self.now }
    {
        if offset < TXF0 {
            self.control_word(offset)
        } else if offset < IRQ {
            self.fifo_word(offset)
        } else if offset < INSTR_MEM0 {
            self.pin_word(offset)
        } else if offset < SM0_CLKDIV {
            self.memory_word(offset)
        } else if offset < INTR {
            let machine = self.machines.at(register_number(offset));
            register(machine, register_offset(offset), &self.seen.memory)
        } else {
            self.interrupt_word(offset)
        }
    }

    /// A write of a word.
    #[tactic(auto, using(crate::proofs::Rows::control_write, crate::proofs::Rows::fifo_write, crate::proofs::Rows::pin_write, crate::proofs::Rows::memory_write, crate::proofs::Rows::machine_write, crate::proofs::Rows::interrupt_write))]
    fn write(&mut self, offset: u16, word: u32)
        ensures { self.new ≡ after_any offset (Some word) self.old }
    {
        if offset < TXF0 {
            self.write_control(offset, word);
        } else if offset < IRQ {
            self.write_fifo(offset, word);
        } else if offset < INSTR_MEM0 {
            self.write_pins(offset, word);
        } else if offset < SM0_CLKDIV {
            self.write_memory(offset, word);
        } else if offset < INTR {
            self.machines
                .write_register(register_number(offset), register_offset(offset), word);
        } else {
            self.write_interrupts(offset, word);
        }
    }

    /// What a read does.
    #[tactic(auto, using(crate::proofs::Rows::rx_read, crate::proofs::Rows::no_read))]
    fn after_read(&mut self, offset: u16)
        ensures { self.new ≡ after_any offset None self.old }
    {
        if is_rxf(offset) {
            self.take(((offset - RXF0) / 4) as u8);
        }
    }

    /// Does what a read, or a write of this word, does to the block.
    #[tactic(auto, unfolding(crate::specs::Words::effect_of))]
    pub(crate) fn effect(&mut self, offset: u16, write: Option<u32>) -> bool
        ensures after { self.new ≡ effect_of offset write self.old }
        ensures allowed { result ≡ is_allowed offset write }
    {
        if !is_allowed(offset, write) {
            return false;
        }
        match write {
            Some(word) => self.write(offset, word),
            None => self.after_read(offset),
        }
        true
    }
}

/// Four sets of machines as the bytes of a word, from the highest.
fn joined_sets(first: u32, second: u8, third: u8, last: u32) -> u32
    requires first { first ≤ 15 }
    requires last { last ≤ 15 }
    ensures { result ≡ first * 2 ^ 24 + second * 2 ^ 16 + third * 2 ^ 8 + last }
{
    first * 0x100_0000 + u32::from(second) * 0x1_0000 + u32::from(third) * 0x100 + last
}

/// The offset of an RXF.
fn is_rxf(offset: u16) -> bool
    ensures { result ≡ is_at (Each 0x020 4 4) offset }
{
    RXF0 <= offset && offset < IRQ && offset % 4 == 0
}

/// The number of a machine by the offset of one of its registers.
fn register_number(offset: u16) -> u8
    requires low { 0x0c8 ≤ offset }
    requires high { offset < 0x128 }
    ensures value { result ≡ (offset - 0x0c8) / 24 }
    ensures small { result < 4 }
{
    ((offset - SM0_CLKDIV) / SM_BYTES) as u8
}

/// The offset of a register from the first one of its machine.
fn register_offset(offset: u16) -> u16
    requires { 0x0c8 ≤ offset }
    ensures { result ≡ (offset - 0x0c8) % 24 }
{
    (offset - SM0_CLKDIV) % SM_BYTES
}

/// There is a word at that offset.
#[tactic(auto, using(crate::proofs::Rows::below_end, crate::proofs::Rows::not_whole))]
fn is_word(offset: u16) -> bool
    ensures { result ≡ is_word offset }
{
    offset % 4 == 0 && offset < END
}

/// A write to EXECCTRL that sets a bit which is left out.
fn sets_left_out(offset: u16, write: Option<u32>) -> bool
    ensures { result ≡ sets_left_out offset write }
{
    match write {
        Some(word) => {
            SM0_EXECCTRL <= offset
                && offset < SM0_EXECCTRL + 4 * SM_BYTES
                && (offset - SM0_EXECCTRL) % SM_BYTES == 0
                && (has_bit(word, 17) || has_bit(word, 18))
        }
        None => false,
    }
}

/// A read, or a write of this word, is allowed.
#[tactic(auto, unfolding(crate::specs::Words::is_allowed))]
pub(crate) fn is_allowed(offset: u16, write: Option<u32>) -> bool
    ensures { result ≡ is_allowed offset write }
{
    is_word(offset) && !sets_left_out(offset, write)
}

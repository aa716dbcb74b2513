//! The registers, by their offsets.

ghost use Rattle.std.specs.Prelude.{◌≡◌, ◌≤◌, Some, None, slice_get};
ghost use Rattle.rp_uart.specs.Words.{received_word, status_of, after_taking, after_giving, without_errors, is_busy, flags_of, code_of, width_of_code, line_control_of, line_control_from, control_of, control_from, dma_control_of, dma_control_from, word_of, is_word, is_pure_read, after_access, effect_of};

use crate::control::{Control, DmaControl};
use crate::frame::{LineControl, WordLength};
use crate::receiver::{Errors, Received};
use crate::registers::{CR, DMACR, DR, FBRD, FR, IBRD, ICR, IFLS, IMSC, LCR_H, MIS, RIS, RSR};
use crate::sender::Sender;
use crate::uart::Uart;
use rp_base::Registers;
use rp_base::bits::{bit_number, has_bit};

impl Uart {
    /// The word at an offset. None exactly where there is no such word.
    pub fn read(&self, offset: u16) -> Option<u32>
        ensures { result ≡ word_of offset self.now }
    {
        match offset {
            DR => Some(self.first_word()),
            RSR => Some(self.status().bits()),
            FR => Some(self.flags()),
            IBRD => Some(u32::from(self.divisor.integer)),
            FBRD => Some(u32::from(self.divisor.fraction)),
            LCR_H => Some(self.line.word()),
            CR => Some(self.control.word()),
            IFLS => Some(u32::from(self.levels)),
            IMSC => Some(self.mask),
            RIS => Some(self.raw),
            MIS => Some(self.raw & self.mask),
            ICR => Some(0),
            DMACR => Some(self.dma.word()),
            _ => None,
        }
    }

    /// There is a word at this offset, which can be read and written.
    pub fn allows(&self, offset: u16, _write: Option<u32>) -> bool
        ensures { result ≡ is_word offset }
    {
        matches!(
            offset,
            DR | RSR | FR | IBRD | FBRD | LCR_H | CR | IFLS | IMSC | RIS | MIS | ICR | DMACR
        )
    }

    /// Does what a read, or a write of this word, does to the UART. False, and nothing is changed, where there is no such
    /// word.
    #[tactic(auto, unfolding(crate::specs::Words::effect_of))]
    pub fn effect(&mut self, offset: u16, write: Option<u32>) -> bool
        ensures after { self.new ≡ effect_of offset write self.old }
        ensures allowed { result ≡ is_word offset }
    {
        if !self.allows(offset, write) {
            return false;
        }
        match write {
            Some(word) => self.write(offset, word),
            None => self.after_read(offset),
        }
        self.raw = self.settled();
        true
    }

    /// A read at this offset changes nothing, also where only time has passed: it is none of UARTDR, which takes a byte, and no interrupt
    /// goes by an access.
    #[inline(always)]
    pub fn is_pure_read(&self, offset: u16) -> bool
        ensures { result ≡ is_pure_read offset self.now }
    {
        offset != DR && self.settled() == self.raw
    }

    /// A write of a word.
    fn write(&mut self, offset: u16, word: u32)
        ensures { self.new ≡ after_access offset (Some word) self.old }
    {
        match offset {
            DR => self.give_byte((word & 0xff) as u8),
            RSR => self.clear_errors(),
            IBRD => self.divisor.integer = (word & 0xffff) as u16,
            FBRD => self.divisor.fraction = (word & 0x3f) as u8,
            LCR_H => self.line = LineControl::from_word(word),
            CR => self.control = Control::from_word(word),
            IFLS => self.levels = (word & 0x3f) as u8,
            IMSC => self.mask = word & 0x7f0,
            ICR => self.clear(word),
            DMACR => self.dma = DmaControl::from_word(word),
            _ => {}
        }
    }

    /// A write of UARTECR.
    fn clear_errors(&mut self)
        ensures { self.new ≡ without_errors self.old }
    {
        self.last = Errors::none();
        self.overrun = false;
    }

    /// What a read does: UARTDR gives its oldest byte away.
    fn after_read(&mut self, offset: u16)
        ensures { self.new ≡ after_access offset None self.old }
    {
        if offset == DR {
            self.take_byte();
        }
    }

    /// The oldest byte was read.
    fn take_byte(&mut self)
        ensures { self.new ≡ after_taking (slice_get self.old.received 0) self.old }
    {
        if let Some(received) = self.received.pop_at(0) {
            self.last = received.errors;
            self.waited = if self.received.is_empty() {
                None
            } else {
                Some(0)
            };
        }
    }

    /// A byte is to be sent.
    fn give_byte(&mut self, byte: u8)
        ensures { self.new ≡ after_giving byte self.old }
    {
        if self.to_send.len() < self.depth() {
            self.to_send.push(byte);
        }
    }

    /// UARTDR.
    fn first_word(&self) -> u32
        ensures { result ≡ received_word (slice_get self.now.received 0) }
    {
        match self.received.first().copied() {
            Some(received) => u32::from(received.byte) + received.errors.bits() * 0x100,
            None => 0,
        }
    }

    /// UARTRSR.
    fn status(&self) -> Errors
        ensures { result ≡ status_of self.now }
    {
        Errors {
            framing: self.last.framing,
            parity: self.last.parity,
            break_line: self.last.break_line,
            overrun: self.last.overrun || self.overrun,
        }
    }

    /// UARTFR.
    fn flags(&self) -> u32
        ensures { result ≡ flags_of self.now }
    {
        let depth = self.depth();
        bit_number(self.to_send.is_empty()) * 0x80
            + bit_number(depth <= self.received.len()) * 0x40
            + bit_number(depth <= self.to_send.len()) * 0x20
            + bit_number(self.received.is_empty()) * 0x10
            + bit_number(self.is_busy()) * 0x8
    }

    /// Bytes wait to be sent, or one is being sent.
    fn is_busy(&self) -> bool
        ensures { result ≡ is_busy self.now }
    {
        !self.to_send.is_empty() || matches!(self.sender, Sender::Frame(_))
    }
}

impl Registers<()> for Uart {
    ghost word = { λ offset _. word_of offset };

    ghost allowed = { λ offset _ _. is_word offset };

    ghost accessed = { effect_of };

    fn read(&self, _seen: &(), offset: u16) -> Option<u32> {
        self.read(offset)
    }

    fn allows(&self, offset: u16, write: Option<u32>) -> bool {
        self.allows(offset, write)
    }

    fn effect(&mut self, offset: u16, write: Option<u32>) -> bool {
        self.effect(offset, write)
    }
}

impl LineControl {
    /// The word of UARTLCR_H.
    fn word(&self) -> u32
        ensures { result ≡ line_control_of self.now }
    {
        bit_number(self.parity) * 2
            + bit_number(self.even) * 4
            + bit_number(self.two_stops) * 8
            + bit_number(self.fifos) * 16
            + self.width.code() * 32
    }

    /// What a word says in UARTLCR_H.
    fn from_word(word: u32) -> LineControl
        ensures { result ≡ line_control_from word }
    {
        LineControl {
            parity: has_bit(word, 1),
            even: has_bit(word, 2),
            two_stops: has_bit(word, 3),
            fifos: has_bit(word, 4),
            width: WordLength::from_code((word >> 5) & 3),
        }
    }
}

impl WordLength {
    /// The code of WLEN.
    fn code(&self) -> u32
        ensures value { result ≡ code_of self.now }
        ensures bound { result ≤ 3 }
    {
        match self {
            WordLength::Five => 0,
            WordLength::Six => 1,
            WordLength::Seven => 2,
            WordLength::Eight => 3,
        }
    }

    /// What a code says in WLEN.
    fn from_code(code: u32) -> WordLength
        ensures { result ≡ width_of_code code }
    {
        match code {
            0 => WordLength::Five,
            1 => WordLength::Six,
            2 => WordLength::Seven,
            _ => WordLength::Eight,
        }
    }
}

impl Control {
    /// The word of UARTCR.
    fn word(&self) -> u32
        ensures { result ≡ control_of self.now }
    {
        bit_number(self.enabled)
            + bit_number(self.loopback) * 0x80
            + bit_number(self.transmit) * 0x100
            + bit_number(self.receive) * 0x200
    }

    /// What a word says in UARTCR.
    fn from_word(word: u32) -> Control
        ensures { result ≡ control_from word }
    {
        Control {
            enabled: has_bit(word, 0),
            loopback: has_bit(word, 7),
            transmit: has_bit(word, 8),
            receive: has_bit(word, 9),
        }
    }
}

impl DmaControl {
    /// The word of UARTDMACR.
    fn word(&self) -> u32
        ensures { result ≡ dma_control_of self.now }
    {
        bit_number(self.receive) + bit_number(self.transmit) * 2
    }

    /// What a word says in UARTDMACR.
    fn from_word(word: u32) -> DmaControl
        ensures { result ≡ dma_control_from word }
    {
        DmaControl {
            receive: has_bit(word, 0),
            transmit: has_bit(word, 1),
        }
    }
}

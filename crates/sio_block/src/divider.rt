//! The divider of a core.

ghost use Rattle.std.specs.Prelude.{◌≡◌, ◌<◌, not, ◌==◌, pos, neg_ℤ, unsigned_abs, true, if◌then◌else◌};
ghost use Rattle.std.specs.Int.RustNames.{int_div, int_rem};
ghost use Rattle.rp_base.specs.Word.{word_of, bit_number};
ghost use Rattle.sio_block.specs.Divider.{divider_at_reset, number_of, quotient_of, remainder_of, csr_of, divider_word, begun, ended_by_write, divider_written, divider_read, divider_ended};

use crate::registers::{
    DIV_CSR, DIV_QUOTIENT, DIV_REMAINDER, DIV_SDIVIDEND, DIV_SDIVISOR, DIV_UDIVIDEND, DIV_UDIVISOR,
};

/// How many cycles a division takes, that of the write among them.
const CYCLES: u8 = 8;

/// The least word whose sign bit is set.
const SIGN: u32 = 0x8000_0000;

/// The divider of a core (RP2040 Datasheet, 2.3.1.5).
#[derive(Clone, Copy)]
pub struct Divider {
    /// The operands.
    pub dividend: u32,
    pub divisor: u32,
    /// The operand that was written last was written as a signed number.
    pub signed: bool,
    /// The results that are read.
    pub quotient: u32,
    pub remainder: u32,
    /// How many cycles are left of a division, 0 where none is going on.
    pub left: u8,
    /// CSR.DIRTY: a word was written since the quotient was read.
    pub dirty: bool,
}

impl Divider {
    /// A divider at reset.
    pub(crate) fn new() -> Divider
        ensures { result ≡ divider_at_reset }
    {
        Divider {
            dividend: 0,
            divisor: 0,
            signed: false,
            quotient: 0,
            remainder: 0,
            left: 0,
            dirty: false,
        }
    }

    /// A division is going on.
    pub(crate) fn is_busy(&self) -> bool
        ensures { result ≡ not (self.now.left == 0) }
    {
        self.left != 0
    }

    /// The word at an offset from 060 to 078.
    pub(crate) fn read(&self, offset: u16) -> Option<u32>
        ensures { result ≡ divider_word offset self.now }
    {
        match offset {
            DIV_UDIVIDEND | DIV_SDIVIDEND => Some(self.dividend),
            DIV_UDIVISOR | DIV_SDIVISOR => Some(self.divisor),
            DIV_QUOTIENT => Some(self.quotient),
            DIV_REMAINDER => Some(self.remainder),
            DIV_CSR => Some(self.csr()),
            _ => None,
        }
    }

    /// READY and DIRTY.
    fn csr(&self) -> u32
        ensures { result ≡ csr_of self.now }
    {
        u32::from(self.left == 0) + u32::from(self.dirty) * 2
    }

    /// What a read does.
    pub(crate) fn after_read(&mut self, offset: u16)
        ensures { self.new ≡ divider_read offset self.old }
    {
        if offset == DIV_QUOTIENT {
            self.dirty = false;
        }
    }

    /// A write of an operand, which begins a division, or of a result, which ends one.
    pub(crate) fn write(&mut self, offset: u16, word: u32)
        ensures { self.new ≡ divider_written offset word self.old }
    {
        match offset {
            DIV_UDIVIDEND => {
                self.dividend = word;
                self.begin(false);
            }
            DIV_UDIVISOR => {
                self.divisor = word;
                self.begin(false);
            }
            DIV_SDIVIDEND => {
                self.dividend = word;
                self.begin(true);
            }
            DIV_SDIVISOR => {
                self.divisor = word;
                self.begin(true);
            }
            DIV_QUOTIENT => {
                self.quotient = word;
                self.end();
            }
            DIV_REMAINDER => {
                self.remainder = word;
                self.end();
            }
            _ => {}
        }
    }

    /// A division begins.
    fn begin(&mut self, signed: bool)
        ensures { self.new ≡ begun signed self.old }
    {
        self.signed = signed;
        self.left = CYCLES;
        self.dirty = true;
    }

    /// A result was written.
    fn end(&mut self)
        ensures { self.new ≡ ended_by_write self.old }
    {
        self.left = 0;
        self.dirty = true;
    }

    /// Ends a cycle: the results appear at the end of the last one of a division.
    pub(crate) fn end_cycle(&mut self)
        ensures { self.new ≡ divider_ended self.old }
    {
        if self.left == 1 {
            let (quotient, remainder) = self.results();
            self.quotient = quotient;
            self.remainder = remainder;
        }
        self.left = self.left.saturating_sub(1);
    }

    /// The quotient and the remainder of the operands.
    fn results(&self) -> (u32, u32)
        ensures quotient { result.0 ≡ quotient_of self.now }
        ensures remainder { result.1 ≡ remainder_of self.now }
    {
        if self.divisor == 0 {
            let is_negative = self.signed && self.dividend >= SIGN;
            (if is_negative { 1 } else { u32::MAX }, self.dividend)
        } else if self.signed {
            signed_results(self.dividend, self.divisor)
        } else {
            (self.dividend / self.divisor, self.dividend % self.divisor)
        }
    }
}

/// The quotient and the remainder of two signed words, truncated towards zero.
fn signed_results(dividend: u32, divisor: u32) -> (u32, u32)
    requires { 0 < divisor }
    ensures quotient { result.0 ≡ word_of
        (int_div (number_of true dividend) (number_of true divisor)) }
    ensures remainder { result.1 ≡ word_of
        (int_rem (number_of true dividend) (number_of true divisor)) }
{
    let (size, by) = (magnitude(dividend), magnitude(divisor));
    let (quotient, remainder) = (size / by, size % by);
    let is_negative = dividend >= SIGN;
    (
        with_sign(is_negative != (divisor >= SIGN), quotient),
        with_sign(is_negative, remainder),
    )
}

/// The magnitude of a signed word.
fn magnitude(word: u32) -> u32
    ensures { result ≡ unsigned_abs (number_of true word) }
{
    if word >= SIGN { !word + 1 } else { word }
}

/// The word of a number or of its negative.
fn with_sign(is_negative: bool, size: u32) -> u32
    ensures { result ≡ word_of (if is_negative then neg_ℤ (pos size) else pos size) }
{
    if is_negative {
        0u32.wrapping_sub(size)
    } else {
        size
    }
}

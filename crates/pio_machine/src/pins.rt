//! The pins as a machine sees and writes them.

ghost use Rattle.std.specs.Prelude.{◌≡◌, ◌≤◌, ◌<◌, ◌^◌};
ghost use Rattle.pio_machine.specs.Pins.{input_word, mapped_inputs, pins_from, overlaid, with_masked_levels, with_masked_enables, with_levels, with_enables};

use crate::bits::low_mask;
use crate::machine::{Done, Machine1, Seen};

impl Seen {
    /// The levels of the pins.
    pub(crate) fn input_word(&self) -> u32
        ensures { result ≡ input_word self.now }
    {
        (self.inputs[0] & self.bypass) | (self.inputs[1] & !self.bypass)
    }
}

impl Machine1 {
    /// The levels of the pins from IN_BASE on.
    pub(crate) fn mapped_inputs(&self, seen: &Seen) -> u32
        ensures { result ≡ mapped_inputs seen.now self.now }
    {
        seen.input_word().rotate_right(self.in_base())
    }
}

/// So many pins from a base on.
pub(crate) fn pins_from(base: u32, count: u8) -> u32
    requires { count ≤ 32 }
    ensures { result ≡ pins_from base count }
{
    low_mask(count).rotate_left(base)
}

/// A word, in which the pins of a mask have the bits of another one.
pub(crate) fn overlaid(mask: u32, bits: u32, word: u32) -> u32
    ensures { result ≡ overlaid mask bits word }
{
    (word & !mask) | (bits & mask)
}

impl Done {
    /// The levels and the enables are words: their types keep it.
    pub(crate) fn fact_are_words(&self)
        ensures levels { self.now.levels < 2 ^ 32 }
        ensures enables { self.now.enables < 2 ^ 32 }
    {
        let (_levels, _enables) = (self.levels, self.enables);
    }

    /// Writes the levels of the pins of a mask, from a base on.
    #[inline(always)]
    pub(crate) fn write_levels_by(&mut self, mask: u32, base: u32, value: u32)
        ensures { self.new ≡ with_masked_levels mask base value self.old }
    {
        self.levels = overlaid(mask, value.rotate_left(base), self.levels);
        self.level_mask |= mask;
    }

    /// Writes the enables of the pins of a mask, from a base on.
    #[inline(always)]
    pub(crate) fn write_enables_by(&mut self, mask: u32, base: u32, value: u32)
        ensures { self.new ≡ with_masked_enables mask base value self.old }
    {
        self.enables = overlaid(mask, value.rotate_left(base), self.enables);
        self.enable_mask |= mask;
    }

    /// Writes the levels of so many pins from a base on.
    pub(crate) fn write_levels(&mut self, base: u32, count: u8, value: u32)
        requires { count ≤ 32 }
        ensures { self.new ≡ with_levels base count value self.old }
    {
        self.write_levels_by(pins_from(base, count), base, value);
    }

    /// Writes the enables of so many pins from a base on.
    pub(crate) fn write_enables(&mut self, base: u32, count: u8, value: u32)
        requires { count ≤ 32 }
        ensures { self.new ≡ with_enables base count value self.old }
    {
        self.write_enables_by(pins_from(base, count), base, value);
    }
}

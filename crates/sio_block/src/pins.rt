//! The pins that software drives.

ghost use Rattle.std.specs.Prelude.{◌≡◌};
ghost use Rattle.sio_block.specs.Pins.{pins_word, pins_written};

use crate::registers::{
    GPIO_OE, GPIO_OE_CLR, GPIO_OE_SET, GPIO_OE_XOR, GPIO_OUT, GPIO_OUT_CLR, GPIO_OUT_SET,
    GPIO_OUT_XOR,
};

/// GPIO_OUT and GPIO_OE, of 30 bits (RP2040 Datasheet, 2.3.1.2).
#[derive(Clone, Copy)]
pub struct Pins {
    /// The levels, by pin.
    pub out: u32,
    /// Which pins are driven.
    pub enable: u32,
}

impl Pins {
    /// The word at an offset from 010 to 02C.
    pub(crate) fn read(&self, offset: u16) -> Option<u32>
        ensures { result ≡ pins_word offset self.now }
    {
        match offset {
            GPIO_OUT => Some(self.out),
            GPIO_OE => Some(self.enable),
            GPIO_OUT_SET | GPIO_OUT_CLR | GPIO_OUT_XOR | GPIO_OE_SET | GPIO_OE_CLR | GPIO_OE_XOR =>
                Some(0),
            _ => None,
        }
    }

    /// A write to OUT or OE, or to one of their SET, CLR and XOR words.
    pub(crate) fn write(&mut self, offset: u16, word: u32)
        ensures { self.new ≡ pins_written offset word self.old }
    {
        let bits = word & 0x3fff_ffff;
        match offset {
            GPIO_OUT => self.out = bits,
            GPIO_OUT_SET => self.out |= bits,
            GPIO_OUT_CLR => self.out &= !bits,
            GPIO_OUT_XOR => self.out ^= bits,
            GPIO_OE => self.enable = bits,
            GPIO_OE_SET => self.enable |= bits,
            GPIO_OE_CLR => self.enable &= !bits,
            GPIO_OE_XOR => self.enable ^= bits,
            _ => {}
        }
    }
}

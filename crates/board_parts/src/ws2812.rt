//! The decoder of a strip of lights.

ghost use Rattle.std.specs.Prelude.{◌≡◌, ◌<◌, ◌^◌, ◌+◌, ◌≤◌, ◌++◌, ◌∷◌, true, false};
ghost use Rattle.arrayvec.specs.ArrayVec.{array_vec_len};
ghost use Rattle.board_parts.specs.Bits.{bits_in};
ghost use Rattle.board_parts.specs.Ws2812.{ws2812, bit_of, decoded, hex_colour};
ghost use Rattle.std.specs.Char.{digit_char};

use crate::probe::Probe;
use arrayvec::ArrayVec;
use trace_text::line::{push_number, push_text};

/// A high level shorter than this many cycles is a 0 bit, and any other a 1 bit.
const ONE: u64 = 75;

/// A low level of this many cycles or more drops the bits that do not make a colour yet.
const RESET: u64 = 6250;

/// Decodes what a pin sends to a strip of WS2812 lights: 24 bits make a colour, the first of them the highest. A bit is
/// counted when the level falls. The count of colours stands still at the end of 64 bits.
#[derive(Drop)]
pub struct Ws2812 {
    since: u64,
    colours: u64,
    last: u32,
    count: u8,
    bits: u32,
    ghost few: { count < 24 },
    ghost within: { bits < 2 ^ count },
}

/// The bit of a high level of so many cycles.
fn bit_of(long: u64) -> u32
    ensures bit { result ≡ bit_of long }
    ensures low { result < 2 }
{
    if long < ONE { 0 } else { 1 }
}

impl Ws2812 {
    /// A decoder that has heard nothing.
    pub fn new() -> Ws2812
        ensures { ⟦<Ws2812 as Probe>⟧.state result ≡ ws2812.aimed 0 }
    {
        Ws2812 {
            since: 0,
            colours: 0,
            last: 0,
            count: 0,
            bits: 0,
        }
    }

    /// The level rises: a low level ends.
    fn rise(&mut self, cycle: u64)
        ensures { self.new.since ∷ self.new.colours ∷ self.new.last
            ∷ bits_in self.new.count self.new.bits
            ≡ decoded cycle true (self.old.since ∷ self.old.colours ∷ self.old.last
            ∷ bits_in self.old.count self.old.bits) }
    {
        let long = cycle.saturating_sub(self.since);
        let (count, bits) = if long >= RESET {
            (0, 0)
        } else {
            (self.count, self.bits)
        };
        *self = Ws2812 {
            since: cycle,
            colours: self.colours,
            last: self.last,
            count,
            bits,
        };
    }

    /// The level falls: a bit ends.
    #[tactic(auto, using(crate::proofs::Bits::bits_full, crate::proofs::Bits::bits_few))]
    fn fall(&mut self, cycle: u64)
        ensures { self.new.since ∷ self.new.colours ∷ self.new.last
            ∷ bits_in self.new.count self.new.bits
            ≡ decoded cycle false (self.old.since ∷ self.old.colours ∷ self.old.last
            ∷ bits_in self.old.count self.old.bits) }
    {
        let bits = 2 * self.bits + bit_of(cycle.saturating_sub(self.since));
        if self.count == 23 {
            *self = Ws2812 {
                since: cycle,
                colours: self.colours.saturating_add(1),
                last: bits,
                count: 0,
                bits: 0,
            };
            return;
        }
        *self = Ws2812 {
            since: cycle,
            colours: self.colours,
            last: self.last,
            count: self.count + 1,
            bits,
        };
    }
}

/// The lower-case hexadecimal digit of a number below 16.
fn hex_digit_of(digit: u32) -> u8
    requires { digit < 16 }
    ensures { result ≡ digit_char digit }
{
    if digit < 10 {
        b'0' + digit as u8
    } else {
        b'a' - 10 + digit as u8
    }
}

/// Appends the six digits of a colour.
#[tactic(auto, unfolding(crate::specs::Ws2812::hex_colour))]
fn push_colour<const N: usize>(colour: u32, out: &mut ArrayVec<u8, N>)
    requires { array_vec_len out.old + 6 ≤ N }
    ensures { out.new.items ≡ out.old.items ++ hex_colour colour }
{
    out.push(hex_digit_of(colour / 0x10_0000 % 16));
    out.push(hex_digit_of(colour / 0x1_0000 % 16));
    out.push(hex_digit_of(colour / 0x1000 % 16));
    out.push(hex_digit_of(colour / 0x100 % 16));
    out.push(hex_digit_of(colour / 0x10 % 16));
    out.push(hex_digit_of(colour % 16));
}

impl Probe for Ws2812 {
    ghost state = { λ s. s.since ∷ s.colours ∷ s.last ∷ bits_in s.count s.bits };

    ghost meaning = { λ s. ws2812 };

    fn aim(&mut self, _pin: u8) {
        *self = Ws2812::new();
    }

    fn edge(&mut self, cycle: u64, level: bool) {
        if level {
            self.rise(cycle);
        } else {
            self.fall(cycle);
        }
    }

    fn line(&self, out: &mut ArrayVec<u8, 120>) {
        out.clear();
        push_text(b"colours ", out);
        push_number(self.colours, out);
        push_text(b" last ", out);
        push_colour(self.last, out);
    }
}

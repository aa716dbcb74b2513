//! What the pads are stepped by in a cycle, in words.

ghost use Rattle.std.specs.Prelude.{◌≡◌, ◌+◌, ◌*◌, ◌^◌, ◌∷◌, [], true};
ghost use Rattle.outer_lane.specs.Rest.{outs_by};

use crate::world::SeenOutputs;
use io_bank::Outs;
use pin_script::Drives;

/// All pins.
pub(crate) const PINS: u32 = 0x3fff_ffff;

/// The outputs of the parts but SIO, by pin, and what is driven from outside.
#[derive(Clone, Copy)]
pub struct Drivers {
    pub pio0_levels: u32,
    pub pio0_enables: u32,
    pub pio1_levels: u32,
    pub pio1_enables: u32,
    pub pwm: u32,
    pub uart_levels: u32,
    pub uart_enables: u32,
    pub driven: u32,
    pub high: u32,
}

impl Drivers {
    /// Nothing is driven.
    pub(crate) const NONE: Drivers = Drivers {
        pio0_levels: 0,
        pio0_enables: 0,
        pio1_levels: 0,
        pio1_enables: 0,
        pwm: 0,
        uart_levels: 0,
        uart_enables: 0,
        driven: 0,
        high: 0,
    };

    /// Each word but those of PWM and of the UARTs is what is seen and driven.
    #[inline(always)]
    pub(crate) fn is_driven_by(&self, seen: &SeenOutputs, drives: Drives) -> bool
        ensures pio0 { result ≡ true
            → seen.now.pio0 ≡ self.now.pio0_levels ∷ self.now.pio0_enables ∷ [] }
        ensures pio1 { result ≡ true
            → seen.now.pio1 ≡ self.now.pio1_levels ∷ self.now.pio1_enables ∷ [] }
        ensures driven { result ≡ true → drives.driven ≡ self.now.driven }
        ensures high { result ≡ true → drives.high ≡ self.now.high }
    {
        are_same(seen.pio0, [self.pio0_levels, self.pio0_enables])
            && are_same(seen.pio1, [self.pio1_levels, self.pio1_enables])
            && self.driven == drives.driven
            && self.high == drives.high
    }

    /// The UARTs put out what is put out.
    #[inline(always)]
    pub(crate) fn has_uarts(&self, outs: [u32; 2]) -> bool
        ensures { result ≡ true → outs ≡ self.now.uart_levels ∷ self.now.uart_enables ∷ [] }
    {
        are_same(outs, [self.uart_levels, self.uart_enables])
    }

    /// The outputs of all parts, where SIO puts these out.
    #[inline(always)]
    pub(crate) fn outs(&self, sio: [u32; 2]) -> Outs
        ensures { result ≡ outs_by sio self.now }
    {
        Outs {
            sio,
            pio0: [self.pio0_levels, self.pio0_enables],
            pio1: [self.pio1_levels, self.pio1_enables],
            pwm: [self.pwm, PINS],
            uart: [self.uart_levels, self.uart_enables],
        }
    }
}

/// Two pairs are the same. Each is compared as one number.
#[inline(always)]
fn are_same(first: [u32; 2], second: [u32; 2]) -> bool
    ensures { result ≡ true → first ≡ second }
{
    let [low, high] = first;
    let [other_low, other_high] = second;
    joined(low, high) == joined(other_low, other_high)
}

/// Two words as one number.
#[inline(always)]
fn joined(low: u32, high: u32) -> u64
    ensures { result ≡ low + high * 2 ^ 32 }
{
    u64::from(low) | (u64::from(high) << 32)
}

//! What the control words of all pins say, as sets of pins, by which a step treats all pins at once.

ghost use Rattle.std.specs.Prelude.{◌≡◌, ◌<◌};
ghost use Rattle.io_bank.specs.Routes.{override_of, routes_of, routed_override, routed_mix, routed_driven, routed_levels, routed_inputs};

use crate::outputs::Outs;
use crate::sets::{PINS, pins_with};

/// The pins whose signal passes, as it is or inverted, those whose signal is inverted, and those whose signal is high.
#[derive(Clone, Copy)]
pub struct Override {
    pub passes: u32,
    pub flips: u32,
    pub sets: u32,
}

/// The pins of each function, the overrides, and the pads whose output is not disabled (OD), whose input is enabled (IE)
/// and which are pulled up (PUE).
#[derive(Clone, Copy)]
pub struct Routes {
    pub uart: u32,
    pub pwm: u32,
    pub sio: u32,
    pub pio0: u32,
    pub pio1: u32,
    pub out: Override,
    pub enable: Override,
    pub input: Override,
    pub drives: u32,
    pub senses: u32,
    pub pulls: u32,
}

impl Override {
    /// The override whose two bits begin at bit `low` of each control word.
    fn of(controls: &[u32; 30], low: u32) -> Override
        requires { low < 32 }
        ensures { result ≡ override_of controls.now low }
    {
        let flips = pins_with(controls, low, 4, 1);
        Override {
            passes: pins_with(controls, low, 4, 0) | flips,
            flips,
            sets: pins_with(controls, low, 4, 3),
        }
    }

    /// The signals under the override.
    #[inline]
    fn apply(&self, signals: u32) -> u32
        ensures { result ≡ routed_override self.now signals }
    {
        ((signals ^ self.flips) & self.passes) | self.sets
    }
}

impl Routes {
    /// What the control words and the pads' registers say.
    pub(crate) fn of(controls: &[u32; 30], pads: &[u32; 30]) -> Routes
        ensures { result ≡ routes_of controls.now pads.now }
    {
        Routes {
            uart: pins_with(controls, 0, 32, 2),
            pwm: pins_with(controls, 0, 32, 4),
            sio: pins_with(controls, 0, 32, 5),
            pio0: pins_with(controls, 0, 32, 6),
            pio1: pins_with(controls, 0, 32, 7),
            out: Override::of(controls, 8),
            enable: Override::of(controls, 12),
            input: Override::of(controls, 16),
            drives: pins_with(pads, 7, 2, 0),
            senses: pins_with(pads, 6, 2, 1),
            pulls: pins_with(pads, 3, 2, 1),
        }
    }

    /// The pins' own levels or enables, out of those of the parts.
    #[inline]
    fn mixed(&self, uart: u32, pwm: u32, sio: u32, pio0: u32, pio1: u32) -> u32
        ensures { result ≡ routed_mix self.now uart pwm sio pio0 pio1 }
    {
        (uart & self.uart)
            | (pwm & self.pwm)
            | (sio & self.sio)
            | (pio0 & self.pio0)
            | (pio1 & self.pio1)
    }

    /// The levels of the pads, where outside drives some pins, and some of them high.
    #[inline]
    pub(crate) fn levels(&self, outs: &Outs, driven: u32, high: u32) -> u32
        ensures { result ≡ routed_levels self.now outs.now driven high }
    {
        let level = self.out.apply(self.mixed(
            outs.uart[0],
            outs.pwm[0],
            outs.sio[0],
            outs.pio0[0],
            outs.pio1[0],
        ));
        let outside = self.pulls ^ ((self.pulls ^ high) & driven);
        (outside ^ ((outside ^ level) & self.driven(outs))) & PINS
    }

    /// The pads that the chip drives.
    #[inline]
    pub(crate) fn driven(&self, outs: &Outs) -> u32
        ensures { result ≡ routed_driven self.now outs.now }
    {
        let enable = self.enable.apply(self.mixed(
            outs.uart[1],
            outs.pwm[1],
            outs.sio[1],
            outs.pio0[1],
            outs.pio1[1],
        ));
        enable & self.drives
    }

    /// The inputs at levels of the pads.
    #[inline]
    pub(crate) fn inputs(&self, levels: u32) -> u32
        ensures { result ≡ routed_inputs self.now levels }
    {
        self.input.apply(levels & self.senses)
    }
}

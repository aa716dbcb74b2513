//! What the registers of a machine say, ready to be used.

ghost use Rattle.std.specs.Prelude.{◌≡◌};
ghost use Rattle.pio_machine.specs.Ready.{limit, settings_of};

use crate::machine::Machine1;
use crate::pins::pins_from;

/// What the registers of a machine say.
#[derive(Clone, Copy)]
pub struct Settings {
    /// The pins that OUT writes, pin 0 in bit 0.
    pub(crate) out_mask: u32,
    /// Under autopull the OSR is spent from this count on, 1 to 32; without it 256, which no count reaches.
    pub(crate) limit: u32,
    /// WRAP_TOP.
    pub(crate) top: u8,
    /// WRAP_BOTTOM.
    pub(crate) bottom: u8,
    /// How many words the TX FIFO holds.
    pub tx_depth: u8,
    /// The 256ths of a cycle between two ticks.
    pub(crate) period: u32,
    /// How many of bits 12:8 of a word are its delay, 0 to 5; those above them are for side-set.
    pub(crate) delay_bits: u8,
    /// Bit 12 of a word says whether it has a side-set value.
    pub(crate) side_enable: bool,
    /// Side-set drives enables in place of levels.
    pub(crate) side_pindir: bool,
    /// The pin of the lowest bit of a side-set value, 0 to 31.
    pub(crate) side_base: u32,
    /// The pins that side-set writes, pin 0 in bit 0.
    pub(crate) side_mask: u32,
}

/// The count of bits shifted out from which on the OSR is loaded.
fn limit(machine: &Machine1) -> u32
    ensures { result ≡ limit machine.now }
{
    if machine.autopull() {
        u32::from(machine.pull_threshold())
    } else {
        256
    }
}

impl Settings {
    /// What the registers of this machine say.
    pub fn of(machine: &Machine1) -> Settings
        ensures { result ≡ settings_of machine.now }
    {
        Settings {
            out_mask: pins_from(machine.out_base(), machine.out_count()),
            limit: limit(machine),
            top: machine.wrap_top(),
            bottom: machine.wrap_bottom(),
            tx_depth: machine.tx_depth(),
            period: machine.divider(),
            delay_bits: 5 - machine.side_count(),
            side_enable: machine.side_enable(),
            side_pindir: machine.side_pindir(),
            side_base: machine.side_base(),
            side_mask: pins_from(machine.side_base(), machine.side_pins()),
        }
    }
}

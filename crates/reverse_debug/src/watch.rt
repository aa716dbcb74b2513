//! What is watched on a run.

ghost use Rattle.std.specs.Prelude.{◌≡◌};
ghost use Rattle.reverse_debug.specs.Reading.{sought, IsThere};
ghost use Rattle.reverse_debug.specs.Reply.{seen, word_at, is_begun, happens_by, ends_by};

use rp_base::bits::has_bit;
use rp_machine::Machine;

/// What is watched on a run.
#[derive(Clone, Copy)]
pub enum Watched {
    /// The word of SRAM at an address.
    Word(u32),
    /// The level of a pin, 0 to 29.
    Pin(u8),
    /// What core 0 or 1 begins: the instruction at an address, or each one.
    Begun(u8, Option<u32>),
}

/// The word of SRAM at an address, 0 where it is not in SRAM.
pub(crate) fn word_at(machine: &Machine, address: u32) -> u32
    ensures { result ≡ word_at machine.now address }
{
    match machine.word(address) {
        Some(word) => word,
        None => 0,
    }
}

/// An instruction is begun, and it is the one at an address, where one is given.
#[inline(always)]
pub(crate) fn is_begun(address: Option<u32>, begun: Option<u32>) -> bool
    ensures { result ≡ is_begun address begun }
{
    match (address, begun) {
        (_, None) => false,
        (None, Some(_)) => true,
        (Some(address), Some(begun)) => begun == address,
    }
}

/// What is there of it at the machine's cycle: the word, or the level as 0 or 1, or 1 where the core begins the instruction.
pub(crate) fn seen(machine: &Machine, watched: Watched) -> u32
    requires { IsThere watched }
    ensures { result ≡ seen (sought watched) machine.now }
{
    match watched {
        Watched::Word(address) => word_at(machine, address),
        Watched::Pin(pin) => {
            if has_bit(machine.pads(), u32::from(pin)) {
                1
            } else {
                0
            }
        }
        Watched::Begun(core, address) => {
            if is_begun(address, machine.begins(core)) {
                1
            } else {
                0
            }
        }
    }
}

/// It happens in a cycle, by what is seen before and after its step.
pub(crate) fn happens_by(watched: Watched, before: u32, after: u32) -> bool
    ensures { result ≡ happens_by (sought watched) before after }
{
    match watched {
        Watched::Begun(..) => before == 1,
        Watched::Word(_) | Watched::Pin(_) => after != before,
    }
}

/// A move forward ends behind a cycle, by what is seen before and after its step.
pub(crate) fn ends_by(watched: Watched, before: u32, after: u32) -> bool
    ensures { result ≡ ends_by (sought watched) before after }
{
    match watched {
        Watched::Begun(..) => after == 1,
        Watched::Word(_) | Watched::Pin(_) => after != before,
    }
}

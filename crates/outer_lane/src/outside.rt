//! What drives the pads from outside: the script, and where it leaves a pin free the device.

ghost use Rattle.std.specs.Prelude.{◌≡◌, ◌<◌, ℕ};
ghost use Rattle.io_bank.specs.Levels.{by_sets};
ghost use Rattle.outer_lane.specs.Step.{either, outside_of};

use lane_look::Wires;
use pin_script::{Cursor, Drives, Script};

/// What the script and the device drive in a cycle.
#[inline(always)]
#[tactic(auto, using(crate::proofs::Staying::empty_outside))]
pub(crate) fn drives(script: &Script, cursor: &mut Cursor, wires: &Wires, cycle: u64) -> Drives
    ensures { (pin : ℕ) → pin < 30 → by_sets result.driven result.high pin
        ≡ outside_of script.now wires.now cycle pin }
{
    if script.as_slice().is_empty() {
        return Drives {
            driven: wires.mask,
            high: wires.level,
        };
    }
    outside(script, cursor, wires, cycle)
}

/// The same, by the entries of the script.
#[inline(never)]
#[tactic(auto, unfolding(crate::specs::Step::outside_of))]
fn outside(script: &Script, cursor: &mut Cursor, wires: &Wires, cycle: u64) -> Drives
    ensures { (pin : ℕ) → pin < 30 → by_sets result.driven result.high pin
        ≡ outside_of script.now wires.now cycle pin }
{
    let found = cursor.drives(script, cycle);
    joined(found.driven, found.high, wires)
}

/// The device drives the pins that the script leaves free.
#[tactic(auto, using(crate::proofs::Sets::joined_sets))]
fn joined(driven: u32, high: u32, wires: &Wires) -> Drives
    ensures { (pin : ℕ) → pin < 30 → by_sets result.driven result.high pin
        ≡ either (by_sets driven high pin) (by_sets wires.now.mask wires.now.level pin) }
{
    Drives {
        driven: driven | wires.mask,
        high: (high & driven) | (wires.level & !driven),
    }
}

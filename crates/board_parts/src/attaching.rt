//! Which parts are attached: those that wirings name.

ghost use Rattle.std.specs.Prelude.{◌≡◌, ◌+◌, ◌++◌, ◌≤◌, map, true, IfOk, MatchOption};
ghost use Rattle.board_parts.specs.Parts.{placed_at, parts_device};
ghost use Rattle.board_parts.specs.Wiring.{all_fit, all_words, counts_of, fits_where, pins_for, placed_by, placed_where, wired_in};

use crate::part::Part;
use crate::parts::Row;
use crate::wiring::Wiring;
use lane_look::Device;
use std::alloc::{AllocError, Global};

/// The pins that the wirings name for the part of an index.
fn pins_for(index: u64, wirings: &[Wiring]) -> Option<&[u8]>
    ensures { MatchOption result (pins_for index (map wired_in wirings.now) ≡ None)
        (λ pins. pins_for index (map wired_in wirings.now) ≡ Some pins.now) }
{
    for wiring in wirings {
        if wiring.index == index {
            return Some(&wiring.pins);
        }
    }
    None
}

/// Attaches a part where the wirings name pins for it, and adds it behind others; else drops it.
fn attach_next<P: Part>(
    index: u64,
    part: P,
    wirings: &[Wiring],
    placed: &mut Vec<P>,
) -> Result<(), AllocError>
    requires { fits_where (P.meaning part).pins (pins_for index (map wired_in wirings.now)) ≡ true }
    ensures { IfOk result (λ done. map (λ p. placed_at (P.attached p) (P.meaning p)) placed.new.items
        ≡ map (λ p. placed_at (P.attached p) (P.meaning p)) placed.old.items
        ++ placed_where (P.meaning part) (pins_for index (map wired_in wirings.now))) }
{
    if let Some(pins) = pins_for(index, wirings) {
        let mut part = part;
        part.attach(pins);
        placed.push(part)?;
    }
    Ok(())
}

/// Attaches the parts that the wirings name, each to its pins, in the order of the parts, and drops the others. What is left is one device.
/// All parts have at most 128 words together.
///
/// # Errors
///
/// `AllocError` where memory runs out.
#[tactic(auto, using(crate::proofs::Placing::all_fit_first))]
pub fn attach_all<P: Part + Sync>(
    alloc: Global,
    parts: Vec<P>,
    wirings: &[Wiring],
) -> Result<Row<P>, AllocError>
    requires fit { all_fit (counts_of (map P.meaning parts.items))
        (map wired_in wirings.now) ≡ true }
    requires room { all_words (map P.meaning parts.items) ≤ 128 }
    ensures device { IfOk result (λ device. ⟦<Row<P> as Device>⟧.meaning device
        ≡ parts_device (placed_by (map P.meaning parts.items) (map wired_in wirings.now))) }
    ensures words { IfOk result (λ device. (⟦<Row<P> as Device>⟧.meaning device).count
        ≤ all_words (map P.meaning parts.items)) }
{
    let mut placed = Vec::new(alloc);
    let mut index = 0;
    for part in parts {
        attach_next(index, part, wirings, &mut placed)?;
        index += 1;
    }
    Ok(Row::new(placed))
}

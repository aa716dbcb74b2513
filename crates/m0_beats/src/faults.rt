//! Which instructions fault at their addresses, and which begin an exception return.

ghost use Rattle.std.specs.Prelude.{◌≡◌};
ghost use Rattle.m0_beats.specs.Beats.{bytes_of, is_unaligned_beat};
ghost use Rattle.m0_beats.specs.Instructions.{is_unaligned_of, return_of};
ghost use Rattle.std.specs.List.{list_any};
ghost use Rattle.m0_beats.specs.Shapes.{beats_of_shape, TellsUnaligned};
ghost use Rattle.m0_beats.specs.Effects.{returned, last_read};

use crate::conditions::is_exception_return;
use crate::effects::{is_listed, value_at};
use crate::registers::Regs;
use crate::rows::{Action, classify};
use crate::table::{Shape, shape_of};
use rp_base::Size;
use rp_base::op::Op;

/// The instruction makes an access whose address is no multiple of its size, and so faults (ARMv6-M Architecture Reference
/// Manual, A3.2.1).
#[tactic(auto, unfolding(crate::specs::Instructions::is_unaligned_of, crate::specs::Instructions::beats_of))]
pub fn is_unaligned(op: &Op, regs: &Regs) -> bool
    ensures { result ≡ is_unaligned_of op.now regs.now }
{
    shape_is_unaligned(&shape_of(op, regs), regs)
}

/// A row of the table has such an access, as `is_unaligned` says.
#[inline(always)]
pub fn shape_is_unaligned(shape: &Shape, regs: &Regs) -> bool
    ensures { result ≡ list_any is_unaligned_beat (beats_of_shape shape.now regs.now) }
{
    match *shape {
        Shape::Once | Shape::Twice | Shape::Thrice => false,
        Shape::Single(address, size, _) => address % bytes(size) != 0,
        Shape::Reads(from, list) => are_unaligned(list, from),
        Shape::Writes(from, list) => are_unaligned(list, from),
        Shape::Pop(list) => are_unaligned(list, regs.active_sp()),
    }
}

/// How many bytes an access has.
fn bytes(size: Size) -> u32
    ensures { result ≡ bytes_of size }
{
    match size {
        Size::Byte => 1,
        Size::Half => 2,
        Size::Word => 4,
    }
}

/// The words of a list are unaligned: there are some, and the first is.
#[tactic(auto, using(crate::proofs::Unaligned::empty_list, crate::proofs::Unaligned::some_list))]
fn are_unaligned(list: u16, address: u32) -> bool
    ensures { TellsUnaligned result address list }
{
    list != 0 && address % 4 != 0
}

/// The value with which the instruction begins an exception return, if it does: it is a BX or a POP of PC in Handler mode
/// whose value stands for no address. `read` is as for `effect`, which then leaves PC at the instruction.
#[tactic(auto, unfolding(crate::specs::Instructions::return_of))]
pub fn exception_return(op: &Op, regs: &Regs, read: &[u32]) -> Option<u32>
    ensures { result ≡ return_of op.now regs.now read.now }
{
    match classify(op) {
        Action::Exchange(m) => return_value(regs, regs.register(m)),
        Action::Pop(list) if is_listed(list, 15) => return_value(regs, last_read(list, read)),
        _ => None,
    }
}

/// A value, where it begins an exception return.
fn return_value(regs: &Regs, value: u32) -> Option<u32>
    ensures { result ≡ returned regs.now value }
{
    if is_exception_return(regs.ipsr, value) {
        Some(value)
    } else {
        None
    }
}

/// The last value that the registers of a list take.
#[tactic(auto, using(crate::proofs::Lists::registers_count))]
fn last_read(list: u16, read: &[u32]) -> u32
    ensures { result ≡ last_read list read.now }
{
    let count = list.count_ones() as usize;
    value_at(read, count.saturating_sub(1))
}

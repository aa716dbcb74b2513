//! The table of beats (ARM Cortex-M0+ Technical Reference Manual, 3.3): which beats the instructions of each kind have.

ghost use Rattle.std.specs.Prelude.{◌≡◌, ◌+◌, ◌%◌, ◌^◌};
ghost use Rattle.m0_beats.specs.Actions.{value_of, meaning_of_action};
ghost use Rattle.m0_beats.specs.Beats.{stored};
ghost use Rattle.m0_beats.specs.Instructions.{beats_of};
ghost use Rattle.m0_beats.specs.Registers.{register_of};
ghost use Rattle.m0_beats.specs.Shapes.{beats_of_shape};

use crate::effects::push_address;
use crate::registers::Regs;
use crate::rows::{Action, Operand, classify};
use rp_base::Size;
use rp_base::op::Op;

/// The beats of an instruction. A list has bit k for Rk, bit 14 for LR and bit 15 for PC.
#[derive(Clone, Copy)]
pub enum Shape {
    /// One inner beat.
    Once,
    /// Two inner beats.
    Twice,
    /// Three inner beats.
    Thrice,
    /// An access of a size at an address, which writes this or reads, behind an inner beat where the address is not one of the
    /// single-cycle port.
    Single(u32, Size, Option<u32>),
    /// An inner beat, and the reads of the registers of a list from an address upwards.
    Reads(u32, u16),
    /// An inner beat, and the writes of the registers of a list from an address upwards.
    Writes(u32, u16),
    /// An inner beat, the reads of the registers of a list from the stack pointer upwards, and two inner ones where PC is read.
    Pop(u16),
}

/// The beats of an instruction by the table, so that a caller that asks more than once of them looks it up once.
#[inline(always)]
#[tactic(auto, unfolding(crate::specs::Instructions::beats_of))]
pub fn shape_of(op: &Op, regs: &Regs) -> Shape
    ensures { beats_of_shape result regs.now ≡ beats_of op.now regs.now }
{
    let action = classify(op);
    action_shape(&action, regs)
}

/// The beats of an action: the rows of the table.
#[inline(always)]
pub(crate) fn action_shape(action: &Action, regs: &Regs) -> Shape
    ensures { beats_of_shape result regs.now ≡ (meaning_of_action action.now).beats regs.now }
{
    match *action {
        Action::Move(d, _) | Action::Total(d, _, _) => {
            if d >= 15 { Shape::Twice } else { Shape::Once }
        }
        Action::Branch(..) | Action::Exchange(..) | Action::ExchangeLink(..) | Action::Pause =>
            Shape::Twice,
        Action::BranchIf(condition, _) => {
            if regs.condition_holds(condition) {
                Shape::Twice
            } else {
                Shape::Once
            }
        }
        Action::BranchLink(..)
        | Action::ReadSpecial(..)
        | Action::WriteSpecial(..)
        | Action::Barrier => Shape::Thrice,
        Action::Load(_, size, _, x, y) => Shape::Single(address(x, y, regs), size, None),
        Action::Store(t, size, x, y) => Shape::Single(
            address(x, y, regs),
            size,
            Some(stored(size, regs.register(t))),
        ),
        Action::LoadMany(n, list) => Shape::Reads(regs.register(n), list),
        Action::StoreMany(n, list) => Shape::Writes(regs.register(n), list),
        Action::Push(list) => Shape::Writes(push_address(list, regs), list),
        Action::Pop(list) => Shape::Pop(list),
        Action::Shift(..)
        | Action::Sum(..)
        | Action::Word(..)
        | Action::Extend(..)
        | Action::LowerSp(..)
        | Action::Mask(..)
        | Action::Nothing
        | Action::Never => Shape::Once,
    }
}

/// The address of a single load or store.
#[inline(always)]
fn address(x: Operand, y: Operand, regs: &Regs) -> u32
    ensures { result ≡ (value_of x (register_of regs.now) + value_of y (register_of regs.now)) % 2 ^ 32 }
{
    x.value(regs).wrapping_add(y.value(regs))
}

/// The low bytes of a register.
#[inline(always)]
fn stored(size: Size, value: u32) -> u32
    ensures { result ≡ stored size value }
{
    match size {
        Size::Byte => value & 0xff,
        Size::Half => value & 0xffff,
        Size::Word => value,
    }
}

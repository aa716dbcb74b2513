//! How many beats an instruction has, by the timing table (ARM Cortex-M0+ Technical Reference Manual, 3.3).

ghost use Rattle.std.specs.Prelude.{◌≡◌, ◌+◌, ◌-◌, ◌^◌, ◌<◌, ◌≤◌, true, nat_lt, length};
ghost use Rattle.m0_beats.specs.Beats.{registers_of};
ghost use Rattle.m0_beats.specs.Instructions.{beats_of};
ghost use Rattle.m0_beats.specs.Shapes.{beats_of_shape, is_one_access};

use crate::effects::is_listed;
use crate::registers::Regs;
use crate::table::{Shape, shape_of};
use rp_base::op::Op;

/// How many beats the instruction has: the length of the list that `beats` gives.
#[inline(always)]
pub fn beat_count(op: &Op, regs: &Regs) -> usize
    ensures { result ≡ length (beats_of op.now regs.now) }
{
    shape_count(&shape_of(op, regs), regs)
}

/// A load or a store of one register.
#[inline(always)]
pub fn is_one_access(op: &Op) -> bool
    ensures { result ≡ is_one_access op.now }
{
    matches!(
        op,
        Op::LdrLit { .. }
            | Op::StrReg { .. }
            | Op::StrhReg { .. }
            | Op::StrbReg { .. }
            | Op::LdrsbReg { .. }
            | Op::LdrReg { .. }
            | Op::LdrhReg { .. }
            | Op::LdrbReg { .. }
            | Op::LdrshReg { .. }
            | Op::StrImm { .. }
            | Op::LdrImm { .. }
            | Op::StrbImm { .. }
            | Op::LdrbImm { .. }
            | Op::StrhImm { .. }
            | Op::LdrhImm { .. }
            | Op::StrSp { .. }
            | Op::LdrSp { .. }
    )
}

/// Where so many beats of an instruction are done, and one more, it has another one. The second beat of a load or a store of one
/// register is its last, whatever the address; and of a branch by an offset no row is looked up.
#[inline(always)]
#[tactic(auto, unfolding(crate::specs::Instructions::beats_of))]
pub fn has_more(op: &Op, regs: &Regs, done: usize) -> bool
    ensures value { result ≡ nat_lt (done + 1) (length (beats_of op.now regs.now)) }
    ensures room { result ≡ true → done < 2 ^ 64 - 1 }
{
    match *op {
        Op::B { .. } => done == 0,
        Op::BCond { c, .. } => done == 0 && regs.condition_holds(c),
        _ if 0 < done && is_one_access(op) => false,
        _ => has_more_by_row(op, regs, done),
    }
}

/// The same, by the row of the table.
#[inline(never)]
fn has_more_by_row(op: &Op, regs: &Regs, done: usize) -> bool
    ensures value { result ≡ nat_lt (done + 1) (length (beats_of op.now regs.now)) }
    ensures room { result ≡ true → done < 2 ^ 64 - 1 }
{
    let count = beat_count(op, regs);
    count > 1 && done < count - 1
}

/// How many beats a row of the table has.
#[inline(always)]
#[tactic(auto, using(crate::proofs::OneBeat::many_count, crate::proofs::OneBeat::pop_count_pc, crate::proofs::OneBeat::pop_count_low))]
fn shape_count(shape: &Shape, regs: &Regs) -> usize
    ensures { result ≡ length (beats_of_shape shape.now regs.now) }
{
    match *shape {
        Shape::Once => 1,
        Shape::Twice => 2,
        Shape::Thrice => 3,
        Shape::Single(address, _, _) => { if address >> 28 == 0xd { 1 } else { 2 } }
        Shape::Reads(_, list) => 1 + register_count(list),
        Shape::Writes(_, list) => 1 + register_count(list),
        Shape::Pop(list) => {
            if is_listed(list, 15) {
                3 + register_count(list)
            } else {
                1 + register_count(list)
            }
        }
    }
}

/// How many registers a list has.
#[tactic(auto, using(crate::proofs::Lists::registers_count))]
fn register_count(list: u16) -> usize
    ensures count { result ≡ length (registers_of list) }
    ensures room { result ≤ 16 }
{
    list.count_ones() as usize
}

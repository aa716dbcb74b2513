//! The rows of the encoding tables, gathered by what they do.

ghost use Rattle.std.specs.Prelude.{◌≡◌, ◌<◌, ◌≤◌, ◌^◌, ◌-◌, ◌+◌, ◌*◌, ◌==◌};
ghost use Rattle.rp_base.specs.Word.{bit_number, has_bit};
ghost use Rattle.m0_beats.specs.Actions.{meaning_of_action};
ghost use Rattle.m0_beats.specs.Instructions.{meaning_of, right_amount, sign_extended, link_offset};

use crate::registers::one;
use Operand::{AlignedPc, Number, Register};
use m0_alu::{ExtendKind, ShiftKind};
use rp_base::Size;
use rp_base::op::Op;

/// A value that an instruction works on.
#[derive(Clone, Copy)]
pub enum Operand {
    /// A register by its number: 13 is the active stack pointer, 14 LR, 15 the instruction's address plus 4.
    Register(u8),
    /// A number.
    Number(u32),
    /// The instruction's address plus 4, rounded down to a multiple of 4.
    AlignedPc,
}

/// How a sum is made of two operands.
#[derive(Clone, Copy)]
pub enum SumKind {
    /// Their sum.
    Add,
    /// Their difference.
    Sub,
    /// Their sum and the carry.
    Adc,
    /// Their difference, less one where the carry is clear.
    Sbc,
}

/// How a word whose sign and zero alone set flags is made of two operands.
#[derive(Clone, Copy)]
pub enum WordKind {
    /// The bits of both.
    And,
    /// The bits of one alone.
    Eor,
    /// The bits of either.
    Orr,
    /// The bits of the first that the second lacks.
    Bic,
    /// The second.
    Mov,
    /// The complement of the second.
    Mvn,
    /// The low word of the product.
    Mul,
}

/// What the instructions of some rows do. A destination that is `None` is a comparison's. A list has bit k for Rk, bit 14
/// for LR and bit 15 for PC.
#[derive(Clone, Copy)]
pub enum Action {
    /// Shifts the second register by the low byte of the operand into the first; sets N, Z and C.
    Shift(ShiftKind, u8, u8, Operand),
    /// A sum into the destination; sets N, Z, C and V.
    Sum(SumKind, Option<u8>, Operand, Operand),
    /// A word into the destination; sets N and Z.
    Word(WordKind, Option<u8>, Operand, Operand),
    /// Extends the second register, or reverses its bytes, into the first.
    Extend(ExtendKind, u8, u8),
    /// Moves the second register into the first, which may be any.
    Move(u8, u8),
    /// Puts a sum into any register, with no flags.
    Total(u8, Operand, Operand),
    /// Takes a number off the stack pointer.
    LowerSp(u32),
    /// Loads a register, as a signed number where the flag is set, from the sum of two operands.
    Load(u8, Size, bool, Operand, Operand),
    /// Stores a register to the sum of two operands.
    Store(u8, Size, Operand, Operand),
    /// Loads the registers of a list from a base register upwards.
    LoadMany(u8, u16),
    /// Stores the registers of a list from a base register upwards.
    StoreMany(u8, u16),
    /// Stores the registers of a list below the stack pointer.
    Push(u16),
    /// Loads the registers of a list from the stack pointer upwards.
    Pop(u16),
    /// Branches by some bytes, modulo 2^32, from the instruction's address plus 4.
    Branch(u32),
    /// Branches so where the condition holds.
    BranchIf(u8, u32),
    /// Branches so, and leaves the return address in LR.
    BranchLink(u32),
    /// Branches to a register, which may begin an exception return.
    Exchange(u8),
    /// Branches to a register, and leaves the return address in LR.
    ExchangeLink(u8),
    /// Reads a special register, by SYSm, into a register.
    ReadSpecial(u8, u8),
    /// Writes a register into a special register, by SYSm.
    WriteSpecial(u8, u8),
    /// Sets or clears PRIMASK.
    Mask(bool),
    /// DSB, DMB, ISB.
    Barrier,
    /// WFE, WFI: nothing but a second beat.
    Pause,
    /// NOP, YIELD, SEV, SVC: nothing in registers and flags.
    Nothing,
    /// BKPT, UDF and what no pattern fits: it never ends.
    Never,
}

/// What an instruction does.
#[inline(always)]
pub fn classify(op: &Op) -> Action
    ensures { meaning_of_action result ≡ meaning_of op.now }
{
    match *op {
        // A5.2.1, shifts by a number, sums and moves
        Op::LslImm { i, m, d } => Action::Shift(ShiftKind::Lsl, d, m, bytes(i)),
        Op::LsrImm { i, m, d } => Action::Shift(ShiftKind::Lsr, d, m, right_amount(i)),
        Op::AsrImm { i, m, d } => Action::Shift(ShiftKind::Asr, d, m, right_amount(i)),
        Op::AddReg { m, n, d } => Action::Sum(SumKind::Add, Some(d), Register(n), Register(m)),
        Op::SubReg { m, n, d } => Action::Sum(SumKind::Sub, Some(d), Register(n), Register(m)),
        Op::AddImm3 { i, n, d } => Action::Sum(SumKind::Add, Some(d), Register(n), bytes(i)),
        Op::SubImm3 { i, n, d } => Action::Sum(SumKind::Sub, Some(d), Register(n), bytes(i)),
        Op::MovImm { d, i } => Action::Word(WordKind::Mov, Some(d), Number(0), bytes(i)),
        Op::CmpImm { d, i } => Action::Sum(SumKind::Sub, None, Register(d), bytes(i)),
        Op::AddImm8 { d, i } => Action::Sum(SumKind::Add, Some(d), Register(d), bytes(i)),
        Op::SubImm8 { d, i } => Action::Sum(SumKind::Sub, Some(d), Register(d), bytes(i)),
        // A5.2.2, data processing
        Op::And { m, d } => Action::Word(WordKind::And, Some(d), Register(d), Register(m)),
        Op::Eor { m, d } => Action::Word(WordKind::Eor, Some(d), Register(d), Register(m)),
        Op::LslReg { m, d } => Action::Shift(ShiftKind::Lsl, d, d, Register(m)),
        Op::LsrReg { m, d } => Action::Shift(ShiftKind::Lsr, d, d, Register(m)),
        Op::AsrReg { m, d } => Action::Shift(ShiftKind::Asr, d, d, Register(m)),
        Op::Adc { m, d } => Action::Sum(SumKind::Adc, Some(d), Register(d), Register(m)),
        Op::Sbc { m, d } => Action::Sum(SumKind::Sbc, Some(d), Register(d), Register(m)),
        Op::Ror { m, d } => Action::Shift(ShiftKind::Ror, d, d, Register(m)),
        Op::Tst { m, d } => Action::Word(WordKind::And, None, Register(d), Register(m)),
        Op::Rsb { m, d } => Action::Sum(SumKind::Sub, Some(d), Number(0), Register(m)),
        Op::Cmp { m, d } => Action::Sum(SumKind::Sub, None, Register(d), Register(m)),
        Op::Cmn { m, d } => Action::Sum(SumKind::Add, None, Register(d), Register(m)),
        Op::Orr { m, d } => Action::Word(WordKind::Orr, Some(d), Register(d), Register(m)),
        Op::Mul { m, d } => Action::Word(WordKind::Mul, Some(d), Register(d), Register(m)),
        Op::Bic { m, d } => Action::Word(WordKind::Bic, Some(d), Register(d), Register(m)),
        Op::Mvn { m, d } => Action::Word(WordKind::Mvn, Some(d), Number(0), Register(m)),
        // A5.2.3, all registers and branches to a register
        Op::AddHigh { d, m } => Action::Total(d, Register(d), Register(m)),
        Op::CmpHigh { d, m } => Action::Sum(SumKind::Sub, None, Register(d), Register(m)),
        Op::MovHigh { d, m } => Action::Move(d, m),
        Op::Bx { m } => Action::Exchange(m),
        Op::Blx { m } => Action::ExchangeLink(m),
        // A5.2.4, single loads and stores
        Op::LdrLit { t, i } => Action::Load(t, Size::Word, false, AlignedPc, words(i)),
        Op::StrReg { m, n, t } => Action::Store(t, Size::Word, Register(n), Register(m)),
        Op::StrhReg { m, n, t } => Action::Store(t, Size::Half, Register(n), Register(m)),
        Op::StrbReg { m, n, t } => Action::Store(t, Size::Byte, Register(n), Register(m)),
        Op::LdrsbReg { m, n, t } => Action::Load(t, Size::Byte, true, Register(n), Register(m)),
        Op::LdrReg { m, n, t } => Action::Load(t, Size::Word, false, Register(n), Register(m)),
        Op::LdrhReg { m, n, t } => Action::Load(t, Size::Half, false, Register(n), Register(m)),
        Op::LdrbReg { m, n, t } => Action::Load(t, Size::Byte, false, Register(n), Register(m)),
        Op::LdrshReg { m, n, t } => Action::Load(t, Size::Half, true, Register(n), Register(m)),
        Op::StrImm { i, n, t } => Action::Store(t, Size::Word, Register(n), words(i)),
        Op::LdrImm { i, n, t } => Action::Load(t, Size::Word, false, Register(n), words(i)),
        Op::StrbImm { i, n, t } => Action::Store(t, Size::Byte, Register(n), bytes(i)),
        Op::LdrbImm { i, n, t } => Action::Load(t, Size::Byte, false, Register(n), bytes(i)),
        Op::StrhImm { i, n, t } => Action::Store(t, Size::Half, Register(n), halves(i)),
        Op::LdrhImm { i, n, t } => Action::Load(t, Size::Half, false, Register(n), halves(i)),
        Op::StrSp { t, i } => Action::Store(t, Size::Word, Register(13), words(i)),
        Op::LdrSp { t, i } => Action::Load(t, Size::Word, false, Register(13), words(i)),
        // A5.2.5, addresses, the stack pointer and extensions
        Op::Adr { d, i } => Action::Total(d, AlignedPc, words(i)),
        Op::AddSp { d, i } => Action::Total(d, Register(13), words(i)),
        Op::AddSpImm { i } => Action::Total(13, Register(13), words(i)),
        Op::SubSpImm { i } => Action::LowerSp(4 * u32::from(i)),
        Op::Sxth { m, d } => Action::Extend(ExtendKind::Sxth, d, m),
        Op::Sxtb { m, d } => Action::Extend(ExtendKind::Sxtb, d, m),
        Op::Uxth { m, d } => Action::Extend(ExtendKind::Uxth, d, m),
        Op::Uxtb { m, d } => Action::Extend(ExtendKind::Uxtb, d, m),
        Op::Push { r, l } => Action::Push(list_with(r, 14, l)),
        Op::Pop { r, l } => Action::Pop(list_with(r, 15, l)),
        Op::Cpsie => Action::Mask(false),
        Op::Cpsid => Action::Mask(true),
        Op::Rev { m, d } => Action::Extend(ExtendKind::Rev, d, m),
        Op::Rev16 { m, d } => Action::Extend(ExtendKind::Rev16, d, m),
        Op::Revsh { m, d } => Action::Extend(ExtendKind::Revsh, d, m),
        Op::Bkpt { .. } => Action::Never,
        Op::Nop => Action::Nothing,
        Op::Yield => Action::Nothing,
        Op::Wfe => Action::Pause,
        Op::Wfi => Action::Pause,
        Op::Sev => Action::Nothing,
        // A5.2, loads and stores of several registers, branches and calls
        Op::Stm { n, l } => Action::StoreMany(n, u16::from(l)),
        Op::Ldm { n, l } => Action::LoadMany(n, u16::from(l)),
        Op::BCond { c, i } => Action::BranchIf(c, signed_byte_offset(i)),
        Op::Udf { .. } => Action::Never,
        Op::Svc { .. } => Action::Nothing,
        Op::B { i } => Action::Branch(signed_offset(i)),
        // A5.3, instructions of two halfwords
        Op::Bl { s, i, j } => Action::BranchLink(link_offset(s, i, j)),
        Op::Msr { n, s } => Action::WriteSpecial(n, s),
        Op::Mrs { d, s } => Action::ReadSpecial(d, s),
        Op::Dsb => Action::Barrier,
        Op::Dmb => Action::Barrier,
        Op::Isb => Action::Barrier,
        Op::Undefined => Action::Never,
    }
}

/// A byte as a number.
fn bytes(i: u8) -> Operand
    ensures { result ≡ Operand.Number i }
{
    Number(u32::from(i))
}

/// A byte that counts halfwords, in bytes.
fn halves(i: u8) -> Operand
    ensures { result ≡ Operand.Number (2 * i) }
{
    Number(2 * u32::from(i))
}

/// A byte that counts words, in bytes.
fn words(i: u8) -> Operand
    ensures { result ≡ Operand.Number (4 * i) }
{
    Number(4 * u32::from(i))
}

/// The amount of a shift to the right by a number.
fn right_amount(i: u8) -> Operand
    ensures { result ≡ Operand.Number (right_amount i) }
{
    if i == 0 { Number(32) } else { bytes(i) }
}

/// A list of low registers, and one more where `more` is set.
fn list_with(more: bool, k: u8, l: u8) -> u16
    requires { k < 16 }
    ensures { result ≡ bit_number more * 2 ^ k + l }
{
    if more {
        (1 << k) + u16::from(l)
    } else {
        u16::from(l)
    }
}

/// A signed byte that counts halfwords, in bytes modulo 2^32.
fn signed_byte_offset(i: u8) -> u32
    ensures { result ≡ sign_extended 9 (2 * i) }
{
    let bytes = 2 * u32::from(i);
    if bytes < 0x100 {
        bytes
    } else {
        bytes + 0xffff_fe00
    }
}

/// A signed number of 11 bits that counts halfwords, in bytes modulo 2^32.
fn signed_offset(i: u16) -> u32
    ensures { result ≡ sign_extended 12 (2 * i) }
{
    let bytes = 2 * u32::from(i);
    if bytes < 0x800 {
        bytes
    } else {
        bytes.wrapping_add(0xffff_f000)
    }
}

/// The offset of BL in bytes modulo 2^32.
fn link_offset(s: bool, i: u32, j: u8) -> u32
    ensures { result ≡ link_offset s i j }
{
    let high = one(s == ((j >> 1) & 1 == 1)) * 0x80_0000 + one(s == (j & 1 == 1)) * 0x40_0000;
    let bytes = high + (i & 0x1f_ffff) * 2;
    if s { bytes + 0xff00_0000 } else { bytes }
}

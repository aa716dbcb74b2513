//! The operations of the forms, group by group: which operation a mnemonic names where its operands have a shape (ARMv6-M
//! Architecture Reference Manual, A6.7).

ghost use Rattle.std.specs.Prelude.{◌≡◌};
ghost use Rattle.thumb_parse.specs.FormOps.{alone_op, number_op, branch_op, low_op, three_op, byte_op, small_op, index_op, offset_op, stack_op, shift_op, adjust_op};

use crate::mnemonic::Mnemonic;
use rp_base::op::Op;

/// An instruction without operands.
pub(crate) fn alone_op(mnemonic: Mnemonic) -> Option<Op>
    ensures { result ≡ alone_op mnemonic }
{
    match mnemonic {
        Mnemonic::Nop => Some(Op::Nop),
        Mnemonic::Yield => Some(Op::Yield),
        Mnemonic::Wfe => Some(Op::Wfe),
        Mnemonic::Wfi => Some(Op::Wfi),
        Mnemonic::Sev => Some(Op::Sev),
        Mnemonic::Dsb => Some(Op::Dsb),
        Mnemonic::Dmb => Some(Op::Dmb),
        Mnemonic::Isb => Some(Op::Isb),
        _ => None,
    }
}

/// `bkpt`, `udf` or `svc` and a byte.
pub(crate) fn number_op(mnemonic: Mnemonic, i: u8) -> Option<Op>
    ensures { result ≡ number_op mnemonic i }
{
    match mnemonic {
        Mnemonic::Bkpt => Some(Op::Bkpt { i }),
        Mnemonic::Udf => Some(Op::Udf { i }),
        Mnemonic::Svc => Some(Op::Svc { i }),
        _ => None,
    }
}

/// `bx` or `blx` and a register.
pub(crate) fn branch_op(mnemonic: Mnemonic, m: u8) -> Option<Op>
    ensures { result ≡ branch_op mnemonic m }
{
    match mnemonic {
        Mnemonic::Bx => Some(Op::Bx { m }),
        Mnemonic::Blx => Some(Op::Blx { m }),
        _ => None,
    }
}

/// An instruction on two low registers.
pub(crate) fn low_op(mnemonic: Mnemonic, m: u8, d: u8) -> Option<Op>
    ensures { result ≡ low_op mnemonic m d }
{
    match mnemonic {
        Mnemonic::Ands => Some(Op::And { m, d }),
        Mnemonic::Eors => Some(Op::Eor { m, d }),
        Mnemonic::Lsls => Some(Op::LslReg { m, d }),
        Mnemonic::Lsrs => Some(Op::LsrReg { m, d }),
        Mnemonic::Asrs => Some(Op::AsrReg { m, d }),
        Mnemonic::Adcs => Some(Op::Adc { m, d }),
        Mnemonic::Sbcs => Some(Op::Sbc { m, d }),
        Mnemonic::Rors => Some(Op::Ror { m, d }),
        Mnemonic::Tst => Some(Op::Tst { m, d }),
        Mnemonic::Rsbs => Some(Op::Rsb { m, d }),
        Mnemonic::Cmn => Some(Op::Cmn { m, d }),
        Mnemonic::Orrs => Some(Op::Orr { m, d }),
        Mnemonic::Muls => Some(Op::Mul { m, d }),
        Mnemonic::Bics => Some(Op::Bic { m, d }),
        Mnemonic::Mvns => Some(Op::Mvn { m, d }),
        Mnemonic::Sxth => Some(Op::Sxth { m, d }),
        Mnemonic::Sxtb => Some(Op::Sxtb { m, d }),
        Mnemonic::Uxth => Some(Op::Uxth { m, d }),
        Mnemonic::Uxtb => Some(Op::Uxtb { m, d }),
        Mnemonic::Rev => Some(Op::Rev { m, d }),
        Mnemonic::Rev16 => Some(Op::Rev16 { m, d }),
        Mnemonic::Revsh => Some(Op::Revsh { m, d }),
        _ => None,
    }
}

/// `adds` or `subs` and three low registers.
pub(crate) fn three_op(mnemonic: Mnemonic, m: u8, n: u8, d: u8) -> Option<Op>
    ensures { result ≡ three_op mnemonic m n d }
{
    match mnemonic {
        Mnemonic::Adds => Some(Op::AddReg { m, n, d }),
        Mnemonic::Subs => Some(Op::SubReg { m, n, d }),
        _ => None,
    }
}

/// An instruction on a low register and a byte.
pub(crate) fn byte_op(mnemonic: Mnemonic, d: u8, i: u8) -> Option<Op>
    ensures { result ≡ byte_op mnemonic d i }
{
    match mnemonic {
        Mnemonic::Movs => Some(Op::MovImm { d, i }),
        Mnemonic::Cmp => Some(Op::CmpImm { d, i }),
        Mnemonic::Adds => Some(Op::AddImm8 { d, i }),
        Mnemonic::Subs => Some(Op::SubImm8 { d, i }),
        _ => None,
    }
}

/// `adds` or `subs`, two low registers and a number of three bits.
pub(crate) fn small_op(mnemonic: Mnemonic, i: u8, n: u8, d: u8) -> Option<Op>
    ensures { result ≡ small_op mnemonic i n d }
{
    match mnemonic {
        Mnemonic::Adds => Some(Op::AddImm3 { i, n, d }),
        Mnemonic::Subs => Some(Op::SubImm3 { i, n, d }),
        _ => None,
    }
}

/// A load or store by two registers.
pub(crate) fn index_op(mnemonic: Mnemonic, m: u8, n: u8, t: u8) -> Option<Op>
    ensures { result ≡ index_op mnemonic m n t }
{
    match mnemonic {
        Mnemonic::Str => Some(Op::StrReg { m, n, t }),
        Mnemonic::Strh => Some(Op::StrhReg { m, n, t }),
        Mnemonic::Strb => Some(Op::StrbReg { m, n, t }),
        Mnemonic::Ldrsb => Some(Op::LdrsbReg { m, n, t }),
        Mnemonic::Ldr => Some(Op::LdrReg { m, n, t }),
        Mnemonic::Ldrh => Some(Op::LdrhReg { m, n, t }),
        Mnemonic::Ldrb => Some(Op::LdrbReg { m, n, t }),
        Mnemonic::Ldrsh => Some(Op::LdrshReg { m, n, t }),
        _ => None,
    }
}

/// A load or store by a register and a number of units.
pub(crate) fn offset_op(mnemonic: Mnemonic, i: u8, n: u8, t: u8) -> Option<Op>
    ensures { result ≡ offset_op mnemonic i n t }
{
    match mnemonic {
        Mnemonic::Str => Some(Op::StrImm { i, n, t }),
        Mnemonic::Ldr => Some(Op::LdrImm { i, n, t }),
        Mnemonic::Strb => Some(Op::StrbImm { i, n, t }),
        Mnemonic::Ldrb => Some(Op::LdrbImm { i, n, t }),
        Mnemonic::Strh => Some(Op::StrhImm { i, n, t }),
        Mnemonic::Ldrh => Some(Op::LdrhImm { i, n, t }),
        _ => None,
    }
}

/// A load or store by SP and a number of words.
pub(crate) fn stack_op(mnemonic: Mnemonic, t: u8, i: u8) -> Option<Op>
    ensures { result ≡ stack_op mnemonic t i }
{
    match mnemonic {
        Mnemonic::Str => Some(Op::StrSp { t, i }),
        Mnemonic::Ldr => Some(Op::LdrSp { t, i }),
        _ => None,
    }
}

/// A shift to the right by a number.
pub(crate) fn shift_op(mnemonic: Mnemonic, i: u8, m: u8, d: u8) -> Option<Op>
    ensures { result ≡ shift_op mnemonic i m d }
{
    match mnemonic {
        Mnemonic::Lsrs => Some(Op::LsrImm { i, m, d }),
        Mnemonic::Asrs => Some(Op::AsrImm { i, m, d }),
        _ => None,
    }
}

/// `add sp` or `sub sp` and a number of words.
pub(crate) fn adjust_op(mnemonic: Mnemonic, i: u8) -> Option<Op>
    ensures { result ≡ adjust_op mnemonic i }
{
    match mnemonic {
        Mnemonic::Add => Some(Op::AddSpImm { i }),
        Mnemonic::Sub => Some(Op::SubSpImm { i }),
        _ => None,
    }
}

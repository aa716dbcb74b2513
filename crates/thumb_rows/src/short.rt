//! The 16-bit instructions (ARMv6-M Architecture Reference Manual, A5.2).
#![tactic(auto)]

ghost use Rattle.std.specs.Prelude.{◌≡◌, ℕ, ◌+◌, ◌<◌, ◌≤◌};
ghost use Rattle.thumb_rows.specs.Rows.{begins_long, field, operation_of};

use rp_base::op::Op;

/// Bits `high` to `low` of a halfword, of which there are at most eight.
#[inline(always)]
pub fn bits(halfword: u16, high: u16, low: u16) -> u8
    requires ordered { low ≤ high }
    requires within { high < 16 }
    requires narrow { high < low + 8 }
    ensures { result ≡ field halfword high low }
{
    (halfword >> low & ((1 << (high + 1 - low)) - 1)) as u8
}

/// A 16-bit instruction.
#[tactic(auto, using(crate::proofs::RowLaws::decode_short_rows))]
pub fn decode_short(first: u16) -> Op
    requires { first < 0xE800 }
    ensures { (second : ℕ) → result ≡ operation_of first second }
{
    match bits(first, 15, 12) {
        0..=3 => move_or_add(first),
        4 => match bits(first, 11, 10) {
            0 => data_processing(first),
            1 => special(first),
            _ => Op::LdrLit {
                t: bits(first, 10, 8),
                i: bits(first, 7, 0),
            },
        },
        5 => transfer_by_register(first),
        6..=9 => transfer_by_number(first),
        10 => address(first),
        11 => miscellaneous(first),
        12 => multiple(first),
        13 => branch_on_condition(first),
        _ => Op::B { i: first % 0x800 },
    }
}

/// Shifts, ADDS, SUBS, MOVS and CMP (A5.2.1).
#[tactic(auto, using(crate::proofs::RowLaws::move_or_add_rows))]
fn move_or_add(first: u16) -> Op
    requires { first < 0x4000 }
    ensures { (second : ℕ) → result ≡ operation_of first second }
{
    let (high, middle, low) = (bits(first, 8, 6), bits(first, 5, 3), bits(first, 2, 0));
    let (d, i) = (bits(first, 10, 8), bits(first, 7, 0));
    match bits(first, 13, 11) {
        0 => Op::LslImm {
            i: bits(first, 10, 6),
            m: middle,
            d: low,
        },
        1 => Op::LsrImm {
            i: bits(first, 10, 6),
            m: middle,
            d: low,
        },
        2 => Op::AsrImm {
            i: bits(first, 10, 6),
            m: middle,
            d: low,
        },
        3 => match bits(first, 10, 9) {
            0 => Op::AddReg {
                m: high,
                n: middle,
                d: low,
            },
            1 => Op::SubReg {
                m: high,
                n: middle,
                d: low,
            },
            2 => Op::AddImm3 {
                i: high,
                n: middle,
                d: low,
            },
            _ => Op::SubImm3 {
                i: high,
                n: middle,
                d: low,
            },
        },
        4 => Op::MovImm { d, i },
        5 => Op::CmpImm { d, i },
        6 => Op::AddImm8 { d, i },
        _ => Op::SubImm8 { d, i },
    }
}

/// Data processing on low registers (A5.2.2).
#[tactic(auto, using(crate::proofs::RowLaws::data_processing_rows))]
fn data_processing(first: u16) -> Op
    requires { field first 15 10 ≡ 16 }
    ensures { (second : ℕ) → result ≡ operation_of first second }
{
    let (m, d) = (bits(first, 5, 3), bits(first, 2, 0));
    match bits(first, 9, 6) {
        0 => Op::And { m, d },
        1 => Op::Eor { m, d },
        2 => Op::LslReg { m, d },
        3 => Op::LsrReg { m, d },
        4 => Op::AsrReg { m, d },
        5 => Op::Adc { m, d },
        6 => Op::Sbc { m, d },
        7 => Op::Ror { m, d },
        8 => Op::Tst { m, d },
        9 => Op::Rsb { m, d },
        10 => Op::Cmp { m, d },
        11 => Op::Cmn { m, d },
        12 => Op::Orr { m, d },
        13 => Op::Mul { m, d },
        14 => Op::Bic { m, d },
        _ => Op::Mvn { m, d },
    }
}

/// ADD, CMP and MOV on all registers, BX and BLX (A5.2.3).
#[tactic(auto, using(crate::proofs::RowLaws::special_rows))]
fn special(first: u16) -> Op
    requires { field first 15 10 ≡ 17 }
    ensures { (second : ℕ) → result ≡ operation_of first second }
{
    let d = 8 * bits(first, 7, 7) + bits(first, 2, 0);
    let m = bits(first, 6, 3);
    match bits(first, 9, 8) {
        0 => Op::AddHigh { d, m },
        1 => Op::CmpHigh { d, m },
        2 => Op::MovHigh { d, m },
        _ => match bits(first, 7, 7) {
            0 => Op::Bx { m },
            _ => Op::Blx { m },
        },
    }
}

/// Loads and stores at the sum of two registers (A5.2.4).
#[tactic(auto, using(crate::proofs::RowLaws::transfer_by_register_rows))]
fn transfer_by_register(first: u16) -> Op
    requires { field first 15 12 ≡ 5 }
    ensures { (second : ℕ) → result ≡ operation_of first second }
{
    let (m, n, t) = (bits(first, 8, 6), bits(first, 5, 3), bits(first, 2, 0));
    match bits(first, 11, 9) {
        0 => Op::StrReg { m, n, t },
        1 => Op::StrhReg { m, n, t },
        2 => Op::StrbReg { m, n, t },
        3 => Op::LdrsbReg { m, n, t },
        4 => Op::LdrReg { m, n, t },
        5 => Op::LdrhReg { m, n, t },
        6 => Op::LdrbReg { m, n, t },
        _ => Op::LdrshReg { m, n, t },
    }
}

/// Loads and stores at a register or SP and a number (A5.2.4).
#[tactic(auto, using(crate::proofs::RowLaws::transfer_by_number_rows))]
fn transfer_by_number(first: u16) -> Op
    requires low { 0x6000 ≤ first }
    requires high { first < 0xA000 }
    ensures { (second : ℕ) → result ≡ operation_of first second }
{
    let (i, n, t) = (bits(first, 10, 6), bits(first, 5, 3), bits(first, 2, 0));
    match bits(first, 15, 11) {
        12 => Op::StrImm { i, n, t },
        13 => Op::LdrImm { i, n, t },
        14 => Op::StrbImm { i, n, t },
        15 => Op::LdrbImm { i, n, t },
        16 => Op::StrhImm { i, n, t },
        17 => Op::LdrhImm { i, n, t },
        18 => Op::StrSp {
            t: bits(first, 10, 8),
            i: bits(first, 7, 0),
        },
        _ => Op::LdrSp {
            t: bits(first, 10, 8),
            i: bits(first, 7, 0),
        },
    }
}

/// An address after PC or SP (A5.2).
#[tactic(auto, using(crate::proofs::RowLaws::address_rows))]
fn address(first: u16) -> Op
    requires { field first 15 12 ≡ 10 }
    ensures { (second : ℕ) → result ≡ operation_of first second }
{
    let (d, i) = (bits(first, 10, 8), bits(first, 7, 0));
    match bits(first, 11, 11) {
        0 => Op::Adr { d, i },
        _ => Op::AddSp { d, i },
    }
}

/// Miscellaneous instructions (A5.2.5).
#[tactic(auto, using(crate::proofs::LeftOut::miscellaneous_rows))]
fn miscellaneous(first: u16) -> Op
    requires { field first 15 12 ≡ 11 }
    ensures { (second : ℕ) → result ≡ operation_of first second }
{
    match bits(first, 11, 8) {
        0 => move_stack(first),
        2 => extend(first),
        4 | 5 => push(first),
        6 => change_state(first),
        10 => reverse(first),
        12 | 13 => pop(first),
        14 => Op::Bkpt {
            i: bits(first, 7, 0),
        },
        15 => hint(first),
        _ => Op::Undefined,
    }
}

/// ADD and SUB of SP and a number.
#[tactic(auto, using(crate::proofs::RowLaws::move_stack_rows))]
fn move_stack(first: u16) -> Op
    requires { field first 15 8 ≡ 0xB0 }
    ensures { (second : ℕ) → result ≡ operation_of first second }
{
    let i = bits(first, 6, 0);
    match bits(first, 7, 7) {
        0 => Op::AddSpImm { i },
        _ => Op::SubSpImm { i },
    }
}

/// Extensions of a byte or a halfword.
#[tactic(auto, using(crate::proofs::RowLaws::extend_rows))]
fn extend(first: u16) -> Op
    requires { field first 15 8 ≡ 0xB2 }
    ensures { (second : ℕ) → result ≡ operation_of first second }
{
    let (m, d) = (bits(first, 5, 3), bits(first, 2, 0));
    match bits(first, 7, 6) {
        0 => Op::Sxth { m, d },
        1 => Op::Sxtb { m, d },
        2 => Op::Uxth { m, d },
        _ => Op::Uxtb { m, d },
    }
}

/// PUSH, which is undefined for no register at all.
#[tactic(auto, using(crate::proofs::LeftOut::push_rows))]
fn push(first: u16) -> Op
    requires { field first 15 9 ≡ 0x5A }
    ensures { (second : ℕ) → result ≡ operation_of first second }
{
    let (r, l) = (bits(first, 8, 8) == 1, bits(first, 7, 0));
    if r || l != 0 {
        Op::Push { r, l }
    } else {
        Op::Undefined
    }
}

/// POP, which is undefined for no register at all.
#[tactic(auto, using(crate::proofs::LeftOut::pop_rows))]
fn pop(first: u16) -> Op
    requires { field first 15 9 ≡ 0x5E }
    ensures { (second : ℕ) → result ≡ operation_of first second }
{
    let (r, l) = (bits(first, 8, 8) == 1, bits(first, 7, 0));
    if r || l != 0 {
        Op::Pop { r, l }
    } else {
        Op::Undefined
    }
}

/// CPS, of which there are two words.
#[tactic(auto, using(crate::proofs::LeftOut::change_state_rows))]
fn change_state(first: u16) -> Op
    requires { field first 15 8 ≡ 0xB6 }
    ensures { (second : ℕ) → result ≡ operation_of first second }
{
    match first {
        0xB662 => Op::Cpsie,
        0xB672 => Op::Cpsid,
        _ => Op::Undefined,
    }
}

/// Byte reversals.
#[tactic(auto, using(crate::proofs::LeftOut::reverse_rows))]
fn reverse(first: u16) -> Op
    requires { field first 15 8 ≡ 0xBA }
    ensures { (second : ℕ) → result ≡ operation_of first second }
{
    let (m, d) = (bits(first, 5, 3), bits(first, 2, 0));
    match bits(first, 7, 6) {
        0 => Op::Rev { m, d },
        1 => Op::Rev16 { m, d },
        3 => Op::Revsh { m, d },
        _ => Op::Undefined,
    }
}

/// Hints; those without an operation act as NOP.
#[tactic(auto, using(crate::proofs::LeftOut::hint_rows))]
fn hint(first: u16) -> Op
    requires { field first 15 8 ≡ 0xBF }
    ensures { (second : ℕ) → result ≡ operation_of first second }
{
    if bits(first, 3, 0) != 0 {
        return Op::Undefined;
    }
    match bits(first, 7, 4) {
        1 => Op::Yield,
        2 => Op::Wfe,
        3 => Op::Wfi,
        4 => Op::Sev,
        _ => Op::Nop,
    }
}

/// STM and LDM, which are undefined for no register at all.
#[tactic(auto, using(crate::proofs::LeftOut::multiple_rows))]
fn multiple(first: u16) -> Op
    requires { field first 15 12 ≡ 12 }
    ensures { (second : ℕ) → result ≡ operation_of first second }
{
    let (n, l) = (bits(first, 10, 8), bits(first, 7, 0));
    match (bits(first, 11, 11), l) {
        (_, 0) => Op::Undefined,
        (0, _) => Op::Stm { n, l },
        _ => Op::Ldm { n, l },
    }
}

/// Conditional branches, UDF and SVC (A5.2.6).
#[tactic(auto, using(crate::proofs::LeftOut::branch_on_condition_rows))]
fn branch_on_condition(first: u16) -> Op
    requires { field first 15 12 ≡ 13 }
    ensures { (second : ℕ) → result ≡ operation_of first second }
{
    let i = bits(first, 7, 0);
    match bits(first, 11, 8) {
        14 => Op::Udf { i },
        15 => Op::Svc { i },
        c => Op::BCond { c, i },
    }
}

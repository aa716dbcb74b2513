//! The 32-bit instructions (ARMv6-M Architecture Reference Manual, A5.3).
#![tactic(auto)]

ghost use Rattle.std.specs.Prelude.{◌≡◌, ◌≢◌, ◌≤◌, bit_and};
ghost use Rattle.thumb_rows.specs.Rows.{field, operation_of};

use crate::short::bits;
use rp_base::op::Op;

/// A 32-bit instruction.
#[tactic(auto, using(crate::proofs::LeftOut::decode_long_rows))]
pub fn decode_long(first: u16, second: u16) -> Op
    requires { 0xE800 ≤ first }
    ensures { result ≡ operation_of first second }
{
    if bits(first, 15, 11) != 0b11110 {
        Op::Undefined
    } else if second & 0xD000 == 0xD000 {
        branch_with_link(first, second)
    } else {
        control(first, second)
    }
}

/// BL (A6.7.13).
#[tactic(auto, using(crate::proofs::LeftOut::branch_with_link_rows))]
fn branch_with_link(first: u16, second: u16) -> Op
    requires long { field first 15 11 ≡ 30 }
    requires link { bit_and second 0xD000 ≡ 0xD000 }
    ensures { result ≡ operation_of first second }
{
    Op::Bl {
        s: bits(first, 10, 10) == 1,
        i: (first % 0x400) as u32 * 0x800 + (second % 0x800) as u32,
        j: 2 * bits(second, 13, 13) + bits(second, 11, 11),
    }
}

/// MSR, MRS and the barriers (A5.3.1).
#[tactic(auto, using(crate::proofs::LeftOut::control_rows))]
fn control(first: u16, second: u16) -> Op
    requires long { field first 15 11 ≡ 30 }
    requires no_link { bit_and second 0xD000 ≢ 0xD000 }
    ensures { result ≡ operation_of first second }
{
    match first {
        0xF380..=0xF38F => write_special(first, second),
        0xF3BF => barrier(second),
        0xF3EF => read_special(second),
        _ => Op::Undefined,
    }
}

/// MSR, which is undefined from SP and from PC.
#[tactic(auto, using(crate::proofs::LeftOut::write_special_rows))]
fn write_special(first: u16, second: u16) -> Op
    requires low { 0xF380 ≤ first }
    requires high { first ≤ 0xF38F }
    requires no_link { bit_and second 0xD000 ≢ 0xD000 }
    ensures { result ≡ operation_of first second }
{
    match (bits(first, 3, 0), bits(second, 15, 8)) {
        (13 | 15, _) => Op::Undefined,
        (n, 0x88) => Op::Msr {
            n,
            s: bits(second, 7, 0),
        },
        _ => Op::Undefined,
    }
}

/// MRS, which is undefined to SP and to PC.
#[tactic(auto, using(crate::proofs::LeftOut::read_special_rows))]
fn read_special(second: u16) -> Op
    requires { bit_and second 0xD000 ≢ 0xD000 }
    ensures { result ≡ operation_of 0xF3EF second }
{
    match bits(second, 15, 8) {
        0x8D | 0x8F => Op::Undefined,
        0x80..=0x8E => Op::Mrs {
            d: bits(second, 11, 8),
            s: bits(second, 7, 0),
        },
        _ => Op::Undefined,
    }
}

/// DSB, DMB and ISB.
#[tactic(auto, using(crate::proofs::LeftOut::barrier_rows))]
fn barrier(second: u16) -> Op
    requires { bit_and second 0xD000 ≢ 0xD000 }
    ensures { result ≡ operation_of 0xF3BF second }
{
    match second >> 4 {
        0x8F4 => Op::Dsb,
        0x8F5 => Op::Dmb,
        0x8F6 => Op::Isb,
        _ => Op::Undefined,
    }
}

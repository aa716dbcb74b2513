//! The manual's timing and results, of instructions one by one.

use m0_beats::{
    Beat, Regs, beat_at, beat_count, beats, effect, exception_return, has_more, is_unaligned,
};
use rp_base::op::Op;
use rp_base::{Request, Size};

/// Registers in the middle of a program: R0 an SRAM address, R1 an SIO address, R2 a negative number.
const AMID: Regs = Regs {
    r: [
        0x20000100, 0xd0000000, 0x87654321, 3, 0, 0, 0, 0, 0, 0, 0, 0, 0,
    ],
    msp: 0x2004_1f00,
    psp: 0x2003_0000,
    lr: 0x2000_0041,
    pc: 0x2000_0010,
    n: false,
    z: true,
    c: true,
    v: false,
    t: true,
    ipsr: 0,
    primask: false,
    spsel: false,
};

/// Instructions in the middle of a program with their numbers of beats.
const COUNTS: [(Op, usize); 18] = [
    (Op::MovHigh { d: 15, m: 14 }, 2),
    (Op::MovHigh { d: 14, m: 15 }, 1),
    (Op::AddHigh { d: 15, m: 3 }, 2),
    (Op::BCond { c: 0, i: 4 }, 2),
    (Op::BCond { c: 1, i: 4 }, 1),
    (Op::B { i: 0x7fe }, 2),
    (Op::Bx { m: 14 }, 2),
    (Op::Blx { m: 14 }, 2),
    (Op::Wfe, 2),
    (Op::Wfi, 2),
    (Op::Mrs { d: 0, s: 16 }, 3),
    (Op::Msr { n: 0, s: 16 }, 3),
    (Op::Dsb, 3),
    (Op::Sev, 1),
    (Op::LdrImm { i: 0, n: 0, t: 4 }, 2),
    (Op::LdrImm { i: 0, n: 1, t: 4 }, 1),
    (Op::Ldm { n: 1, l: 0xf0 }, 5),
    (Op::Stm { n: 0, l: 0x0e }, 4),
];

/// An instruction in the middle of a program has so many beats.
fn takes(op: &Op, count: usize) -> bool {
    beats(op, &AMID).len() == count
        && beat_count(op, &AMID) == count
        && !has_more(op, &AMID, count.wrapping_sub(1))
        && (count < 2 || has_more(op, &AMID, count - 2))
        && beat_at(op, &AMID, count.wrapping_sub(1)).is_some()
        && beat_at(op, &AMID, count).is_none()
}

#[test]
fn timing(rt: HostRuntime) {
    for (index, (op, count)) in COUNTS.iter().enumerate() {
        assert!(rt; takes(op, *count), "row {index}");
    }
}

/// STRB [R0, #1] of R2 writes its low byte.
fn stores_a_byte() -> bool {
    let request = Request {
        address: 0x2000_0101,
        size: Size::Byte,
        write: Some(0x21),
    };
    let store = beats(&Op::StrbImm { i: 1, n: 0, t: 2 }, &AMID);
    store.get(1).copied() == Some(Beat::Access(request))
}

/// LDRSB of 80h gives a negative number.
fn loads_a_byte() -> bool {
    let mut regs = AMID;
    effect(&Op::LdrsbReg { m: 3, n: 0, t: 4 }, &mut regs, &[0x80]);
    regs.r[4] == 0xffff_ff80
}

/// LDM writes its base back where it is not in its list.
fn writes_back() -> bool {
    let mut regs = AMID;
    effect(&Op::Ldm { n: 0, l: 0x30 }, &mut regs, &[7, 8]);
    let outside = regs.r[0] == 0x2000_0108 && regs.r[5] == 8;
    effect(&Op::Ldm { n: 0, l: 0x03 }, &mut regs, &[5, 6]);
    outside && regs.r[0] == 5 && regs.r[1] == 6
}

/// A word at an odd address faults, a byte does not.
fn faults_at_odd_addresses() -> bool {
    is_unaligned(&Op::LdrReg { m: 3, n: 0, t: 4 }, &AMID)
        && !is_unaligned(&Op::LdrbReg { m: 3, n: 0, t: 4 }, &AMID)
        && is_unaligned(&Op::Ldm { n: 3, l: 0xf0 }, &AMID)
}

#[test]
fn accesses(rt: HostRuntime) {
    assert!(rt; stores_a_byte());
    assert!(rt; loads_a_byte());
    assert!(rt; writes_back());
    assert!(rt; faults_at_odd_addresses());
}

/// The registers in a handler of SVC, with LR as it is at the entry.
fn in_handler() -> Regs {
    let mut regs = AMID;
    regs.lr = 0xffff_fff9;
    regs.ipsr = 11;
    regs
}

/// BX to a value that stands for no address begins an exception return in Handler mode alone.
fn returns_by_bx() -> bool {
    let mut regs = AMID;
    regs.lr = 0xffff_fff9;
    if exception_return(&Op::Bx { m: 14 }, &regs, &[]).is_some() {
        return false;
    }
    regs.ipsr = 11;
    let begun = exception_return(&Op::Bx { m: 14 }, &regs, &[]) == Some(0xffff_fff9);
    effect(&Op::Bx { m: 14 }, &mut regs, &[]);
    begun && regs.pc == AMID.pc
}

/// So does POP with PC.
fn returns_by_pop() -> bool {
    let pop = Op::Pop { r: true, l: 0 };
    exception_return(&pop, &in_handler(), &[0xffff_fff1]) == Some(0xffff_fff1)
}

/// CONTROL chooses the process stack in Thread mode alone.
fn chooses_its_stack() -> bool {
    let mut regs = in_handler();
    let psr = regs.special(3) == 0x6000_000b;
    regs.set_special(20, 2);
    let kept = !regs.spsel;
    regs.ipsr = 0;
    regs.set_special(20, 2);
    psr && kept && regs.active_sp() == 0x2003_0000
}

#[test]
fn returns_and_special_registers(rt: HostRuntime) {
    assert!(rt; returns_by_bx());
    assert!(rt; returns_by_pop());
    assert!(rt; chooses_its_stack());
}

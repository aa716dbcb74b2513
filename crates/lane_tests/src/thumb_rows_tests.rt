//! Words of a real assembler, and words that no row fits.

use rp_base::op::Op;
use thumb_rows::decode;

/// A call.
fn bl(s: bool, i: u32, j: u8) -> Op {
    Op::Bl { s, i, j }
}

// The words are those that GNU as 2.40 writes for `-mcpu=cortex-m0plus`, in the order of the manual's tables.

#[test]
fn shift_add_and_process(rt: HostRuntime) {
    let table = [
        (0x00D1, 0x0000, Op::LslImm { i: 3, m: 2, d: 1 }), // lsls r1, r2, #3
        (0x0823, 0x0000, Op::LsrImm { i: 0, m: 4, d: 3 }), // lsrs r3, r4, #32
        (0x17C7, 0x0000, Op::AsrImm { i: 31, m: 0, d: 7 }), // asrs r7, r0, #31
        (0x18D1, 0x0000, Op::AddReg { m: 3, n: 2, d: 1 }), // adds r1, r2, r3
        (0x1BAF, 0x0000, Op::SubReg { m: 6, n: 5, d: 7 }), // subs r7, r5, r6
        (0x1D51, 0x0000, Op::AddImm3 { i: 5, n: 2, d: 1 }), // adds r1, r2, #5
        (0x1FDE, 0x0000, Op::SubImm3 { i: 7, n: 3, d: 6 }), // subs r6, r3, #7
        (0x2581, 0x0000, Op::MovImm { d: 5, i: 0x81 }), // movs r5, #0x81
        (0x2AFF, 0x0000, Op::CmpImm { d: 2, i: 255 }), // cmp r2, #255
        (0x34C8, 0x0000, Op::AddImm8 { d: 4, i: 200 }), // adds r4, #200
        (0x3B64, 0x0000, Op::SubImm8 { d: 3, i: 100 }), // subs r3, #100
        (0x4011, 0x0000, Op::And { m: 2, d: 1 }), // ands r1, r2
        (0x4063, 0x0000, Op::Eor { m: 4, d: 3 }), // eors r3, r4
        (0x40B5, 0x0000, Op::LslReg { m: 6, d: 5 }), // lsls r5, r6
        (0x40C7, 0x0000, Op::LsrReg { m: 0, d: 7 }), // lsrs r7, r0
        (0x4119, 0x0000, Op::AsrReg { m: 3, d: 1 }), // asrs r1, r3
        (0x416A, 0x0000, Op::Adc { m: 5, d: 2 }), // adcs r2, r5
        (0x41BC, 0x0000, Op::Sbc { m: 7, d: 4 }), // sbcs r4, r7
        (0x41CE, 0x0000, Op::Ror { m: 1, d: 6 }), // rors r6, r1
        (0x4238, 0x0000, Op::Tst { m: 7, d: 0 }), // tst r0, r7
        (0x425A, 0x0000, Op::Rsb { m: 3, d: 2 }), // rsbs r2, r3, #0
        (0x42AC, 0x0000, Op::Cmp { m: 5, d: 4 }), // cmp r4, r5
        (0x42FE, 0x0000, Op::Cmn { m: 7, d: 6 }), // cmn r6, r7
        (0x4321, 0x0000, Op::Orr { m: 4, d: 1 }), // orrs r1, r4
        (0x4372, 0x0000, Op::Mul { m: 6, d: 2 }), // muls r2, r6, r2
        (0x4383, 0x0000, Op::Bic { m: 0, d: 3 }), // bics r3, r0
        (0x43D5, 0x0000, Op::Mvn { m: 2, d: 5 }), // mvns r5, r2
    ];
    for (first, second, op) in table {
        assert!(rt; decode(first, second) == op, "{first:x} {second:x}");
    }
}

#[test]
fn reach_and_transfer(rt: HostRuntime) {
    let table = [
        (0x4498, 0x0000, Op::AddHigh { d: 8, m: 3 }), // add r8, r3
        (0x4591, 0x0000, Op::CmpHigh { d: 9, m: 2 }), // cmp r9, r2
        (0x46F2, 0x0000, Op::MovHigh { d: 10, m: 14 }), // mov r10, r14
        (0x4770, 0x0000, Op::Bx { m: 14 }), // bx lr
        (0x4798, 0x0000, Op::Blx { m: 3 }), // blx r3
        (0x4A0A, 0x0000, Op::LdrLit { t: 2, i: 10 }), // ldr r2, [pc, #40]
        (0x50D1, 0x0000, Op::StrReg { m: 3, n: 2, t: 1 }), // str r1, [r2, r3]
        (0x531A, 0x0000, Op::StrhReg { m: 4, n: 3, t: 2 }), // strh r2, [r3, r4]
        (0x5563, 0x0000, Op::StrbReg { m: 5, n: 4, t: 3 }), // strb r3, [r4, r5]
        (0x57AC, 0x0000, Op::LdrsbReg { m: 6, n: 5, t: 4 }), // ldrsb r4, [r5, r6]
        (0x59F5, 0x0000, Op::LdrReg { m: 7, n: 6, t: 5 }), // ldr r5, [r6, r7]
        (0x5A3E, 0x0000, Op::LdrhReg { m: 0, n: 7, t: 6 }), // ldrh r6, [r7, r0]
        (0x5C47, 0x0000, Op::LdrbReg { m: 1, n: 0, t: 7 }), // ldrb r7, [r0, r1]
        (0x5E88, 0x0000, Op::LdrshReg { m: 2, n: 1, t: 0 }), // ldrsh r0, [r1, r2]
        (0x67D1, 0x0000, Op::StrImm { i: 31, n: 2, t: 1 }), // str r1, [r2, #124]
        (0x685A, 0x0000, Op::LdrImm { i: 1, n: 3, t: 2 }), // ldr r2, [r3, #4]
        (0x77E3, 0x0000, Op::StrbImm { i: 31, n: 4, t: 3 }), // strb r3, [r4, #31]
        (0x786C, 0x0000, Op::LdrbImm { i: 1, n: 5, t: 4 }), // ldrb r4, [r5, #1]
        (0x87F5, 0x0000, Op::StrhImm { i: 31, n: 6, t: 5 }), // strh r5, [r6, #62]
        (0x887E, 0x0000, Op::LdrhImm { i: 1, n: 7, t: 6 }), // ldrh r6, [r7, #2]
        (0x97FF, 0x0000, Op::StrSp { t: 7, i: 255 }), // str r7, [sp, #1020]
        (0x9801, 0x0000, Op::LdrSp { t: 0, i: 1 }), // ldr r0, [sp, #4]
        (0xA102, 0x0000, Op::Adr { d: 1, i: 2 }), // add r1, pc, #8
        (0xAA03, 0x0000, Op::AddSp { d: 2, i: 3 }), // add r2, sp, #12
    ];
    for (first, second, op) in table {
        assert!(rt; decode(first, second) == op, "{first:x} {second:x}");
    }
}

#[test]
fn miscellaneous_and_branch(rt: HostRuntime) {
    let table = [
        (0xB07F, 0x0000, Op::AddSpImm { i: 127 }), // add sp, #508
        (0xB084, 0x0000, Op::SubSpImm { i: 4 }), // sub sp, #16
        (0xB211, 0x0000, Op::Sxth { m: 2, d: 1 }), // sxth r1, r2
        (0xB263, 0x0000, Op::Sxtb { m: 4, d: 3 }), // sxtb r3, r4
        (0xB2B5, 0x0000, Op::Uxth { m: 6, d: 5 }), // uxth r5, r6
        (0xB2C7, 0x0000, Op::Uxtb { m: 0, d: 7 }), // uxtb r7, r0
        (0xB581, 0x0000, Op::Push { r: true, l: 0x81 }), // push {r0, r7, lr}
        (0xB500, 0x0000, Op::Push { r: true, l: 0 }), // push {lr}
        (0xBC06, 0x0000, Op::Pop { r: false, l: 6 }), // pop {r1, r2}
        (0xBD00, 0x0000, Op::Pop { r: true, l: 0 }), // pop {pc}
        (0xB662, 0x0000, Op::Cpsie), // cpsie i
        (0xB672, 0x0000, Op::Cpsid), // cpsid i
        (0xBA11, 0x0000, Op::Rev { m: 2, d: 1 }), // rev r1, r2
        (0xBA63, 0x0000, Op::Rev16 { m: 4, d: 3 }), // rev16 r3, r4
        (0xBAF5, 0x0000, Op::Revsh { m: 6, d: 5 }), // revsh r5, r6
        (0xBEAB, 0x0000, Op::Bkpt { i: 0xAB }), // bkpt 0xAB
        (0xBF00, 0x0000, Op::Nop), // nop, as a word of the manual
        (0xBF10, 0x0000, Op::Yield), // yield
        (0xBF20, 0x0000, Op::Wfe), // wfe
        (0xBF30, 0x0000, Op::Wfi), // wfi
        (0xBF40, 0x0000, Op::Sev), // sev
        (0xC311, 0x0000, Op::Stm { n: 3, l: 0x11 }), // stmia r3!, {r0, r4}
        (0xCA82, 0x0000, Op::Ldm { n: 2, l: 0x82 }), // ldmia r2!, {r1, r7}
        (0xD000, 0x0000, Op::BCond { c: 0, i: 0 }), // beq . + 4
        (0xDD80, 0x0000, Op::BCond { c: 13, i: 0x80 }), // ble . - 252
        (0xDE00, 0x0000, Op::Udf { i: 0 }), // udf 0
        (0xDF05, 0x0000, Op::Svc { i: 5 }), // svc 5
        (0xE400, 0x0000, Op::B { i: 0x400 }), // b . - 2044
    ];
    for (first, second, op) in table {
        assert!(rt; decode(first, second) == op, "{first:x} {second:x}");
    }
}

#[test]
fn long_and_undefined(rt: HostRuntime) {
    let table = [
        (0xF000, 0xF800, bl(false, 0, 3)), // bl . + 4
        (0xF400, 0xF800, bl(true, 0, 3)), // bl . - 4194300
        (0xF112, 0xF1A2, bl(false, 0x891A2, 2)), // bl . + 0x512348, for cortex-m3
        (0xF384, 0x8810, Op::Msr { n: 4, s: 16 }), // msr primask, r4
        (0xF3EF, 0x8509, Op::Mrs { d: 5, s: 9 }), // mrs r5, psp
        (0xF3BF, 0x8F4F, Op::Dsb), // dsb
        (0xF3BF, 0x8F5F, Op::Dmb), // dmb
        (0xF3BF, 0x8F6F, Op::Isb), // isb
        // words that no row of the manual's tables fits, and lists of no register
        (0xB400, 0x0000, Op::Undefined), // PUSH of nothing
        (0xBA80, 0x0000, Op::Undefined), // between REV16 and REVSH
        (0xB100, 0x0000, Op::Undefined), // CBZ, which ARMv6-M has not
        (0xBF08, 0x0000, Op::Undefined), // IT, which ARMv6-M has not
        (0xC800, 0x0000, Op::Undefined), // LDM of nothing
        (0xF38D, 0x8810, Op::Undefined), // MSR from SP
        (0xF3EF, 0x8F09, Op::Undefined), // MRS to PC
        (0xE92D, 0x4010, Op::Undefined), // PUSH.W, which ARMv6-M has not
        (0xF850, 0x1F04, Op::Undefined), // LDR.W, which ARMv6-M has not
    ];
    for (first, second, op) in table {
        assert!(rt; decode(first, second) == op, "{first:x} {second:x}");
    }
}

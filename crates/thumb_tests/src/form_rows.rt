//! Each form at its least and its greatest number, with its words, and one step beyond, with its fault. Where each source is a line, the
//! table is one text, a line for each: a source, and behind ` = ` its words or the name of its fault. (A text costs a proof far less than a
//! list of rows.)

use crate::outcome::Row;
use crate::outcome::Wanted::{Fault, Words};
use thumb_asm::ThumbFault::{Align, Range, Register, Syntax};

/// The directives, `.word`, `.half`, `.space` and `.align`.
pub const DIRECTIVES: [Row; 28] = [
    (".word 4294967295", Words(0, &[0xffff, 0xffff])),
    (".word -2147483648", Words(0, &[0x0000, 0x8000])),
    (".word 0xffffffff", Words(0, &[0xffff, 0xffff])),
    (".word 4294967296", Fault(Range(1))),
    (".word -2147483649", Fault(Range(1))),
    (".word 12345678901", Fault(Syntax(1))),
    ("a: .word a", Words(0, &[0x0000, 0x2000])),
    ("a: .word a+0xdfffffff", Words(0, &[0xffff, 0xffff])),
    ("a: .word a+0xe0000000", Fault(Range(1))),
    ("a: .word a+-0xa0000000", Words(0, &[0x0000, 0x8000])),
    ("a: .word a+-0xa0000001", Fault(Range(1))),
    (".half 65535", Words(0, &[0xffff])),
    (".half -32768", Words(0, &[0x8000])),
    (".half 65536", Fault(Range(1))),
    (".half -32769", Fault(Range(1))),
    (".space 1\n.space 1", Words(0, &[0x0000])),
    (".space 4096\n.half 7", Words(4096, &[0x0007])),
    (".space 0", Fault(Range(1))),
    (".space 4097", Fault(Range(1))),
    (".space -1", Fault(Range(1))),
    (
        ".half 1\n.align\n.half 2",
        Words(0, &[0x0001, 0x0000, 0x0002]),
    ),
    (
        ".space 1\n.align\n.half 2",
        Words(0, &[0x0000, 0x0000, 0x0002]),
    ),
    (
        ".space 3\n.align\n.align\n.half 2",
        Words(0, &[0x0000, 0x0000, 0x0002]),
    ),
    (".space 1\nnop", Fault(Align(2))),
    (".space 1\n.half 0", Fault(Align(2))),
    ("nop\n.word 0", Fault(Align(2))),
    (".space 1\n.word 0", Fault(Align(2))),
    ("a: nop\n.word a", Fault(Align(2))),
];

/// Instructions with a number.
pub const NUMBERS: &str = "\
    movs r0, #0 = 2000\n\
    movs r7, #255 = 27ff\n\
    movs r0, #256 = Range\n\
    movs r0, #-1 = Range\n\
    movs r8, #0 = Register\n\
    cmp r0, #0 = 2800\n\
    cmp r7, #255 = 2fff\n\
    cmp r0, #256 = Range\n\
    cmp r0, #-1 = Range\n\
    cmp r8, #0 = Register\n\
    adds r0, #0 = 3000\n\
    adds r7, #255 = 37ff\n\
    adds r0, #256 = Range\n\
    adds r0, #-1 = Range\n\
    adds r8, #0 = Register\n\
    subs r0, #0 = 3800\n\
    subs r7, #255 = 3fff\n\
    subs r0, #256 = Range\n\
    subs r0, #-1 = Range\n\
    subs r8, #0 = Register\n\
    adds r0, r7, #0 = 1c38\n\
    adds r7, r0, #7 = 1dc7\n\
    adds r0, r0, #8 = Range\n\
    adds r0, r0, #-1 = Range\n\
    adds r8, r0, #0 = Register\n\
    adds r0, r8, #0 = Register\n\
    subs r0, r7, #0 = 1e38\n\
    subs r7, r0, #7 = 1fc7\n\
    subs r0, r0, #8 = Range\n\
    subs r0, r0, #-1 = Range\n\
    subs r8, r0, #0 = Register\n\
    subs r0, r8, #0 = Register\n\
    lsls r0, r7, #0 = 0038\n\
    lsls r7, r0, #31 = 07c7\n\
    lsls r0, r0, #32 = Range\n\
    lsls r0, r0, #-1 = Range\n\
    lsls r8, r0, #1 = Register\n\
    lsls r0, r8, #1 = Register\n\
    lsrs r0, r7, #1 = 0878\n\
    lsrs r7, r0, #32 = 0807\n\
    lsrs r0, r0, #33 = Range\n\
    lsrs r0, r0, #0 = Range\n\
    lsrs r8, r0, #1 = Register\n\
    lsrs r0, r8, #1 = Register\n\
    asrs r0, r7, #1 = 1078\n\
    asrs r7, r0, #32 = 1007\n\
    asrs r0, r0, #33 = Range\n\
    asrs r0, r0, #0 = Range\n\
    asrs r8, r0, #1 = Register\n\
    asrs r0, r8, #1 = Register\n\
    bkpt #0 = be00\n\
    bkpt #255 = beff\n\
    bkpt #256 = Range\n\
    bkpt #-1 = Range\n\
    udf #0 = de00\n\
    udf #255 = deff\n\
    udf #256 = Range\n\
    udf #-1 = Range\n\
    svc #0 = df00\n\
    svc #255 = dfff\n\
    svc #256 = Range\n\
    svc #-1 = Range\n\
    msr #0, r0 = f380 8800\n\
    msr #255, lr = f38e 88ff\n\
    msr #256, r0 = Range\n\
    msr #-1, r0 = Range\n\
    msr #0, sp = Register\n\
    msr #0, pc = Register\n\
    msr #0, r16 = Syntax\n\
    mrs r0, #0 = f3ef 8000\n\
    mrs lr, #255 = f3ef 8eff\n\
    mrs r0, #256 = Range\n\
    mrs r0, #-1 = Range\n\
    mrs sp, #0 = Register\n\
    mrs pc, #0 = Register\n\
    mrs r16, #0 = Syntax\
";

/// Instructions on two or three low registers.
pub const ARITHMETIC: &str = "\
    adds r0, r0, r0 = 1800\n\
    adds r7, r7, r7 = 19ff\n\
    adds r8, r0, r0 = Register\n\
    adds r0, r8, r0 = Register\n\
    adds r0, r0, r8 = Register\n\
    subs r0, r0, r0 = 1a00\n\
    subs r7, r7, r7 = 1bff\n\
    subs r8, r0, r0 = Register\n\
    subs r0, r8, r0 = Register\n\
    subs r0, r0, r8 = Register\n\
    ands r0, r7 = 4038\n\
    ands r7, r0 = 4007\n\
    ands r8, r0 = Register\n\
    ands r0, r8 = Register\n\
    eors r0, r7 = 4078\n\
    eors r7, r0 = 4047\n\
    eors r8, r0 = Register\n\
    eors r0, r8 = Register\n\
    lsls r0, r7 = 40b8\n\
    lsls r7, r0 = 4087\n\
    lsls r8, r0 = Register\n\
    lsls r0, r8 = Register\n\
    lsrs r0, r7 = 40f8\n\
    lsrs r7, r0 = 40c7\n\
    lsrs r8, r0 = Register\n\
    lsrs r0, r8 = Register\n\
    asrs r0, r7 = 4138\n\
    asrs r7, r0 = 4107\n\
    asrs r8, r0 = Register\n\
    asrs r0, r8 = Register\n\
    adcs r0, r7 = 4178\n\
    adcs r7, r0 = 4147\n\
    adcs r8, r0 = Register\n\
    adcs r0, r8 = Register\n\
    sbcs r0, r7 = 41b8\n\
    sbcs r7, r0 = 4187\n\
    sbcs r8, r0 = Register\n\
    sbcs r0, r8 = Register\n\
    rors r0, r7 = 41f8\n\
    rors r7, r0 = 41c7\n\
    rors r8, r0 = Register\n\
    rors r0, r8 = Register\n\
    tst r0, r7 = 4238\n\
    tst r7, r0 = 4207\n\
    tst r8, r0 = Register\n\
    tst r0, r8 = Register\n\
    rsbs r0, r7 = 4278\n\
    rsbs r7, r0 = 4247\n\
    rsbs r8, r0 = Register\n\
    rsbs r0, r8 = Register\n\
    cmn r0, r7 = 42f8\n\
    cmn r7, r0 = 42c7\n\
    cmn r8, r0 = Register\n\
    cmn r0, r8 = Register\n\
    orrs r0, r7 = 4338\
";

/// More of them, extensions, and instructions on any registers.
pub const EXTENSIONS: &str = "\
    orrs r7, r0 = 4307\n\
    orrs r8, r0 = Register\n\
    orrs r0, r8 = Register\n\
    muls r0, r7 = 4378\n\
    muls r7, r0 = 4347\n\
    muls r8, r0 = Register\n\
    muls r0, r8 = Register\n\
    bics r0, r7 = 43b8\n\
    bics r7, r0 = 4387\n\
    bics r8, r0 = Register\n\
    bics r0, r8 = Register\n\
    mvns r0, r7 = 43f8\n\
    mvns r7, r0 = 43c7\n\
    mvns r8, r0 = Register\n\
    mvns r0, r8 = Register\n\
    sxth r0, r7 = b238\n\
    sxth r7, r0 = b207\n\
    sxth r8, r0 = Register\n\
    sxth r0, r8 = Register\n\
    sxtb r0, r7 = b278\n\
    sxtb r7, r0 = b247\n\
    sxtb r8, r0 = Register\n\
    sxtb r0, r8 = Register\n\
    uxth r0, r7 = b2b8\n\
    uxth r7, r0 = b287\n\
    uxth r8, r0 = Register\n\
    uxth r0, r8 = Register\n\
    uxtb r0, r7 = b2f8\n\
    uxtb r7, r0 = b2c7\n\
    uxtb r8, r0 = Register\n\
    uxtb r0, r8 = Register\n\
    rev r0, r7 = ba38\n\
    rev r7, r0 = ba07\n\
    rev r8, r0 = Register\n\
    rev r0, r8 = Register\n\
    rev16 r0, r7 = ba78\n\
    rev16 r7, r0 = ba47\n\
    rev16 r8, r0 = Register\n\
    rev16 r0, r8 = Register\n\
    revsh r0, r7 = baf8\n\
    revsh r7, r0 = bac7\n\
    revsh r8, r0 = Register\n\
    revsh r0, r8 = Register\n\
    cmp r0, r7 = 42b8\n\
    cmp r7, r0 = 4287\n\
    cmp r0, r8 = 4540\n\
    cmp r8, r0 = 4580\n\
    cmp pc, pc = 45ff\n\
    add r0, r0 = 4400\n\
    add pc, pc = 44ff\n\
    mov r0, r0 = 4600\n\
    mov pc, pc = 46ff\n\
    add r16, r0 = Syntax\n\
    add r0, r16 = Syntax\n\
    cmp r16, r0 = Syntax\n\
    cmp r0, r16 = Syntax\n\
    mov r16, r0 = Syntax\n\
    mov r0, r16 = Syntax\n\
    bx r0 = 4700\n\
    bx pc = 4778\n\
    bx r16 = Syntax\
";

/// A branch, loads and stores by two registers, and instructions on nothing.
pub const REGISTERS: &str = "\
    blx r0 = 4780\n\
    blx pc = 47f8\n\
    blx r16 = Syntax\n\
    str r0, [r7, r0] = 5038\n\
    str r7, [r0, r7] = 51c7\n\
    str r8, [r0, r0] = Register\n\
    str r0, [r8, r0] = Register\n\
    str r0, [r0, r8] = Register\n\
    strh r0, [r7, r0] = 5238\n\
    strh r7, [r0, r7] = 53c7\n\
    strh r8, [r0, r0] = Register\n\
    strh r0, [r8, r0] = Register\n\
    strh r0, [r0, r8] = Register\n\
    strb r0, [r7, r0] = 5438\n\
    strb r7, [r0, r7] = 55c7\n\
    strb r8, [r0, r0] = Register\n\
    strb r0, [r8, r0] = Register\n\
    strb r0, [r0, r8] = Register\n\
    ldrsb r0, [r7, r0] = 5638\n\
    ldrsb r7, [r0, r7] = 57c7\n\
    ldrsb r8, [r0, r0] = Register\n\
    ldrsb r0, [r8, r0] = Register\n\
    ldrsb r0, [r0, r8] = Register\n\
    ldr r0, [r7, r0] = 5838\n\
    ldr r7, [r0, r7] = 59c7\n\
    ldr r8, [r0, r0] = Register\n\
    ldr r0, [r8, r0] = Register\n\
    ldr r0, [r0, r8] = Register\n\
    ldrh r0, [r7, r0] = 5a38\n\
    ldrh r7, [r0, r7] = 5bc7\n\
    ldrh r8, [r0, r0] = Register\n\
    ldrh r0, [r8, r0] = Register\n\
    ldrh r0, [r0, r8] = Register\n\
    ldrb r0, [r7, r0] = 5c38\n\
    ldrb r7, [r0, r7] = 5dc7\n\
    ldrb r8, [r0, r0] = Register\n\
    ldrb r0, [r8, r0] = Register\n\
    ldrb r0, [r0, r8] = Register\n\
    ldrsh r0, [r7, r0] = 5e38\n\
    ldrsh r7, [r0, r7] = 5fc7\n\
    ldrsh r8, [r0, r0] = Register\n\
    ldrsh r0, [r8, r0] = Register\n\
    ldrsh r0, [r0, r8] = Register\n\
    nop = bf00\n\
    yield = bf10\n\
    wfe = bf20\n\
    wfi = bf30\n\
    sev = bf40\n\
    dsb = f3bf 8f4f\n\
    dmb = f3bf 8f5f\n\
    isb = f3bf 8f6f\n\
    cpsie i = b662\n\
    cpsid i = b672\n\
    cpsie f = Syntax\n\
    cpsid f = Syntax\
";

/// Loads and stores behind a register, and sums with SP.
pub const OFFSETS: &str = "\
    str r0, [r7, #0] = 6038\n\
    str r7, [r0, #124] = 67c7\n\
    str r0, [r0, #128] = Range\n\
    str r0, [r0, #-4] = Range\n\
    str r0, [r0, #1] = Range\n\
    str r8, [r0, #0] = Register\n\
    str r0, [r8, #0] = Register\n\
    ldr r0, [r7, #0] = 6838\n\
    ldr r7, [r0, #124] = 6fc7\n\
    ldr r0, [r0, #128] = Range\n\
    ldr r0, [r0, #-4] = Range\n\
    ldr r0, [r0, #1] = Range\n\
    ldr r8, [r0, #0] = Register\n\
    ldr r0, [r8, #0] = Register\n\
    strb r0, [r7, #0] = 7038\n\
    strb r7, [r0, #31] = 77c7\n\
    strb r0, [r0, #32] = Range\n\
    strb r0, [r0, #-1] = Range\n\
    strb r8, [r0, #0] = Register\n\
    strb r0, [r8, #0] = Register\n\
    ldrb r0, [r7, #0] = 7838\n\
    ldrb r7, [r0, #31] = 7fc7\n\
    ldrb r0, [r0, #32] = Range\n\
    ldrb r0, [r0, #-1] = Range\n\
    ldrb r8, [r0, #0] = Register\n\
    ldrb r0, [r8, #0] = Register\n\
    strh r0, [r7, #0] = 8038\n\
    strh r7, [r0, #62] = 87c7\n\
    strh r0, [r0, #64] = Range\n\
    strh r0, [r0, #-2] = Range\n\
    strh r0, [r0, #1] = Range\n\
    strh r8, [r0, #0] = Register\n\
    strh r0, [r8, #0] = Register\n\
    ldrh r0, [r7, #0] = 8838\n\
    ldrh r7, [r0, #62] = 8fc7\n\
    ldrh r0, [r0, #64] = Range\n\
    ldrh r0, [r0, #-2] = Range\n\
    ldrh r0, [r0, #1] = Range\n\
    ldrh r8, [r0, #0] = Register\n\
    ldrh r0, [r8, #0] = Register\n\
    ldrsb r0, [r0, #0] = Syntax\n\
    ldrsh r0, [r0, #0] = Syntax\n\
    str r0, [sp, #0] = 9000\n\
    str r7, [sp, #1020] = 97ff\n\
    str r0, [sp, #1024] = Range\n\
    str r0, [sp, #-4] = Range\n\
    str r0, [sp, #2] = Range\n\
    str r8, [sp, #0] = Register\n\
    ldr r0, [sp, #0] = 9800\n\
    ldr r7, [sp, #1020] = 9fff\n\
    ldr r0, [sp, #1024] = Range\n\
    ldr r0, [sp, #-4] = Range\n\
    ldr r0, [sp, #2] = Range\n\
    ldr r8, [sp, #0] = Register\n\
    add r0, sp, #0 = a800\n\
    add r7, sp, #1020 = afff\n\
    add r0, sp, #1024 = Range\n\
    add r0, sp, #-4 = Range\n\
    add r0, sp, #2 = Range\n\
    add r8, sp, #0 = Register\n\
    add sp, #0 = b000\n\
    add sp, #508 = b07f\n\
    add sp, #512 = Range\n\
    add sp, #-4 = Range\n\
    add sp, #2 = Range\n\
    sub sp, #0 = b080\n\
    sub sp, #508 = b0ff\n\
    sub sp, #512 = Range\n\
    sub sp, #-4 = Range\n\
    sub sp, #2 = Range\
";

/// Lists of registers.
pub const LISTS: &str = "\
    push {r0} = b401\n\
    push {lr} = b500\n\
    push {r0-r7, lr} = b5ff\n\
    push {r0, r2-r3, r7} = b48d\n\
    push {r8} = Register\n\
    push {r1, r0} = Register\n\
    push {r0, r0} = Register\n\
    push {pc} = Register\n\
    push {lr, r0} = Register\n\
    push {r3-r1} = Register\n\
    push {r0-r8} = Register\n\
    push {sp} = Register\n\
    push {} = Syntax\n\
    pop {r0} = bc01\n\
    pop {pc} = bd00\n\
    pop {r0-r7, pc} = bdff\n\
    pop {lr} = Register\n\
    pop {r8} = Register\n\
    pop {r1, r0} = Register\n\
    pop {pc, r0} = Register\n\
    pop {r0-r8} = Register\n\
    pop {sp} = Register\n\
    pop {} = Syntax\n\
    stm r0!, {r7} = c080\n\
    stm r7!, {r0-r7} = c7ff\n\
    stm r8!, {r0} = Register\n\
    stm r0!, {r8} = Register\n\
    stm r0!, {r2, r1} = Register\n\
    stm r0, {r1} = Syntax\n\
    ldm r0!, {r7} = c880\n\
    ldm r7!, {r0-r6} = cf7f\n\
    ldm r0!, {r0} = Register\n\
    ldm r8!, {r0} = Register\n\
    ldm r0!, {r8} = Register\n\
    ldm r0!, {r2, r1} = Register\n\
    ldm r0, {r0} = c801\n\
    ldm r7, {r0-r7} = cfff\n\
    ldm r0, {r1} = Register\n\
    ldm r8, {r8} = Register\n\
    ldm r0, {r0, r8} = Register\n\
    ldm r0, {r1, r0} = Register\
";

/// Literals and branches without a condition.
pub const DISTANCES: [Row; 24] = [
    ("ldr r0, a\nnop\na: .word 7", Words(0, &[0x4800])),
    ("ldr r7, a\n.space 1022\na: .word 7", Words(0, &[0x4fff])),
    ("ldr r0, a\n.space 1026\na: .word 7", Fault(Range(1))),
    ("nop\nldr r0, a\na: .word 7", Words(2, &[0x4800])),
    ("a: ldr r0, a", Fault(Range(1))),
    ("ldr r0, a\nnop\nnop\na: nop", Fault(Align(1))),
    (".space 1\nldr r0, a\n.space 1\na: .word 7", Fault(Align(2))),
    ("ldr r8, a\nnop\na: .word 7", Fault(Register(1))),
    ("adr r0, a\nnop\na: .word 7", Words(0, &[0xa000])),
    ("adr r7, a\n.space 1022\na: .word 7", Words(0, &[0xa7ff])),
    ("adr r0, a\n.space 1026\na: .word 7", Fault(Range(1))),
    ("nop\nadr r0, a\na: .word 7", Words(2, &[0xa000])),
    ("a: adr r0, a", Fault(Range(1))),
    ("adr r0, a\nnop\nnop\na: nop", Fault(Align(1))),
    ("adr r8, a\nnop\na: .word 7", Fault(Register(1))),
    ("a: .space 2044\nb a", Words(2044, &[0xe400])),
    ("a: .space 2046\nb a", Fault(Range(2))),
    ("b a\n.space 2048\na: nop", Words(0, &[0xe3ff])),
    ("b a\n.space 2050\na: nop", Fault(Range(1))),
    ("b a\n.space 1\na: .space 1", Fault(Range(1))),
    ("bl a\na: nop", Words(0, &[0xf000, 0xf800])),
    (
        "bl a\n.space 4096\n.space 4096\n.space 4096\na: nop",
        Words(0, &[0xf003, 0xf800]),
    ),
    (
        "a: nop\n.space 4096\n.space 4096\n.space 4096\nbl a",
        Words(12290, &[0xf7fc, 0xfffd]),
    ),
    ("bl a\n.space 1\na: .space 1", Fault(Range(1))),
];

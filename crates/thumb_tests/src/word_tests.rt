//! A program of 200 lines, whose words another assembler gave for the same instructions.

ghost use Rattle.uf2_image.specs.Writing.{IsWritable};

use crate::outcome::{assembled, bytes_in, bytes_of};
use std::alloc::{AllocError, Global};
use std::test::Fail;
use uf2_image::{Image, read_image, write_image};

/// Each form twice, with two labels that are named from both sides.
const SOURCE: &str = "\
    top0: movs r6, #155\n\
    cmp r5, #148\n\
    adds r2, #142\n\
    subs r1, #13\n\
    adds r3, r6, r6\n\
    adds r4, r5, #6\n\
    subs r2, r0, r2\n\
    subs r3, r2, #3\n\
    lsls r5, r1, #29\n\
    lsrs r1, r4, #27\n\
    asrs r1, r7, #10\n\
    ands r6, r5\n\
    eors r0, r6\n\
    lsls r5, r0\n\
    lsrs r5, r0\n\
    asrs r7, r5\n\
    adcs r0, r6\n\
    sbcs r3, r1\n\
    rors r3, r3\n\
    tst r5, r0\n\
    rsbs r4, r1\n\
    cmp r4, r3\n\
    cmn r2, r4\n\
    orrs r4, r5\n\
    muls r5, r2\n\
    bics r5, r1\n\
    mvns r4, r5\n\
    add r8, r0\n\
    cmp r10, r0\n\
    mov r7, r11\n\
    bx r4\n\
    blx r7\n\
    ldr r0, lit0\n\
    adr r3, lit0\n\
    str r4, [r4, r1]\n\
    strh r7, [r0, r2]\n\
    strb r6, [r7, r6]\n\
    ldrsb r2, [r3, r4]\n\
    ldr r2, [r1, r3]\n\
    ldrh r0, [r4, r5]\n\
    ldrb r5, [r0, r2]\n\
    ldrsh r6, [r1, r4]\n\
    str r4, [r6, #120]\n\
    ldr r1, [r1, #60]\n\
    strb r3, [r4, #10]\n\
    ldrb r4, [r0, #31]\n\
    strh r6, [r7, #28]\n\
    ldrh r6, [r7, #8]\n\
    str r7, [sp, #444]\n\
    ldr r3, [sp, #988]\n\
    add r5, sp, #384\n\
    add sp, #500\n\
    sub sp, #188\n\
    sxth r0, r6\n\
    sxtb r0, r5\n\
    uxth r2, r3\n\
    uxtb r5, r5\n\
    rev r2, r3\n\
    rev16 r4, r6\n\
    revsh r5, r7\n\
    push {r0, r1, r4, r6}\n\
    pop {r0, r1, r4}\n\
    stm r2!, {r3, r4, r6, r7}\n\
    ldm r2!, {r0, r3, r4, r7}\n\
    ldm r2, {r0, r2, r3, r6}\n\
    nop\n\
    yield\n\
    wfe\n\
    wfi\n\
    sev\n\
    dsb\n\
    dmb\n\
    isb\n\
    cpsid i\n\
    bkpt #172\n\
    udf #168\n\
    svc #108\n\
    near0: b near0\n\
    bl end0\n\
    beq near0\n\
    bne near0\n\
    bcs near0\n\
    bcc near0\n\
    bmi near0\n\
    bpl near0\n\
    bvs near0\n\
    bvc near0\n\
    bhi near0\n\
    bls near0\n\
    bge near0\n\
    blt near0\n\
    bgt near0\n\
    ble near0\n\
    msr #0, r7\n\
    mrs lr, #1\n\
    .half -2\n\
    .half 0xffff\n\
    .align\n\
    lit0: .word end0+0\n\
    .word 0x89abcdef\n\
    end0: nop\n\
    movs r0, #14\n\
    cmp r1, #241\n\
    adds r4, #104\n\
    subs r1, #13\n\
    adds r7, r3, r0\n\
    adds r6, r1, #6\n\
    subs r0, r0, r3\n\
    subs r4, r4, #5\n\
    lsls r5, r6, #13\n\
    lsrs r0, r5, #6\n\
    asrs r0, r4, #21\n\
    ands r5, r1\n\
    eors r5, r2\n\
    lsls r3, r7\n\
    lsrs r4, r7\n\
    asrs r1, r4\n\
    adcs r3, r1\n\
    sbcs r6, r4\n\
    rors r3, r7\n\
    tst r5, r2\n\
    rsbs r3, r2\n\
    cmp r4, r1\n\
    cmn r6, r7\n\
    orrs r6, r2\n\
    muls r2, r2\n\
    bics r5, r7\n\
    mvns r4, r6\n\
    add r8, r9\n\
    cmp r9, r2\n\
    mov lr, r11\n\
    bx r2\n\
    blx r12\n\
    ldr r3, lit1\n\
    adr r6, lit1\n\
    str r5, [r7, r2]\n\
    strh r4, [r3, r7]\n\
    strb r4, [r3, r5]\n\
    ldrsb r0, [r1, r5]\n\
    ldr r7, [r1, r6]\n\
    ldrh r1, [r6, r3]\n\
    ldrb r2, [r1, r4]\n\
    ldrsh r1, [r4, r5]\n\
    str r7, [r5, #36]\n\
    ldr r2, [r4, #76]\n\
    strb r6, [r5, #9]\n\
    ldrb r6, [r1, #16]\n\
    strh r3, [r3, #26]\n\
    ldrh r5, [r6, #48]\n\
    str r4, [sp, #160]\n\
    ldr r4, [sp, #828]\n\
    add r3, sp, #644\n\
    add sp, #8\n\
    sub sp, #20\n\
    sxth r0, r5\n\
    sxtb r7, r6\n\
    uxth r6, r4\n\
    uxtb r4, r7\n\
    rev r2, r6\n\
    rev16 r3, r3\n\
    revsh r3, r5\n\
    push {r1, r3, r5, r7, lr}\n\
    pop {r1, r3, r5, pc}\n\
    stm r3!, {r1, r4, r5, r7}\n\
    ldm r7!, {r0, r1, r5, r6}\n\
    ldm r3, {r3, r6, r7}\n\
    nop\n\
    yield\n\
    wfe\n\
    wfi\n\
    sev\n\
    dsb\n\
    dmb\n\
    isb\n\
    cpsie i\n\
    bkpt #116\n\
    udf #205\n\
    svc #193\n\
    near1: b near1\n\
    bl top0\n\
    beq near1\n\
    bne near1\n\
    bcs near1\n\
    bcc near1\n\
    bmi near1\n\
    bpl near1\n\
    bvs near1\n\
    bvc near1\n\
    bhi near1\n\
    bls near1\n\
    bge near1\n\
    blt near1\n\
    bgt near1\n\
    ble near1\n\
    msr #8, r7\n\
    mrs r6, #3\n\
    .align\n\
    lit1: .word end1+8\n\
    .word -5\n\
    end1: nop\n\
";

/// Its words.
const WORDS: [u16; 215] = [
    0x269b, 0x2d94, 0x328e, 0x390d, 0x19b3, 0x1dac, 0x1a82, 0x1ed3, 0x074d, 0x0ee1, 0x12b9, 0x402e,
    0x4070, 0x4085, 0x40c5, 0x412f, 0x4170, 0x418b, 0x41db, 0x4205, 0x424c, 0x429c, 0x42e2, 0x432c,
    0x4355, 0x438d, 0x43ec, 0x4480, 0x4582, 0x465f, 0x4720, 0x47b8, 0x4823, 0xa323, 0x5064, 0x5287,
    0x55be, 0x571a, 0x58ca, 0x5b60, 0x5c85, 0x5f0e, 0x67b4, 0x6bc9, 0x72a3, 0x7fc4, 0x83be, 0x893e,
    0x976f, 0x9bf7, 0xad60, 0xb07d, 0xb0af, 0xb230, 0xb268, 0xb29a, 0xb2ed, 0xba1a, 0xba74, 0xbafd,
    0xb453, 0xbc13, 0xc2d8, 0xca99, 0xca4d, 0xbf00, 0xbf10, 0xbf20, 0xbf30, 0xbf40, 0xf3bf, 0x8f4f,
    0xf3bf, 0x8f5f, 0xf3bf, 0x8f6f, 0xb672, 0xbeac, 0xdea8, 0xdf6c, 0xe7fe, 0xf000, 0xf819, 0xd0fb,
    0xd1fa, 0xd2f9, 0xd3f8, 0xd4f7, 0xd5f6, 0xd6f5, 0xd7f4, 0xd8f3, 0xd9f2, 0xdaf1, 0xdbf0, 0xdcef,
    0xddee, 0xf387, 0x8800, 0xf3ef, 0x8e01, 0xfffe, 0xffff, 0x0000, 0x00d8, 0x2000, 0xcdef, 0x89ab,
    0xbf00, 0x200e, 0x29f1, 0x3468, 0x390d, 0x181f, 0x1d8e, 0x1ac0, 0x1f64, 0x0375, 0x09a8, 0x1560,
    0x400d, 0x4055, 0x40bb, 0x40fc, 0x4121, 0x414b, 0x41a6, 0x41fb, 0x4215, 0x4253, 0x428c, 0x42fe,
    0x4316, 0x4352, 0x43bd, 0x43f4, 0x44c8, 0x4591, 0x46de, 0x4710, 0x47e0, 0x4b22, 0xa621, 0x50bd,
    0x53dc, 0x555c, 0x5748, 0x598f, 0x5af1, 0x5d0a, 0x5f61, 0x626f, 0x6ce2, 0x726e, 0x7c0e, 0x835b,
    0x8e35, 0x9428, 0x9ccf, 0xaba1, 0xb002, 0xb085, 0xb228, 0xb277, 0xb2a6, 0xb2fc, 0xba32, 0xba5b,
    0xbaeb, 0xb5aa, 0xbd2a, 0xc3b2, 0xcf63, 0xcbc8, 0xbf00, 0xbf10, 0xbf20, 0xbf30, 0xbf40, 0xf3bf,
    0x8f4f, 0xf3bf, 0x8f5f, 0xf3bf, 0x8f6f, 0xb662, 0xbe74, 0xdecd, 0xdfc1, 0xe7fe, 0xf7ff, 0xff40,
    0xd0fb, 0xd1fa, 0xd2f9, 0xd3f8, 0xd4f7, 0xd5f6, 0xd6f5, 0xd7f4, 0xd8f3, 0xd9f2, 0xdaf1, 0xdbf0,
    0xdcef, 0xddee, 0xf387, 0x8808, 0xf3ef, 0x8603, 0x01b4, 0x2000, 0xfffb, 0xffff, 0xbf00,
];

/// Whether an image begins at 20000000, and its parts, each but the last of 256 bytes, stand one behind another.
fn is_whole(image: &Image) -> bool {
    let parts = image.parts.as_slice();
    let mut address = 0x2000_0000u32;
    for (index, part) in parts.iter().enumerate() {
        let size = part.bytes.as_slice().len();
        if part.address != address || size != 256 && index + 1 != parts.len() {
            return false;
        }
        address = address.wrapping_add(256);
    }
    image.entry == 0x2000_0000
}

#[test]
fn words_of_another_assembler(rt: HostRuntime) -> Result<(), Fail> {
    let alloc = rt.alloc();
    let image = assembled(alloc, SOURCE.as_bytes())?;
    let wanted = bytes_in(alloc, &WORDS)?;
    assert!(rt; is_whole(&image));
    assert!(rt; bytes_of(alloc, &image)?.as_slice() == wanted.as_slice());
    Ok(())
}

/// Whether the file of an image is read back as it.
fn comes_back(alloc: Global, image: &Image) -> Result<bool, AllocError>
    requires { IsWritable image.now }
{
    let file = write_image(alloc, image)?;
    if file.len() > 16_777_216 {
        return Ok(false);
    }
    match read_image(alloc, &file) {
        Ok(read) => {
            let same = bytes_of(alloc, &read)?.as_slice() == bytes_of(alloc, image)?.as_slice();
            Ok(same && is_whole(&read))
        }
        Err(_) => Ok(false),
    }
}

#[test]
fn what_is_written_is_read(rt: HostRuntime) -> Result<(), Fail> {
    let alloc = rt.alloc();
    let image = assembled(alloc, SOURCE.as_bytes())?;
    assert!(rt; comes_back(alloc, &image)?);
    Ok(())
}

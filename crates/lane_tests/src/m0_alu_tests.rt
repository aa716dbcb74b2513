//! Sums, shifts, extensions and products at their corners.

use m0_alu::{ExtendKind, ShiftKind, add_carry, extend, multiply, shift};
use test_deeds::{Bench, byte, first_wrong};

/// The arithmetic of a core.
#[derive(Drop)]
struct Alu;

/// A shift of a word by an amount with a carry gives a word and a carry.
fn shifts(kind: ShiftKind, words: &[u32; 8]) -> bool {
    let (word, carry) = shift(kind, words[0], byte(words[1]), words[2] == 1);
    word == words[3] && carry == (words[4] == 1)
}

impl Bench for Alu {
    fn does(&mut self, verb: &str, words: &[u32; 8]) -> bool {
        let [x, y, third, ..] = *words;
        match verb {
            // two words and a carry; the sum, the carry and the overflow
            "add" => {
                let (sum, carry, overflow) = add_carry(x, y, third == 1);
                sum == words[3] && carry == (words[4] == 1) && overflow == (words[5] == 1)
            }
            "lsl" => shifts(ShiftKind::Lsl, words),
            "lsr" => shifts(ShiftKind::Lsr, words),
            "asr" => shifts(ShiftKind::Asr, words),
            "ror" => shifts(ShiftKind::Ror, words),
            // a word, and what it becomes
            "sxth" => extend(ExtendKind::Sxth, x) == y,
            "sxtb" => extend(ExtendKind::Sxtb, x) == y,
            "uxth" => extend(ExtendKind::Uxth, x) == y,
            "uxtb" => extend(ExtendKind::Uxtb, x) == y,
            "rev" => extend(ExtendKind::Rev, x) == y,
            "rev16" => extend(ExtendKind::Rev16, x) == y,
            "revsh" => extend(ExtendKind::Revsh, x) == y,
            "mul" => multiply(x, y) == third,
            _ => false,
        }
    }
}

/// Values from the manual's definitions.
const TEXT: &str = "\
    add 0 0 0 0 0 0; add ffffffff 1 0 0 1 0; add ffffffff ffffffff 1 ffffffff 1 0; add ffffffff 0 1 0 1 0;\
    add 7fffffff 1 0 80000000 0 1; add 7fffffff 0 1 80000000 0 1; add 80000000 80000000 0 0 1 1;\
    add 80000000 7fffffff 1 0 1 0; add 80000000 fffffffe 1 7fffffff 1 1;\
    lsl 80000001 0 1 80000001 1; lsl 80000001 1 0 2 1; lsl 80000001 #31 1 80000000 0; lsl 80000001 #32 0 0 1;\
    lsl ffffffff #33 1 0 0; lsr 80000001 0 0 80000001 0; lsr 80000001 1 0 40000000 1; lsr 80000001 #32 0 0 1;\
    lsr ffffffff #33 1 0 0; asr 80000002 1 1 c0000001 0; asr 80000000 #31 0 ffffffff 0; asr 80000000 #32 0 ffffffff 1;\
    asr 7fffffff #255 1 0 0; asr 80000000 #255 0 ffffffff 1; ror 1 0 1 1 1; ror 12345678 8 1 78123456 0;\
    ror 80000001 #32 0 80000001 1; ror 3 #33 0 80000001 1;\
    sxth 12348765 ffff8765; sxth ffff7fff 7fff; sxtb 12345680 ffffff80; uxth 12348765 8765; uxtb 12345680 80;\
    rev 12345678 78563412; rev16 12345678 34127856; revsh 12345678 7856; revsh 12340080 ffff8000;\
    mul 10001 ffff ffffffff; mul ffffffff ffffffff 1;";

#[test]
fn corners(rt: HostRuntime) {
    assert_eq!(rt; first_wrong(&mut Alu, TEXT), None);
    // a deed that is not so is found, as is one with a word that is no number
    let wrong = first_wrong(&mut Alu, "mul 2 3 6; mul 2 3 7;");
    assert_eq!(rt; wrong, Some((1, "mul 2 3 7")));
    let unread = first_wrong(&mut Alu, "mul 2 #a 14;");
    assert_eq!(rt; unread, Some((0, "mul 2 #a 14")));
}

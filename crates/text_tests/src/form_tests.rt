//! Each form of each instruction, as it is read and as it is written.

use crate::program_tests::has_words;
use pio_disasm::write_source;
use pio_words::SideConfig;
use std::alloc::Global;

// Whether a text is the source of these words.
fn is_source(alloc: Global, words: &[u16], side: &SideConfig, text: &str) -> bool {
    match write_source(alloc, words, side) {
        Ok(written) => written.as_slice() == text.as_bytes(),
        Err(_) => false,
    }
}

// Whether a text has these words, the last of which is at `wrap`, and is their source.
fn goes_both_ways(alloc: Global, text: &str, side: &SideConfig, words: &[u16], wrap: u8) -> bool {
    has_words(alloc, text.as_bytes(), words, 0, wrap) && is_source(alloc, words, side, text)
}

// Each form of each instruction as it is written, and the word that the table gives for it.
#[test]
fn each_form_both_ways(rt: HostRuntime) {
    let none = SideConfig {
        count: 0,
        opt: false,
        pindirs: false,
    };
    let first: [u16; 32] = [
        0x0005, 0x0025, 0x0045, 0x0065, 0x0085, 0x00a5, 0x00c5, 0x00ff, 0x201f, 0x209f, 0x2023,
        0x20a3, 0x2045, 0x20c5, 0x2055, 0x20d5, 0x4000, 0x4021, 0x4041, 0x407f, 0x40c1, 0x40e1,
        0x6000, 0x6021, 0x6041, 0x607f, 0x6081, 0x60a1, 0x60c1, 0x60e1, 0x8000, 0x8020,
    ];
    let text =
        ".program code\njmp 5\njmp !x 5\njmp x-- 5\njmp !y 5\njmp y-- 5\njmp x!=y 5\njmp pin 5\njmp !osre 31\nwait 0 gpio 31\nwait 1 gpio 31\nwait 0 pin 3\nwait 1 pin 3\nwait 0 irq 5\nwait 1 irq 5\nwait 0 irq 5 rel\nwait 1 irq 5 rel\nin pins, 32\nin x, 1\nin y, 1\nin null, 31\nin isr, 1\nin osr, 1\nout pins, 32\nout x, 1\nout y, 1\nout null, 31\nout pindirs, 1\nout pc, 1\nout isr, 1\nout exec, 1\npush noblock\npush block\n";
    assert!(rt; goes_both_ways(rt.alloc(), text, &none, &first, 31));
    let second: [u16; 32] = [
        0x8040, 0x8060, 0x8080, 0x80a0, 0x80c0, 0x80e0, 0xa001, 0xa020, 0xa043, 0xa085, 0xa0a6,
        0xa0c7, 0xa0e2, 0xa02a, 0xa032, 0xa042, 0xc003, 0xc023, 0xc043, 0xc013, 0xc033, 0xc053,
        0xe01f, 0xe020, 0xe041, 0xe081, 0xbf42, 0x2060, 0x4080, 0x8001, 0xa060, 0xa018,
    ];
    let text =
        ".program code\npush iffull noblock\npush iffull block\npull noblock\npull block\npull ifempty noblock\npull ifempty block\nmov pins, x\nmov x, pins\nmov y, null\nmov exec, status\nmov pc, isr\nmov isr, osr\nmov osr, y\nmov x, !y\nmov x, ::y\nnop\nirq nowait 3\nirq wait 3\nirq clear 3\nirq nowait 3 rel\nirq wait 3 rel\nirq clear 3 rel\nset pins, 31\nset x, 0\nset y, 1\nset pindirs, 1\nnop [31]\n.word 0x2060\n.word 0x4080\n.word 0x8001\n.word 0xa060\n.word 0xa018\n";
    assert!(rt; goes_both_ways(rt.alloc(), text, &none, &second, 31));
    let third: [u16; 5] = [0xa004, 0xc008, 0xc080, 0xc063, 0xe060];
    let text =
        ".program code\n.word 0xa004\n.word 0xc008\n.word 0xc080\n.word 0xc063\n.word 0xe060\n";
    assert!(rt; goes_both_ways(rt.alloc(), text, &none, &third, 4));
}

// Forms that are read and never written.
#[test]
fn other_forms(rt: HostRuntime) {
    let words: [u16; 10] = [
        0x0045, 0x2023, 0x20d5, 0x8020, 0x80a0, 0xa02a, 0xc003, 0xc013, 0x0008, 0xbf42,
    ];
    let text =
        ".program code\nJMP X--, (2 + 3)\nwait 0 pin, 3\nwait (1) irq, 5 rel\npush\npull\nmov x, ! y\nirq 3\nirq set 3 rel\npublic l: jmp l // again\nnop [7 * (3 + 1) + 3] /* all */ ; of it\n";
    assert!(rt; has_words(rt.alloc(), text.as_bytes(), &words, 0, 9));
}

// Side-set values and delays as they are written, under a side-set, with the word of each.
#[test]
fn each_side_both_ways(rt: HostRuntime) {
    let plain = SideConfig {
        count: 1,
        opt: false,
        pindirs: false,
    };
    let text = ".program code\n.side_set 1\nnop side 1 [15]\nnop side 0 [3]\n";
    assert!(rt; goes_both_ways(rt.alloc(), text, &plain, &[0xbf42, 0xa342], 1));
    let optional = SideConfig {
        count: 2,
        opt: true,
        pindirs: false,
    };
    let text = ".program code\n.side_set 2 opt\nnop side 3 [1]\nnop [2]\n";
    assert!(rt; goes_both_ways(rt.alloc(), text, &optional, &[0xbd42, 0xa242], 1));
    let directions = SideConfig {
        count: 3,
        opt: false,
        pindirs: true,
    };
    let text = ".program code\n.side_set 3 pindirs\nnop side 5 [2]\n";
    assert!(rt; goes_both_ways(rt.alloc(), text, &directions, &[0xb642], 0));
}

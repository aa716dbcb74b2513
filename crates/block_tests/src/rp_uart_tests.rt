//! Registers as the manuals give them (4.2.8), bytes sent at 115200 baud, frames that are received, and interrupts.

use rp_uart::uart::Uart;
use test_deeds::{Bench, byte, first_wrong, half};

/// A UART whose bits last 16 cycles, with these words in UARTLCR_H and UARTCR.
fn fast(line_control: u32, control: u32) -> Uart {
    let mut uart = Uart::new();
    for (offset, word) in [(0x24, 1), (0x2c, line_control), (0x30, control)] {
        uart.effect(offset, Some(word));
    }
    uart
}

/// Steps a UART so often through the levels of a number from the lowest bit, each for 16 cycles.
fn hear(uart: &mut Uart, levels: u32, cycles: u32) {
    let mut rest = levels;
    for cycle in 0..cycles {
        let _ = uart.step(rest % 2 == 1);
        if cycle % 16 == 15 {
            rest /= 2;
        }
    }
}

/// So often no byte has ended, where RX is high.
fn sends_none(uart: &mut Uart, cycles: u32) -> bool {
    for _ in 0..cycles {
        if uart.step(true).is_some() {
            return false;
        }
    }
    true
}

/// A frame is read so, and leaves nothing.
fn hears(words: &[u32; 8]) -> bool {
    let mut uart = fast(words[0], 0x201);
    hear(&mut uart, words[1], words[2]);
    let word = uart.read(0x00);
    uart.effect(0x00, None)
        && word == Some(words[3])
        && uart.read(0x04) == Some(words[3] >> 8)
        && uart.read(0x18) == Some(0x90)
}

/// Two bytes are sent and come back, the second one to a copy.
fn comes_back(line_control: u32) -> bool {
    let mut uart = fast(line_control, 0x381);
    for (offset, word) in [(0x48, 3), (0x00, 0x15), (0x00, 0x0a)] {
        uart.effect(offset, Some(word));
    }
    let before = uart.pacing() == [30, 0];
    hear(&mut uart, 0, 1);
    let low = !uart.out();
    hear(&mut uart, 0, 400);
    let after = uart.pacing() == [32, 2];
    let first = uart.read(0x00);
    uart.effect(0x00, None);
    let mut twin = Uart::new();
    twin.copy_from(&uart);
    before && low && after && first == Some(0x15) && twin.read(0x00) == Some(0x0a)
}

/// What concerns a word.
fn does_word(uart: &mut Uart, verb: &str, words: &[u32; 8]) -> bool {
    let offset = half(words[0]);
    let write = Some(words[1]);
    match verb {
        // an offset, what is written there, and what is read then
        "keeps" => {
            uart.allows(offset, write)
                && uart.effect(offset, write)
                && uart.read(offset) == Some(words[2])
        }
        "write" => uart.effect(offset, write),
        "take" => uart.effect(offset, None),
        // what is read, while the interrupt line is as UARTMIS has it
        "reads" => {
            let line = uart.read(0x40) != Some(0);
            uart.read(offset) == write && uart.line() == line
        }
        "none" => {
            !uart.allows(offset, None) && !uart.effect(offset, None) && uart.read(offset).is_none()
        }
        _ => false,
    }
}

/// A UART whose RX is driven.
#[derive(Drop)]
struct Wired(Uart);

impl Bench for Wired {
    fn does(&mut self, verb: &str, words: &[u32; 8]) -> bool {
        let uart = &mut self.0;
        match verb {
            // UARTLCR_H and UARTCR of one whose bits last 16 cycles
            "fast" => uart.copy_from(&fast(words[0], words[1])),
            // the levels of RX, and for how many cycles
            "hear" => hear(uart, words[0], words[1]),
            // RX is high for so many cycles
            "high" => {
                for _ in 0..words[0] {
                    let _ = uart.step(true);
                }
            }
            // the same, and no byte ends in them; and a cycle in which this one does
            "quiet" => return sends_none(uart, words[0]),
            "sent" => return uart.step(true) == Some(byte(words[0])),
            // UARTLCR_H, the levels of a frame and for how many cycles, and what is read from UARTDR
            "frame" => return hears(words),
            "back" => return comes_back(words[0]),
            _ => return does_word(uart, verb, words),
        }
        true
    }
}

/// What is read after reset, what each word keeps of a write, and offsets of no word.
const WORDS: &str = "\
    reads 18 90; reads 30 300; reads 34 12; reads 3c 0;\
    keeps 00 1ff 0; keeps 04 ff 0; keeps 18 0 38; keeps 24 ffffffff ffff; keeps 28 ffffffff 3f;\
    keeps 2c ffffffff 7e; keeps 2c 20 20; keeps 30 ffffffff 381; keeps 34 ffffffff 3f; keeps 38 ffffffff 7f0;\
    keeps 3c ffffffff 0; keeps 40 ffffffff 0; keeps 44 ffffffff 0; keeps 48 ffffffff 3;\
    none 08; none 01; none 1c; none 20; none 25; none 4c; none fe0;";

/// A program at 115200 baud and 125 MHz sends `Hello`, each byte 10 bits of 1085 cycles after the one before.
const HELLO: &str = "\
    quiet 8; write 24 43; quiet 6; write 28 34; quiet 6; write 2c 70; quiet 7; write 30 301; quiet 6; write 00 48;\
    quiet 6; write 00 65; quiet 6; write 00 6c; quiet 5; write 00 6c; quiet 6; write 00 6f;\
    quiet #10827; sent 48; quiet #10849; sent 65; quiet #10849; sent 6c; quiet #10849; sent 6c; quiet #10849; sent 6f; quiet #5716;\
    reads 18 90;";

/// Frames of several formats, and what comes back of those that are sent.
const FRAMES: &str = "\
    frame 70 290 #160 48; frame 16 e6 #128 13; frame 16 a6 #128 213; frame 5a 782 #176 41; frame 70 490 #176 148;\
    frame 70 800 #192 500; frame 02 80 #128 200;\
    back 10; back 36; back 5a; back 7e;";

/// A UART of one byte a FIFO. TX comes as the byte leaves the FIFO, and RX is not masked. A second byte is lost, which the third one
/// tells. 32 bits after the middle of the stop bit, where the byte ended, the timeout comes, once.
const TOLD: &str = "\
    fast 60 301; write 38 10; reads 38 10; write 00 48; reads 3c 0; high 1; reads 3c 20;\
    hear 290 #160; reads 40 10; hear 290 #160; reads 3c 430; reads 04 8; take 00; reads 3c 420;\
    write 04 0; reads 04 0; write 44 420; reads 3c 0; hear 290 #160; reads 00 848;\
    high #504; reads 3c 10; high 1; reads 3c 50; write 44 40; reads 3c 10; high #768; reads 3c 10;";

#[test]
fn words_and_frames(rt: HostRuntime) {
    for text in [WORDS, HELLO, FRAMES, TOLD] {
        assert_eq!(rt; first_wrong(&mut Wired(Uart::new()), text), None);
    }
}

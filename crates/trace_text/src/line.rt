//! The lines, written into a buffer of fixed size.

ghost use Rattle.std.specs.Prelude.{◌≡◌, ◌+◌, ◌<◌, ◌≤◌, ◌++◌, Option, length, decimal, flat_map};
ghost use Rattle.std.specs.Char.{digit_char};
ghost use Rattle.arrayvec.specs.ArrayVec.{array_vec_len};
ghost use Rattle.trace_text.specs.Line.{hex_word, hex_byte, master_name, core_name, cause_words, stop_text, register_text, spaced_word, event_text};

use crate::event::Event;
use arrayvec::ArrayVec;
use itoa::Buffer;
use rp_base::{Master, Why};

/// The lower-case hexadecimal digit of a number below 16.
fn hex_digit_of(digit: u32) -> u8
    requires { digit < 16 }
    ensures { result ≡ digit_char digit }
{
    if digit < 10 {
        b'0' + digit as u8
    } else {
        b'a' - 10 + digit as u8
    }
}

/// Appends a word as eight digits.
#[tactic(auto, unfolding(crate::specs::Line::hex_word))]
pub fn push_word<const N: usize>(word: u32, out: &mut ArrayVec<u8, N>)
    requires { array_vec_len out.old + 8 ≤ N }
    ensures digits { out.new.items ≡ out.old.items ++ hex_word word }
    ensures eight { length (hex_word word) ≡ 8 }
{
    out.push(hex_digit_of(word / 0x1000_0000 % 16));
    out.push(hex_digit_of(word / 0x0100_0000 % 16));
    out.push(hex_digit_of(word / 0x0010_0000 % 16));
    out.push(hex_digit_of(word / 0x0001_0000 % 16));
    out.push(hex_digit_of(word / 0x1000 % 16));
    out.push(hex_digit_of(word / 0x0100 % 16));
    out.push(hex_digit_of(word / 0x0010 % 16));
    out.push(hex_digit_of(word % 16));
}

/// Appends a text that fits.
pub fn push_text<const N: usize>(text: &[u8], out: &mut ArrayVec<u8, N>)
    requires { array_vec_len out.old + length text.now ≤ N }
    ensures { out.new.items ≡ out.old.items ++ text.now }
{
    let _fits = out.try_extend_from_slice(text);
}

/// Appends a number in decimal digits, at most 20.
pub fn push_number<const N: usize>(number: u64, out: &mut ArrayVec<u8, N>)
    requires { array_vec_len out.old + 20 ≤ N }
    ensures text { out.new.items ≡ out.old.items ++ decimal number }
    ensures short { length (decimal number) ≤ 20 }
{
    let mut buffer = Buffer::new();
    push_text(buffer.format(number).as_bytes(), out);
}

/// The name of a master of the bus.
fn name_of(master: Master) -> &'static [u8]
    ensures name { result.now ≡ master_name master }
    ensures short { length result.now ≤ 5 }
{
    match master {
        Master::Core0 => b"core0",
        Master::Core1 => b"core1",
        Master::DmaRead | Master::DmaWrite => b"dma",
    }
}

/// Appends a core's name by its number.
fn push_core<const N: usize>(core: u8, out: &mut ArrayVec<u8, N>)
    requires { array_vec_len out.old + 24 ≤ N }
    ensures name { out.new.items ≡ out.old.items ++ core_name core }
    ensures short { length (core_name core) ≤ 24 }
{
    push_text(b"core", out);
    push_number(u64::from(core), out);
}

/// Appends a cause without its cycle.
fn push_cause<const N: usize>(why: &Why, out: &mut ArrayVec<u8, N>)
    requires { array_vec_len out.old + 40 ≤ N }
    ensures cause { out.new.items ≡ out.old.items ++ cause_words why.now }
    ensures short { length (cause_words why.now) ≤ 40 }
{
    match *why {
        Why::Limit => push_text(b"limit", out),
        Why::Bkpt(core) => {
            push_text(b"bkpt ", out);
            push_core(core, out);
        }
        Why::Lockup(core) => {
            push_text(b"lockup ", out);
            push_core(core, out);
        }
        Why::Outside(master, address) => {
            push_text(b"outside ", out);
            push_text(name_of(master), out);
            push_text(b" ", out);
            push_word(address, out);
        }
    }
}

/// Appends the line of a stop, with its LF.
#[tactic(auto, unfolding(crate::specs::Line::stop_text))]
pub fn stop_line<const N: usize>(why: &Why, cycle: u64, out: &mut ArrayVec<u8, N>)
    requires { array_vec_len out.old + 192 ≤ N }
    ensures { out.new.items ≡ out.old.items ++ stop_text why.now cycle }
{
    push_text(b"stop ", out);
    push_cause(why, out);
    push_text(b" ", out);
    push_number(cycle, out);
    push_text(b"\n", out);
}

/// Appends the words of a register line, each after a space.
fn push_words<const N: usize>(words: &[u32; 17], out: &mut ArrayVec<u8, N>)
    requires { array_vec_len out.old + 153 ≤ N }
    ensures words { out.new.items ≡ out.old.items ++ flat_map spaced_word words.now }
    ensures longer { array_vec_len out.new ≡ array_vec_len out.old + 153 }
{
    for word in words {
        out.push(b' ');
        push_word(*word, out);
    }
}

/// Appends a core's line of registers, R0 to R12, SP, LR, PC and xPSR, with its LF; `None` is a core that sleeps.
#[tactic(auto, unfolding(crate::specs::Line::register_text))]
pub fn register_line<const N: usize>(core: u8, words: Option<[u32; 17]>, out: &mut ArrayVec<u8, N>)
    requires { array_vec_len out.old + 192 ≤ N }
    ensures { out.new.items ≡ out.old.items ++ register_text core words }
{
    push_core(core, out);
    match words {
        None => push_text(b" asleep\n", out),
        Some(words) => {
            push_words(&words, out);
            push_text(b"\n", out);
        }
    }
}

/// Appends a byte as two digits.
#[tactic(auto, unfolding(crate::specs::Line::hex_byte))]
fn push_byte<const N: usize>(byte: u8, out: &mut ArrayVec<u8, N>)
    requires { array_vec_len out.old + 2 ≤ N }
    ensures digits { out.new.items ≡ out.old.items ++ hex_byte byte }
    ensures two { length (hex_byte byte) ≡ 2 }
{
    out.push(hex_digit_of(u32::from(byte / 16)));
    out.push(hex_digit_of(u32::from(byte % 16)));
}

/// Appends the line of an event, with its LF.
#[tactic(auto, unfolding(crate::specs::Line::event_text))]
pub fn event_line<const N: usize>(event: &Event, out: &mut ArrayVec<u8, N>)
    requires { array_vec_len out.old + 192 ≤ N }
    ensures { out.new.items ≡ out.old.items ++ event_text event.now }
{
    match *event {
        Event::Uart {
            cycle,
            number,
            byte,
        } => {
            push_number(cycle, out);
            push_text(b" uart", out);
            push_number(u64::from(number), out);
            push_text(b" ", out);
            push_byte(byte, out);
        }
        Event::Pin { cycle, pin, level } => {
            push_number(cycle, out);
            push_text(b" pin ", out);
            push_number(u64::from(pin), out);
            push_text(if level { b" 1" } else { b" 0" }, out);
        }
    }
    push_text(b"\n", out);
}

//! The lines of the replies.

ghost use Rattle.std.specs.Prelude.{◌≡◌, ◌≤◌, ◌<◌, ◌+◌, ◌*◌, ◌^◌, ◌++◌, ◌∷◌, [], drop, codes, flat_map, true};
ghost use Rattle.std.specs.List.{range_with_len};
ghost use Rattle.arrayvec.specs.ArrayVec.{array_vec_len};
ghost use Rattle.outer_lane.specs.Setting.{setting};
ghost use Rattle.rp_base.specs.Word.{has_bit};
ghost use Rattle.trace_text.specs.Line.{hex_word, level_digit, spaced_word};
ghost use Rattle.reverse_debug.specs.Command.{addresses, are_words};
ghost use Rattle.reverse_debug.specs.Reading.{sought};
ghost use Rattle.reverse_debug.specs.Reply.{word_at, regs_reply, mem_reply, pins_reply, pio_words, pio_reply, peek_reply, at_reply, watched_text, last_reply};

use crate::watch::{Watched, word_at};
use arrayvec::ArrayVec;
use lane_look::Device;
use rp_base::bits::has_bit;
use rp_machine::{Machine, World};
use trace_text::line::{push_number, push_text, push_word, register_line};

/// The reply to a line, at most 1024 bytes.
pub(crate) type Reply = ArrayVec<u8, 1024>;

/// The lines of both cores.
#[tactic(auto, unfolding(crate::specs::Reply::regs_reply))]
pub(crate) fn put_registers(machine: &Machine, reply: &mut Reply)
    requires { reply.old.items ≡ [] }
    ensures { reply.new.items ≡ regs_reply machine.now }
{
    let mut line = ArrayVec::<u8, 192>::new();
    register_line(0, machine.registers(0), &mut line);
    push_text(line.as_slice(), reply);
    register_line(1, machine.registers(1), reply);
}

/// A space and a word.
fn push_spaced_word(word: u32, reply: &mut Reply)
    requires { array_vec_len reply.old + 9 ≤ 1024 }
    ensures text { reply.new.items ≡ reply.old.items ++ spaced_word word }
    ensures longer { array_vec_len reply.new ≡ array_vec_len reply.old + 9 }
{
    reply.push(b' ');
    push_word(word, reply);
}

/// The words of SRAM from an address on.
fn push_words(machine: &Machine, address: u32, count: u64, reply: &mut Reply)
    requires room { array_vec_len reply.old ≤ 100 }
    requires few { count ≤ 16 }
    requires low { address + 4 * count < 2 ^ 32 }
    ensures text { reply.new.items
        ≡ reply.old.items
        ++ flat_map (λ a. spaced_word (word_at machine.now a)) (addresses address count) }
    ensures short { array_vec_len reply.new ≤ 300 }
{
    let mut next = address;
    let mut left = count;
    'words: while left > 0 {
        push_spaced_word(word_at(machine, next), reply);
        next += 4;
        left -= 1;
    }
}

/// Words of SRAM.
#[tactic(auto, using(crate::proofs::Reading::few_words, crate::proofs::Reading::low_words), unfolding(crate::specs::Reply::mem_reply))]
pub(crate) fn put_words(machine: &Machine, address: u32, count: u64, reply: &mut Reply)
    requires empty { reply.old.items ≡ [] }
    requires words { are_words address count ≡ true }
    ensures { reply.new.items ≡ mem_reply machine.now address count }
{
    push_text(b"mem ", reply);
    push_word(address, reply);
    push_words(machine, address, count, reply);
    push_text(b"\n", reply);
}

/// The digit of a level.
fn level_digit(high: bool) -> u8
    ensures { result ∷ [] ≡ level_digit high }
{
    if high { b'1' } else { b'0' }
}

/// A digit for each pad, pad 0 first.
fn push_levels(pads: u32, reply: &mut Reply)
    requires { array_vec_len reply.old ≤ 100 }
    ensures text { reply.new.items
        ≡ reply.old.items ++ flat_map (λ pin. level_digit (has_bit pads pin))
        (range_with_len 0 30) }
    ensures short { array_vec_len reply.new ≤ 130 }
{
    for pin in 0..30 {
        reply.push(level_digit(has_bit(pads, pin)));
    }
}

/// The levels of the pads.
#[tactic(auto, unfolding(crate::specs::Reply::pins_reply))]
pub(crate) fn put_pins(machine: &Machine, reply: &mut Reply)
    requires { reply.old.items ≡ [] }
    ensures { reply.new.items ≡ pins_reply machine.now }
{
    push_text(b"pins ", reply);
    push_levels(machine.pads(), reply);
    push_text(b"\n", reply);
}

/// A space and the last two of the digits of a word.
fn push_spaced_byte(word: u32, reply: &mut Reply)
    requires { array_vec_len reply.old + 3 ≤ 1024 }
    ensures text { reply.new.items ≡ reply.old.items ++ (codes " " ++ drop 6 (hex_word word)) }
    ensures longer { array_vec_len reply.new ≡ array_vec_len reply.old + 3 }
{
    let mut digits = ArrayVec::<u8, 8>::new();
    push_word(word, &mut digits);
    reply.push(b' ');
    push_text(&digits.as_slice()[6..], reply);
}

/// The registers of a PIO machine: PC with two digits, then X, Y, ISR and OSR.
#[tactic(auto, using(crate::proofs::Listing::five_registers))]
fn push_pio_words(words: &[u32; 5], reply: &mut Reply)
    requires { array_vec_len reply.old ≤ 100 }
    ensures text { reply.new.items ≡ reply.old.items ++ pio_words words.now }
    ensures short { array_vec_len reply.new ≤ 200 }
{
    let [counter, x, y, isr, osr] = *words;
    push_spaced_byte(counter, reply);
    push_spaced_word(x, reply);
    push_spaced_word(y, reply);
    push_spaced_word(isr, reply);
    push_spaced_word(osr, reply);
}

/// The registers of a machine of a PIO block.
#[tactic(auto, unfolding(crate::specs::Reply::pio_reply))]
pub(crate) fn put_pio(machine: &Machine, block: u8, number: u8, reply: &mut Reply)
    requires empty { reply.old.items ≡ [] }
    requires block { block ≤ 1 }
    requires number { number ≤ 3 }
    ensures { reply.new.items ≡ pio_reply machine.now block number }
{
    push_text(b"pio ", reply);
    push_number(u64::from(block), reply);
    push_text(b" ", reply);
    push_number(u64::from(number), reply);
    push_pio_words(&machine.pio(block, number), reply);
    push_text(b"\n", reply);
}

/// A word that a read of core 0 would give.
#[tactic(auto, unfolding(crate::specs::Reply::peek_reply))]
pub(crate) fn put_peek<X: Device>(
    machine: &Machine,
    world: &World<'_, X>,
    address: u32,
    reply: &mut Reply,
)
    requires { reply.old.items ≡ [] }
    ensures { reply.new.items
        ≡ peek_reply (setting X.meaning world.now) machine.now address }
{
    match machine.peek(world, address) {
        None => push_text(b"bad command\n", reply),
        Some(word) => {
            push_text(b"peek ", reply);
            push_word(address, reply);
            push_spaced_word(word, reply);
            push_text(b"\n", reply);
        }
    }
}

/// The cycle at which the session stands.
#[tactic(auto, unfolding(crate::specs::Reply::at_reply))]
pub(crate) fn put_cycle(cycle: u64, reply: &mut Reply)
    requires { reply.old.items ≡ [] }
    ensures { reply.new.items ≡ at_reply cycle }
{
    push_text(b"at ", reply);
    push_number(cycle, reply);
    push_text(b"\n", reply);
}

/// The name of what is watched.
fn push_watched(watched: Watched, reply: &mut Reply)
    requires { reply.old.items ≡ [] }
    ensures text { reply.new.items ≡ watched_text (sought watched) }
    ensures short { array_vec_len reply.new ≤ 50 }
{
    match watched {
        Watched::Word(address) => {
            push_text(b"lastwrite ", reply);
            push_word(address, reply);
        }
        Watched::Pin(pin) => {
            push_text(b"lastpin ", reply);
            push_number(u64::from(pin), reply);
        }
        Watched::Begun(_, address) => {
            push_text(b"lastat ", reply);
            push_word(address.unwrap_or(0), reply);
        }
    }
}

/// The last cycle in which what is watched happened.
#[tactic(auto, unfolding(crate::specs::Reply::last_reply))]
pub(crate) fn put_last(watched: Watched, last: Option<u64>, reply: &mut Reply)
    requires { reply.old.items ≡ [] }
    ensures { reply.new.items ≡ last_reply (sought watched) last }
{
    push_watched(watched, reply);
    push_text(b" ", reply);
    match last {
        Some(cycle) => push_number(cycle, reply),
        None => push_text(b"none", reply),
    }
    push_text(b"\n", reply);
}

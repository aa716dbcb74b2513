//! Lines that send bytes to a pin, as a serial line does.

ghost use Rattle.std.specs.Prelude.{◌≡◌, ◌≢◌, ◌∷◌, ◌<◌, ◌≤◌, ◌++◌, ◌/◌, ◌+◌, ◌*◌, [], None, true, length, IfErr, IfOk, MatchOption, OnOk};
ghost use Rattle.std.specs.Option.{option_map};
ghost use Rattle.pin_script.specs.Words.{fields, are_bytes};
ghost use Rattle.pin_script.specs.Lines.{frame_level, sent_entry, sent_count, sent_entries, send_words, send_words_of};
ghost use Rattle.pin_script.specs.Reading.{HasPins};

use crate::entry::{Level, LineEntry};
use crate::fault::ScriptFault;
use crate::line::{CYCLE_DIGITS, Earlier, LAST_PIN, PIN_DIGITS};
use crate::words::{are_bytes, byte_at};
use rp_base::bits::has_bit;
use source_text::{first_part, number_of};

/// How many digits a divisor may have.
const DIVISOR_DIGITS: usize = 7;

/// The least divisor, an integer part of 1.
const LEAST_DIVISOR: u64 = 64;

/// The greatest divisor, an integer part of 65535 and a fraction of 63.
const GREATEST_DIVISOR: u64 = 4_194_303;

/// The words of a line that sends bytes, after the first.
#[derive(Drop)]
pub(crate) struct SendWords<'a> {
    cycle: &'a [u8],
    pin: &'a [u8],
    divisor: &'a [u8],
    bytes: &'a [u8],
}

/// What a line sends.
#[derive(Clone, Copy)]
struct LineSend {
    number: u32,
    cycle: u64,
    pin: u64,
    divisor: u64,
}

/// The five fields of a line.
fn five_fields(line: &[u8]) -> Option<(&[u8], &[u8], &[u8], &[u8], &[u8])>
    ensures { MatchOption result (send_words (fields line.now) ≡ None)
        (λ parts. fields line.now ≡ parts.0.now ∷ parts.1.now ∷ parts.2.now ∷ parts.3.now
        ∷ parts.4.now ∷ []) }
{
    let (first, after_first) = first_part(line, b' ')?;
    let (second, after_second) = first_part(after_first, b' ')?;
    let (third, after_third) = first_part(after_second, b' ')?;
    let (fourth, fifth) = first_part(after_third, b' ')?;
    match first_part(fifth, b' ') {
        Some(_) => None,
        None => Some((first, second, third, fourth, fifth)),
    }
}

/// The words of a line that begins with `send`.
pub(crate) fn send_words(line: &[u8]) -> Option<SendWords<'_>>
    ensures { option_map (λ words. send_words_of words.cycle.now words.pin.now words.divisor.now
        words.bytes.now) result
        ≡ send_words (fields line.now) }
{
    let (first, cycle, pin, divisor, bytes) = five_fields(line)?;
    if first != b"send".as_slice() {
        return None;
    }
    if cycle.is_empty() || pin.is_empty() || divisor.is_empty() || bytes.is_empty() {
        return None;
    }
    Some(SendWords {
        cycle,
        pin,
        divisor,
        bytes,
    })
}

/// The level of a bit of a byte's ten: 0, its eight bits from the lowest, and 1.
fn frame_level(byte: u32, bit: u32) -> Level
    requires { bit < 10 }
    ensures { result ≡ frame_level byte bit }
{
    if bit == 0 {
        Level::Low
    } else if bit == 9 || has_bit(byte, bit - 1) {
        Level::High
    } else {
        Level::Low
    }
}

/// The entry of bit `k` of a line.
fn sent_entry(sending: LineSend, bytes: &[u8], k: usize) -> LineEntry
    requires digits { are_bytes bytes.now ≡ true }
    requires within { k < sent_count bytes.now }
    requires cycle { sending.cycle < 10_000_000_000 }
    requires divisor { sending.divisor < 10_000_000 }
    requires pin { sending.pin < 30 }
    ensures { result ≡ sent_entry sending.number sending.cycle sending.pin sending.divisor bytes.now
        k }
{
    let bit = (k % 10) as u32;
    LineEntry {
        cycle: sending.cycle + (k as u64 * sending.divisor + 3) / 4,
        line: sending.number,
        pin: sending.pin as u8,
        level: frame_level(byte_at(bytes, k / 10), bit),
    }
}

/// Adds the entries of a line, one for each bit.
fn push_bits(
    entries: &mut Vec<LineEntry>,
    sending: LineSend,
    bytes: &[u8],
) -> Result<(), ScriptFault>
    requires digits { are_bytes bytes.now ≡ true }
    requires cycle { sending.cycle < 10_000_000_000 }
    requires divisor { sending.divisor < 10_000_000 }
    requires pin { sending.pin < 30 }
    ensures ok { OnOk result (entries.new.items ≡ entries.old.items
        ++ sent_entries sending.number sending.cycle sending.pin sending.divisor bytes.now
        (sent_count bytes.now)) }
    ensures pins { HasPins entries.old.items → HasPins entries.new.items }
    ensures fault { IfErr result (λ fault. fault ≡ ScriptFault.Memory) }
{
    for k in 0..10 * (bytes.len() / 2) {
        entries.push(sent_entry(sending, bytes, k))?;
    }
    Ok(())
}

impl Earlier {
    ghost use Rattle.std.specs.Prelude.{◌≡◌, ◌≢◌, ◌<◌, true, Some, IfErr, OnOk};
    ghost use Rattle.pin_script.specs.Words.{are_bytes};
    ghost use Rattle.pin_script.specs.Lines.{added, sent, sent_count, sent_entries, after_send, send_words_of};

    /// Adds the entries of a line that sends bytes.
    fn add_send(&mut self, sending: LineSend, bytes: &[u8]) -> Result<(), ScriptFault>
        requires cycle { sending.cycle < 10_000_000_000 }
        ensures ok { OnOk result (sent sending.number self.old sending.cycle sending.pin
            sending.divisor bytes.now ≡ Ok self.new) }
        ensures fault { IfErr result (λ fault. fault ≢ ScriptFault.Memory
            → sent sending.number self.old sending.cycle sending.pin sending.divisor bytes.now
            ≡ Err fault) }
    {
        if sending.pin > LAST_PIN {
            return Err(ScriptFault::Pin(sending.number));
        }
        if sending.divisor < LEAST_DIVISOR || sending.divisor > GREATEST_DIVISOR {
            return Err(ScriptFault::Divisor(sending.number));
        }
        if !are_bytes(bytes) {
            return Err(ScriptFault::Bytes(sending.number));
        }
        self.add_bits(sending, bytes)
    }

    /// Adds the entries of a line whose words are right.
    #[tactic(auto, using(crate::proofs::Sending::sent_length))]
    fn add_bits(&mut self, sending: LineSend, bytes: &[u8]) -> Result<(), ScriptFault>
        requires digits { are_bytes bytes.now ≡ true }
        requires cycle { sending.cycle < 10_000_000_000 }
        requires divisor { sending.divisor < 10_000_000 }
        requires pin { sending.pin < 30 }
        ensures ok { OnOk result (added sending.number self.old sending.cycle
            (sent_entries sending.number sending.cycle sending.pin sending.divisor bytes.now
            (sent_count bytes.now)) ≡ Ok self.new) }
        ensures fault { IfErr result (λ fault. fault ≢ ScriptFault.Memory
            → added sending.number self.old sending.cycle
            (sent_entries sending.number sending.cycle sending.pin sending.divisor bytes.now
            (sent_count bytes.now)) ≡ Err fault) }
    {
        self.fits(sending.number, sending.cycle, 10 * (bytes.len() / 2))?;
        push_bits(&mut self.entries, sending, bytes)?;
        self.cycle = sending.cycle;
        Ok(())
    }

    /// Reads a line that sends bytes.
    pub(crate) fn read_send(
        &mut self,
        number: u32,
        words: &SendWords<'_>,
    ) -> Result<(), ScriptFault>
        ensures ok { OnOk result (after_send number self.old
            (send_words_of words.now.cycle.now words.now.pin.now words.now.divisor.now
            words.now.bytes.now) ≡ Ok self.new) }
        ensures fault { IfErr result (λ fault. fault ≢ ScriptFault.Memory
            → after_send number self.old
            (send_words_of words.now.cycle.now words.now.pin.now words.now.divisor.now
            words.now.bytes.now) ≡ Err fault) }
    {
        match (
            number_of(10, CYCLE_DIGITS, words.cycle),
            number_of(10, PIN_DIGITS, words.pin),
            number_of(10, DIVISOR_DIGITS, words.divisor),
        ) {
            (Some(cycle), Some(pin), Some(divisor)) => {
                let sending = LineSend {
                    number,
                    cycle,
                    pin,
                    divisor,
                };
                self.add_send(sending, words.bytes)
            }
            _ => Err(ScriptFault::Number(number)),
        }
    }
}

//! Tests as texts of deeds: what lane_tests and block_tests have in common.
#![tactic(auto)]

ghost use Rattle.std.specs.Prelude.{◌≡◌, ◌%◌};

/// What is tried by a text.
pub trait Bench {
    /// Does a deed, and answers whether what it tells is so.
    fn does(&mut self, verb: &str, words: &[u32; 8]) -> bool;
}

/// The numbers of a deed, of which those that are left out are 0; or none, where a word is no number.
fn numbers(deed: &str) -> Option<[u32; 8]> {
    let mut numbers = [0; 8];
    let mut count = 0;
    for word in deed.split(' ') {
        if word.is_empty() {
            continue;
        }
        let number = match word.strip_prefix('#') {
            Some(decimal) => u32::from_str_radix(decimal, 10),
            None => u32::from_str_radix(word, 16),
        };
        match number {
            Ok(number) if count < 8 => {
                numbers[count] = number;
                count += 1;
            }
            _ => return None,
        }
    }
    Some(numbers)
}

/// A deed is done, and what it tells is so.
fn is_so<B: Bench>(bench: &mut B, deed: &str) -> bool {
    let (verb, rest) = deed.split_once(' ').unwrap_or((deed, ""));
    match numbers(rest) {
        Some(words) => bench.does(verb, &words),
        None => false,
    }
}

/// The first deed that is not so, and its number. A deed is a verb and its numbers, in hexadecimal digits or behind a `#` in decimal
/// ones; a `;` ends it.
pub fn first_wrong<B: Bench>(bench: &mut B, text: &'static str) -> Option<(usize, &'static str)> {
    for (index, deed) in text.split(';').enumerate() {
        let deed = deed.trim();
        if !deed.is_empty() && !is_so(bench, deed) {
            return Some((index, deed));
        }
    }
    None
}

/// The low byte of a word.
pub fn byte(word: u32) -> u8
    ensures { result ≡ word % 256 }
{
    (word & 0xff) as u8
}

/// The low halfword of a word.
pub fn half(word: u32) -> u16
    ensures { result ≡ word % 65536 }
{
    (word & 0xffff) as u16
}

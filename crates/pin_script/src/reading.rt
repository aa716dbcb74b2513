//! The entries of a file, line for line.

ghost use Rattle.std.specs.Prelude.{◌≡◌, ◌≢◌, ◌≤◌, ◌<◌, ◌+◌, ◌∷◌, [], length, IfErr, IfOk, OnOk};
ghost use Rattle.std.specs.Str.Lines.{lines};
ghost use Rattle.pin_script.specs.Lines.{after_line};
ghost use Rattle.pin_script.specs.Reading.{HasPins};
ghost use Rattle.pin_script.specs.Script.{after_lines, entries_of, is_other_version, headed, nothing};

use crate::entry::LineEntry;
use crate::fault::ScriptFault;
use crate::line::{Earlier, is_skipped};
use crate::send::send_words;
use source_text::{first_line, number_of};
use std::alloc::Global;

/// How many digits a version may have.
const VERSION_DIGITS: usize = 10;

/// What stands before the entries of a file: whether it may have send lines, how many lines come first, and the lines after.
#[derive(Drop)]
struct Heading<'a> {
    sends: bool,
    number: u32,
    rest: &'a [u8],
}

/// The line is `version` with the digits of another number than 2.
fn is_other_version(line: &[u8]) -> bool
    ensures { result ≡ is_other_version line.now }
{
    match line.strip_prefix(b"version ") {
        Some(digits) => number_of(10, VERSION_DIGITS, digits).is_some_and(|number| number != 2),
        None => false,
    }
}

/// What stands before the entries of a file, by its first line that is not skipped.
fn headed<'a>(
    number: u32,
    line: &[u8],
    rest: &'a [u8],
    after: &'a [u8],
) -> Result<Heading<'a>, ScriptFault>
    requires first { lines rest.now ≡ line.now ∷ lines after.now }
    requires shorter { length after.now < length rest.now }
    requires number { number < 4194304 }
    ensures ok { IfOk result (λ heading. headed (number + 1) line.now (lines after.now)
        ≡ after_lines heading.sends (heading.number + 1) nothing (lines heading.rest.now)) }
    ensures short { IfOk result (λ heading. heading.number + length heading.rest.now
        ≤ number + length rest.now) }
    ensures fault { IfErr result (λ fault. headed (number + 1) line.now (lines after.now)
        ≡ Err fault) }
{
    if line == b"version 2".as_slice() {
        return Ok(Heading {
            sends: true,
            number: number + 1,
            rest: after,
        });
    }
    if is_other_version(line) {
        return Err(ScriptFault::Version(number + 1));
    }
    Ok(Heading {
        sends: false,
        number,
        rest,
    })
}

/// What stands before the entries of a file.
fn find_heading(bytes: &[u8]) -> Result<Heading<'_>, ScriptFault>
    requires { length bytes.now ≤ 4194304 }
    ensures ok { IfOk result (λ heading. entries_of bytes.now
        ≡ after_lines heading.sends (heading.number + 1) nothing (lines heading.rest.now)) }
    ensures short { IfOk result (λ heading. heading.number + length heading.rest.now
        ≤ length bytes.now) }
    ensures fault { IfErr result (λ fault. entries_of bytes.now ≡ Err fault) }
{
    let mut rest = bytes;
    let mut number: u32 = 0;
    while !rest.is_empty() {
        let (line, after) = first_line(rest);
        if !is_skipped(line) {
            return headed(number, line, rest, after);
        }
        number += 1;
        rest = after;
    }
    Ok(Heading {
        sends: false,
        number,
        rest,
    })
}

/// Reads a line.
#[tactic(auto, unfolding(crate::specs::Lines::after_line))]
fn read_line(
    sends: bool,
    number: u32,
    line: &[u8],
    earlier: &mut Earlier,
) -> Result<(), ScriptFault>
    ensures ok { OnOk result (after_line sends number earlier.old line.now ≡ Ok earlier.new) }
    ensures fault { IfErr result (λ fault. fault ≢ ScriptFault.Memory
        → after_line sends number earlier.old line.now ≡ Err fault) }
{
    if is_skipped(line) {
        return Ok(());
    }
    if sends {
        if let Some(words) = send_words(line) {
            return earlier.read_send(number, &words);
        }
    }
    earlier.read_level(number, line)
}

/// The entries of a file, as the file has them.
pub(crate) fn read_entries(alloc: Global, bytes: &[u8]) -> Result<Vec<LineEntry>, ScriptFault>
    requires { length bytes.now ≤ 4194304 }
    ensures ok { IfOk result (λ entries. entries_of bytes.now ≡ Ok entries.items) }
    ensures pins { IfOk result (λ entries. HasPins entries.items) }
    ensures fault { IfErr result (λ fault. fault ≢ ScriptFault.Memory → entries_of bytes.now
        ≡ Err fault) }
{
    let heading = find_heading(bytes)?;
    let mut earlier = Earlier::new(alloc);
    let mut rest = heading.rest;
    let mut number = heading.number;
    while !rest.is_empty() {
        let (line, after) = first_line(rest);
        number += 1;
        read_line(heading.sends, number, line, &mut earlier)?;
        rest = after;
    }
    Ok(earlier.entries)
}

//! Level lines, and what the lines so far gave.

ghost use Rattle.std.specs.Prelude.{◌≡◌, ◌≢◌, ◌∷◌, ◌<◌, ◌≤◌, [], None, length, List, ℕ, IfErr, MatchOption, OnOk};
ghost use Rattle.std.specs.Option.{option_map};
ghost use Rattle.pin_script.specs.Words.{fields};
ghost use Rattle.pin_script.specs.Lines.{added, after_level, level_numbers, is_skipped, level_words, level_words_of};

use crate::entry::{Level, LineEntry};
use crate::fault::ScriptFault;
use crate::words::level_named;
use source_text::{first_part, number_of};
use std::alloc::Global;
use std::marker::Model;

/// How many entries a script may have.
pub(crate) const MOST_ENTRIES: usize = 100_000;

/// How many digits a cycle may have.
pub(crate) const CYCLE_DIGITS: usize = 10;

/// How many digits a pin may have.
pub(crate) const PIN_DIGITS: usize = 2;

/// The last pin.
pub(crate) const LAST_PIN: u64 = 29;

/// What the lines so far gave: their entries, and the cycle of the last of these lines.
#[derive(Drop)]
pub(crate) struct Earlier {
    pub(crate) entries: Vec<LineEntry>,
    pub(crate) cycle: u64,
}

impl Model for Earlier {
    ghost use Rattle.pin_script.specs.Lines.{Earlier};
    ghost use Rattle.pin_script.specs.Reading.{HasPins};

    ghost Value = { Earlier };

    ghost view = { λ s. record { entries = s.entries.items; cycle = s.cycle } };

    ghost invariant = { λ s. HasPins s.entries.items };
}

/// The words of a level line.
#[derive(Drop)]
struct LevelWords<'a> {
    cycle: &'a [u8],
    pin: &'a [u8],
    level: Level,
}

/// The three fields of a line.
fn three_fields(line: &[u8]) -> Option<(&[u8], &[u8], &[u8])>
    ensures { MatchOption result (level_words (fields line.now) ≡ None)
        (λ parts. fields line.now ≡ parts.0.now ∷ parts.1.now ∷ parts.2.now ∷ []) }
{
    let (first, rest) = first_part(line, b' ')?;
    let (second, third) = first_part(rest, b' ')?;
    match first_part(third, b' ') {
        Some(_) => None,
        None => Some((first, second, third)),
    }
}

/// The three words of a line, the third of which names a level.
fn level_words(line: &[u8]) -> Option<LevelWords<'_>>
    ensures { option_map (λ words. level_words_of words.cycle.now words.pin.now words.level) result
        ≡ level_words (fields line.now) }
{
    let (cycle, pin, level) = three_fields(line)?;
    if cycle.is_empty() || pin.is_empty() {
        return None;
    }
    Some(LevelWords {
        cycle,
        pin,
        level: level_named(level)?,
    })
}

/// A line is empty or begins with `#`.
pub(crate) fn is_skipped(line: &[u8]) -> bool
    ensures { result ≡ is_skipped line.now }
{
    match line {
        [] => true,
        [first, ..] => *first == b'#',
    }
}

impl Earlier {
    ghost use Rattle.std.specs.Prelude.{◌≡◌, ◌≢◌, ◌<◌, IfErr, OnOk};
    ghost use Rattle.pin_script.specs.Words.{fields};
    ghost use Rattle.pin_script.specs.Lines.{fits, added, level_entry, level_numbers, level_words, after_level};
    ghost use Rattle.pin_script.specs.Script.{nothing};

    /// No lines yet.
    pub(crate) fn new(alloc: Global) -> Earlier
        ensures { result ≡ nothing }
    {
        Earlier {
            entries: Vec::new(alloc),
            cycle: 0,
        }
    }

    /// A line of that cycle comes no earlier than the one before, and there is room for its entries.
    pub(crate) fn fits(&self, number: u32, cycle: u64, count: usize) -> Result<(), ScriptFault>
        requires { count < 10_000 }
        ensures { result ≡ fits number self.now cycle count }
    {
        if cycle < self.cycle {
            return Err(ScriptFault::Order(number));
        }
        if self.entries.len() + count > MOST_ENTRIES {
            return Err(ScriptFault::TooMany(number));
        }
        Ok(())
    }

    /// Adds the entry of a level line.
    fn add_level(
        &mut self,
        number: u32,
        cycle: u64,
        pin: u64,
        level: Level,
    ) -> Result<(), ScriptFault>
        ensures ok { OnOk result (level_numbers number self.old level (Some cycle) (Some pin)
            ≡ Ok self.new) }
        ensures fault { IfErr result (λ fault. fault ≢ ScriptFault.Memory
            → level_numbers number self.old level (Some cycle) (Some pin) ≡ Err fault) }
    {
        if pin > LAST_PIN {
            return Err(ScriptFault::Pin(number));
        }
        self.fits(number, cycle, 1)?;
        self.entries.push(LineEntry {
            cycle,
            line: number,
            pin: pin as u8,
            level,
        })?;
        self.cycle = cycle;
        Ok(())
    }

    /// Reads a level line.
    pub(crate) fn read_level(&mut self, number: u32, line: &[u8]) -> Result<(), ScriptFault>
        ensures ok { OnOk result (after_level number self.old (level_words (fields line.now))
            ≡ Ok self.new) }
        ensures fault { IfErr result (λ fault. fault ≢ ScriptFault.Memory
            → after_level number self.old (level_words (fields line.now)) ≡ Err fault) }
    {
        let Some(words) = level_words(line) else {
            return Err(ScriptFault::Form(number));
        };
        match (
            number_of(10, CYCLE_DIGITS, words.cycle),
            number_of(10, PIN_DIGITS, words.pin),
        ) {
            (Some(cycle), Some(pin)) => self.add_level(number, cycle, pin, words.level),
            _ => Err(ScriptFault::Number(number)),
        }
    }
}

//! The levels of a cycle.

ghost use Rattle.std.specs.Prelude.{◌≡◌, ◌<◌, ◌≤◌, length, take};
ghost use Rattle.std.specs.List.{filter};
ghost use Rattle.pin_script.specs.Levels.{due_count, is_due};
ghost use Rattle.pin_script.specs.Reading.{cycle_at, IsDueBefore};
ghost use Rattle.pin_script.specs.Script.{IsScript};

use crate::entry::Entry;
use crate::script::{Drives, Script};
use std::marker::Model;

/// Where a search for what a script drives begins: the number of entries that were due in the cycle that was asked for
/// last. What is found does not depend on it, but in that cycle and in the next ones it is found at once.
#[derive(Clone, Copy)]
pub struct Cursor {
    due: usize,
}

impl Model for Cursor {
    ghost use Rattle.std.specs.Prelude.{ℕ};

    ghost Value = { ℕ };

    ghost view = { λ cursor. cursor.due };

    ghost inverse = { λ due. record { due = due } };
}

impl Cursor {
    ghost use Rattle.std.specs.Prelude.{◌≡◌};
    ghost use Rattle.std.specs.Prelude.{◌<◌, ℕ};
    ghost use Rattle.pin_script.specs.Levels.{drive_at, driven_level, due_count};

    /// The cursor at the start of a script.
    pub fn new() -> Cursor
        ensures { result ≡ 0 }
    {
        Cursor { due: 0 }
    }

    /// What the script drives in a cycle. The cursor moves there: forward, where the cycles that are asked for do not fall.
    /// Any cursor will do, also one of another script.
    pub fn drives(&mut self, script: &Script, cycle: u64) -> Drives
        ensures drives { (pin : ℕ) → pin < 30 → driven_level result.driven result.high pin
            ≡ drive_at script.now cycle pin }
        ensures cursor { self.new ≡ due_count script.now cycle }
    {
        let due = count_due(script.as_slice(), cycle, self.due);
        self.due = due;
        script.drives_after(due)
    }
}

/// The cycle of an entry.
fn cycle_at(entries: &[Entry], index: usize) -> u64
    requires { index < length entries.now }
    ensures { result ≡ cycle_at entries.now index }
{
    entries[index].cycle
}

/// How many entries are due in a cycle, from a first guess on.
fn count_due(entries: &[Entry], cycle: u64, guess: usize) -> usize
    requires { IsScript entries.now }
    ensures within { result ≤ length entries.now }
    ensures due { filter (is_due cycle) entries.now ≡ take result entries.now }
    ensures count { result ≡ due_count entries.now cycle }
{
    let mut due = fall_back(entries, cycle, guess.min(entries.len()));
    while due < entries.len() && cycle_at(entries, due) <= cycle {
        due += 1;
    }
    due
}

/// The first count at or below one, such that the entry before it is due in a cycle.
fn fall_back(entries: &[Entry], cycle: u64, guess: usize) -> usize
    requires { guess ≤ length entries.now }
    ensures within { result ≤ guess }
    ensures due { IsDueBefore entries.now cycle result }
{
    let mut due = guess;
    while due > 0 && cycle_at(entries, due - 1) > cycle {
        due -= 1;
    }
    due
}

//! A script: its entries, and what they leave at the pins.

ghost use Rattle.std.specs.Prelude.{◌≡◌, ◌≢◌, ◌<◌, ◌+◌, ℕ, length, take, if◌then◌else◌, ◌==◌, IfOk, List};
ghost use Rattle.rp_base.specs.Word.{has_bit};
ghost use Rattle.pin_script.specs.Levels.{drive_of, driven_level};
ghost use Rattle.pin_script.specs.Reading.{IsTable, Shows};
ghost use Rattle.pin_script.specs.Script.{IsScript};

use crate::entry::Entry;
use std::alloc::{AllocError, Global};
use std::marker::Model;

/// The pins that are driven, and those that are driven high, pin 0 in bit 0.
#[derive(Clone, Copy, Debug, PartialEq, Eq)]
pub struct Drives {
    /// The pins that are driven.
    pub driven: u32,
    /// The pins that are driven high.
    pub high: u32,
}

/// A script, which contracts see as the list of its entries.
#[derive(Drop)]
pub struct Script {
    entries: Vec<Entry>,
    /// What is driven after the first entry, the first two, and so on.
    drives: Vec<Drives>,
}

impl Model for Script {
    ghost use Rattle.std.specs.Prelude.{List};
    ghost use Rattle.pin_script.specs.declared.entry.Entry.{Entry};
    ghost use Rattle.pin_script.specs.Reading.{IsTabled};

    ghost Value = { List Entry };

    ghost view = { λ script. script.entries.items };

    ghost invariant = { λ script. IsTabled script.entries.items script.drives.items };
}

impl Script {
    ghost use Rattle.std.specs.Prelude.{◌≡◌, ◌≤◌, [], length, take, IfOk};
    ghost use Rattle.pin_script.specs.Reading.{Shows};
    ghost use Rattle.pin_script.specs.Script.{IsScript};

    /// A script without entries.
    pub fn new(alloc: Global) -> Script
        ensures { result ≡ [] }
    {
        Script {
            entries: Vec::new(alloc),
            drives: Vec::new(alloc),
        }
    }

    /// The script of entries whose cycles do not fall and whose pins are below 30.
    pub fn from_entries(alloc: Global, entries: Vec<Entry>) -> Result<Script, AllocError>
        requires { IsScript entries.items }
        ensures { IfOk result (λ script. script ≡ entries.items) }
    {
        let drives = drive_table(alloc, &entries)?;
        Ok(Script { entries, drives })
    }

    /// The entries.
    pub fn as_slice(&self) -> &[Entry]
        ensures entries { result.now ≡ self.now }
        ensures script { IsScript self.now }
    {
        self.entries.as_slice()
    }

    /// What is driven after the first entries.
    pub(crate) fn drives_after(&self, count: usize) -> Drives
        requires { count ≤ length self.now }
        ensures { Shows (take count self.now) result }
    {
        if count == 0 {
            Drives::NONE
        } else {
            self.drives[count - 1]
        }
    }
}

impl Drives {
    ghost use Rattle.std.specs.Prelude.{◌≡◌, ◌<◌, ◌==◌, ℕ, if◌then◌else◌};
    ghost use Rattle.pin_script.specs.Levels.{drive_of, driven_level};

    /// Nothing is driven.
    pub const NONE: Drives = Drives { driven: 0, high: 0 };

    /// What is driven after one entry more.
    fn after(self, entry: &Entry) -> Drives
        requires { entry.now.pin < 30 }
        ensures { (pin : ℕ) → pin < 30 → driven_level result.driven result.high pin
            ≡ (if entry.now.pin == pin then drive_of entry.now.level
            else driven_level self.driven self.high pin) }
    {
        let pin = u32::from(entry.pin);
        let drive = entry.level.drive();
        Drives {
            driven: with_bit(self.driven, pin, drive.is_some()),
            high: with_bit(self.high, pin, drive.unwrap_or(false)),
        }
    }
}

/// A word whose bit of that number is set or not.
fn with_bit(word: u32, bit: u32, on: bool) -> u32
    requires { bit < 32 }
    ensures same { has_bit result bit ≡ on }
    ensures others { (i : ℕ) → i < 32 → i ≢ bit → has_bit result i ≡ has_bit word i }
{
    if on {
        word | (1 << bit)
    } else {
        word & !(1 << bit)
    }
}

/// What is driven after the first entry, the first two, and so on.
fn drive_table(alloc: Global, entries: &[Entry]) -> Result<Vec<Drives>, AllocError>
    requires { IsScript entries.now }
    ensures { IfOk result (λ table. IsTable entries.now table.items (length entries.now)) }
{
    let mut table = Vec::with_capacity(alloc, entries.len())?;
    let mut drives = Drives::NONE;
    for entry in entries {
        drives = drives.after(entry);
        table.push(drives)?;
    }
    Ok(table)
}

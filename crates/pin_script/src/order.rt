//! The order of a script's entries.

ghost use Rattle.std.specs.Prelude.{◌≡◌, map, IfOk, OnOk};
ghost use Rattle.pin_script.specs.Script.{in_order, without_line, IsScript};
ghost use Rattle.pin_script.specs.Reading.{HasPins};

use crate::entry::{Entry, LineEntry};
use std::alloc::{AllocError, Global};

/// The script of the entries of a file.
pub(crate) fn in_order(alloc: Global, mut entries: Vec<LineEntry>) -> Result<Vec<Entry>, AllocError>
    requires { HasPins entries.items }
    ensures value { IfOk result (λ script. script.items
        ≡ map without_line (in_order entries.items)) }
    ensures script { IfOk result (λ script. IsScript script.items) }
{
    sort(&mut entries)?;
    without_lines(alloc, &entries)
}

/// Sorts by cycle; entries of one cycle stay in the order of their lines.
fn sort(entries: &mut Vec<LineEntry>) -> Result<(), AllocError>
    ensures order { OnOk result (entries.new.items ≡ in_order entries.old.items) }
    ensures pins { HasPins entries.old.items → HasPins entries.new.items }
{
    entries.sort_by_key(|entry| entry.cycle)?;
    Ok(())
}

/// The entries without their lines.
fn without_lines(alloc: Global, entries: &[LineEntry]) -> Result<Vec<Entry>, AllocError>
    ensures { IfOk result (λ script. script.items ≡ map without_line entries.now) }
{
    let mut script = Vec::with_capacity(alloc, entries.len())?;
    for entry in entries {
        script.push(entry.entry())?;
    }
    Ok(script)
}

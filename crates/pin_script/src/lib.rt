//! Scripts of pin levels: which level is driven at which pin from which cycle on.
//!
//! A script is a list of lines `<cycle> <pin> <0|1|z>`; after a first line `version 2` a line may also be
//! `send <cycle> <pin> <divisor> <bytes>`. `read_script` gives the script of a file, or the first fault of the file;
//! `Cursor` finds what is driven in a cycle.
#![tactic(auto)]

ghost use Rattle.std.specs.Prelude.{◌≡◌, ◌≢◌, ◌≤◌, length, MatchResult};
ghost use Rattle.pin_script.specs.Script.{script_of};

pub mod cursor;
pub mod entry;
pub mod fault;
pub mod laws;
mod line;
mod order;
mod reading;
pub mod script;
mod send;
mod words;

pub use cursor::Cursor;
pub use entry::{Entry, Level};
pub use fault::ScriptFault;
use order::in_order;
use reading::read_entries;
pub use script::{Drives, Script};
use std::alloc::Global;

/// The script of a file of at most 4 MiB: lines `<cycle> <pin> <0|1|z>` with single spaces, in order of their cycles, that give
/// at most 100,000 entries. Empty lines and lines that begin with `#` are skipped. After a first line `version 2` a line may also
/// be `send <cycle> <pin> <divisor> <bytes>`: it sends bytes to a pin, each as ten bits, 0, its eight bits from the lowest, and 1.
/// Bit k of the line begins in cycle `cycle + (k * divisor + 3) / 4`.
///
/// # Errors
///
/// The first fault of the file, line for line. `Memory` comes where memory runs out.
pub fn read_script(alloc: Global, bytes: &[u8]) -> Result<Script, ScriptFault>
    requires { length bytes.now ≤ 4194304 }
    // The answer is the definition's, unless memory ran out.
    ensures script { MatchResult result (λ script. script_of bytes.now ≡ Ok script)
        (λ fault. fault ≢ ScriptFault.Memory → script_of bytes.now ≡ Err fault) }
{
    let entries = in_order(alloc, read_entries(alloc, bytes)?)?;
    Ok(Script::from_entries(alloc, entries)?)
}

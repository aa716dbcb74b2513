//! What stands when the files are loaded, or why nothing does.

ghost use Rattle.std.specs.Prelude.{◌≡◌, ◌≤◌};
ghost use Rattle.reverse_debug.specs.Session.{first_of, OpensAt};
ghost use Rattle.pico_top.specs.declared.outcome.Unopened.TheVariants.{Memory};

use command_words::refusal::Refusal;
use pin_script::Script;
use reverse_debug::Session;
use rp_machine::Machine;
use std::alloc::AllocError;

/// Why nothing is opened.
#[derive(Drop)]
pub enum Unopened {
    /// The words or an input are refused.
    Refusing(Refusal),
    /// There was no memory left.
    Memory,
}

impl From<AllocError> for Unopened {
    ghost from_gives = { λ _ unopened. unopened ≡ Memory };

    fn from(_error: AllocError) -> Unopened {
        Unopened::Memory
    }
}

/// A machine that can run, with its script and its limit of cycles.
#[derive(Drop)]
pub struct Started {
    /// The machine before its first cycle.
    pub machine: Machine,
    /// The levels that drive its pins.
    pub script: Script,
    /// The limit, 1 to 1,000,000,000.
    pub limit: u64,
    /// Whether the counts of its windows are asked for.
    pub stats: bool,
    pub ghost within: { machine.cycle ≤ limit },
}

/// A session of the debugger, with the script of its run and the limit of cycles.
#[derive(Drop)]
pub struct Debugging {
    /// The session before its first line.
    pub session: Session,
    /// The levels that drive the pins.
    pub script: Script,
    /// The limit, 1 to 1,000,000,000.
    pub limit: u64,
    pub ghost opened: { OpensAt (first_of session) limit session },
}

/// What a machine is booted for.
#[derive(Clone, Copy, Debug, PartialEq, Eq)]
pub enum Purpose {
    /// It runs up to its first stop; whether the counts of its windows are asked for.
    Run(bool),
    /// The debugger goes to and fro in its run.
    Debug,
}

/// The pieces in which a text is put.
#[derive(Clone, Copy, Debug, PartialEq, Eq)]
pub enum Pieces {
    /// Its lines.
    Lines,
    /// The blocks of a UF2 file.
    Blocks,
}

/// What stands when the files are loaded.
#[derive(Drop)]
pub enum Opened {
    /// A machine that can run.
    Machine(Started),
    /// A session that can hear lines.
    Session(Debugging),
    /// A text that needs no machine.
    Text(Vec<u8>, Pieces),
}

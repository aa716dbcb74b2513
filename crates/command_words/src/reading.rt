//! What the words ask for.

ghost use Rattle.std.specs.Prelude.{◌≡◌, ◌≤◌};
ghost use Rattle.command_words.specs.declared.reading.WordsFault.TheVariants.{Memory};

use board_parts::target::Target;
use board_parts::wiring::Wiring;
use pio_words::SideConfig;
use std::alloc::{AllocError, AllocFailed};

/// A program for a machine.
#[derive(Drop)]
pub struct PioEntry {
    /// The PIO block, 0 or 1.
    pub block: u8,
    /// The machine of the block, 0 to 3.
    pub machine: u8,
    /// The name of the source file.
    pub file: String,
    pub ghost block_within: { block ≤ 1 },
    pub ghost machine_within: { machine ≤ 3 },
}

/// The words of a run.
#[derive(Drop)]
pub struct RunWords {
    /// The name of the image file.
    pub image: String,
    /// The limit of cycles, 1 to 1,000,000,000.
    pub cycles: u64,
    /// The name of the script file, where one is given.
    pub script: Option<String>,
    /// The programs for machines, in the order of the list; no machine stands twice.
    pub pio: Vec<PioEntry>,
    /// The probes that are aimed, in the order of the list; no probe stands twice.
    pub probes: Vec<Target>,
    /// The parts that are attached, in the order of the list; no part stands twice.
    pub parts: Vec<Wiring>,
    /// How many workers run the lanes of its windows, 0 to 8.
    pub workers: u8,
    /// Whether the text ends with the line of the run's windows.
    pub stats: bool,
    /// Whether the image is linked with the table of routines.
    pub table: bool,
    pub ghost cycles_within: { cycles ≤ 1000000000 },
    pub ghost workers_within: { workers ≤ 8 },
}

/// The words of a run of a generated image.
#[derive(Drop)]
pub struct GenWords {
    /// The number that the image is generated from.
    pub number: u64,
    /// The limit of cycles, 1 to 1,000,000,000.
    pub cycles: u64,
    /// How many workers run the lanes of its windows, 0 to 8.
    pub workers: u8,
    /// Whether the text ends with the line of the run's windows.
    pub stats: bool,
    pub ghost cycles_within: { cycles ≤ 1000000000 },
    pub ghost workers_within: { workers ≤ 8 },
}

/// What `dis` is asked for.
#[derive(Drop)]
pub struct DisWords {
    /// The instruction words, 1 to 32.
    pub words: Vec<u16>,
    /// The side-set configuration, at most 5 bits.
    pub side: SideConfig,
}

/// What the words ask for.
#[derive(Drop)]
pub enum Reading {
    /// A run of an image.
    Run(RunWords),
    /// The debugger on a run of an image.
    Debug(RunWords),
    /// The source text of instruction words.
    Dis(DisWords),
    /// The listing of the PIO source file of this name.
    Asm(String),
    /// The image file of the Thumb source file of this name.
    Thumb(String),
    /// A run of a generated image.
    Gen(GenWords),
}

/// Why there is no reading.
#[derive(Clone, Copy, Debug, PartialEq, Eq)]
pub enum WordsFault {
    /// The words are not a command.
    Words,
    /// There was no memory left.
    Memory,
}

impl From<AllocError> for WordsFault {
    ghost from_gives = { λ _ fault. fault ≡ Memory };

    fn from(_error: AllocError) -> WordsFault {
        WordsFault::Memory
    }
}

impl<T: Drop> From<AllocFailed<T>> for WordsFault {
    ghost from_gives = { λ _ fault. fault ≡ Memory };

    fn from(_error: AllocFailed<T>) -> WordsFault {
        WordsFault::Memory
    }
}

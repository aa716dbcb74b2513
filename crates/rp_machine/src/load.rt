//! A PIO program that is loaded before the first cycle.

use pio_program::Program;

/// Where a program is loaded, and for which machine.
#[derive(Drop)]
pub struct PioLoad {
    /// The PIO block, 0 or 1.
    pub block: u8,
    /// The machine that runs the program, 0 to 3.
    pub machine: u8,
    /// The index of the program's first word in the block's memory.
    pub offset: u8,
    /// The program.
    pub program: Program,
}

//! Where a program goes in the instruction memory of a block.

ghost use Rattle.std.specs.Prelude.{◌≡◌, ◌+◌, ◌<◌, ◌≤◌, Ok, Err, length, IfOk, IfErr};
ghost use Rattle.pio_asm.specs.Placing.{placed, with_addresses};

use crate::{Program, place_program};
use pio_parse::PioFault;

/// The offset of a program in an instruction memory whose addresses `used` are taken, one bit each.
///
/// # Errors
///
/// `NoRoom`, with the program's length, where its origin's addresses are not free, or without an origin no run of addresses.
#[tactic(auto, using(crate::proofs::ListedAddresses::placed_ok, crate::proofs::ListedAddresses::placed_room, crate::proofs::ListedAddresses::placed_err))]
pub fn offset_for(used: u32, program: &Program) -> Result<u8, PioFault>
    requires { 0 < length program.now.words.items }
    ensures ok { IfOk result (λ offset. placed used program.now.origin
        (length program.now.words.items) ≡ Ok offset) }
    ensures room { IfOk result (λ offset. offset + length program.now.words.items ≤ 32) }
    ensures err { IfErr result (λ fault. placed used program.now.origin
        (length program.now.words.items) ≡ Err fault) }
{
    place_program(used, program)
}

/// The addresses that are taken once so many from an offset on are taken too.
pub fn with_addresses(used: u32, offset: u8, count: usize) -> u32
    requires { offset + count ≤ 32 }
    ensures { result ≡ with_addresses used offset count }
{
    let mut taken = used;
    for index in 0..count {
        taken |= 1 << (offset as usize + index);
    }
    taken
}

//! Where a program goes among the addresses of an instruction memory.

ghost use Rattle.std.specs.Prelude.{◌≡◌, ◌<◌, ◌≤◌, ◌↔◌, IsTrue, ℕ, None, length, IfOk, IfErr, IfSome};
ghost use Rattle.pio_asm.specs.Addresses.{AreFree, HasNoAddress, IsFree, IsAddressFor};

use pio_parse::PioFault;
use pio_program::Program;

/// Whether an instruction may go to an address: those above 31 are never free.
fn is_free(used: u32, address: usize) -> bool
    ensures { IsTrue result ↔ IsFree used address }
{
    address < 32 && (used >> address as u32) % 2 == 0
}

/// Whether so many addresses from this one on are free.
fn are_free(used: u32, offset: usize, count: usize) -> bool
    requires offset { offset < 256 }
    requires count { count ≤ 32 }
    ensures { IsTrue result ↔ AreFree used offset count }
{
    for index in 0..count {
        if !is_free(used, offset + index) {
            return false;
        }
    }
    true
}

/// The least address from which so many are free.
fn first_address(used: u32, count: usize) -> Option<u8>
    requires { count ≤ 32 }
    ensures some { IfSome result (λ offset. AreFree used offset count
        × ((lower : ℕ) → lower < offset → ¬ AreFree used lower count)) }
    ensures none { result ≡ None → (offset : ℕ) → offset < 32 → ¬ AreFree used offset count }
{
    for offset in 0..32u8 {
        if are_free(used, offset as usize, count) {
            return Some(offset);
        }
    }
    None
}

/// Where a program goes in an instruction memory whose addresses `used` are taken, one bit each: its
/// origin, or without one the least address from which enough are free. `NoRoom`, with the program's
/// length, where they are not free; an address above 31 is never free.
pub fn place_program(used: u32, program: &Program) -> Result<u8, PioFault>
    ensures ok { IfOk result
        (IsAddressFor used program.now.origin (length program.now.words.items)) }
    ensures err { IfErr result (λ fault. (fault ≡ PioFault.NoRoom (length program.now.words.items))
        × HasNoAddress used program.now.origin (length program.now.words.items)) }
{
    let count = program.words.len();
    let address = match program.origin {
        Some(origin) if are_free(used, origin as usize, count) => Some(origin),
        Some(_) => None,
        None => first_address(used, count),
    };
    address.ok_or(PioFault::NoRoom(count as u64))
}

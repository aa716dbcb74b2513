//! The halfwords of a program, little-endian.

ghost use Rattle.std.specs.Prelude.{◌≡◌, ◌++◌, OnOk};
ghost use Rattle.std.specs.Int.{w16, to_le_bytes};

use std::alloc::AllocError;

/// Appends a halfword, little-endian.
pub fn push_half(bytes: &mut Vec<u8>, half: u16) -> Result<(), AllocError>
    ensures { OnOk result (bytes.new.items ≡ bytes.old.items ++ to_le_bytes w16 half) }
{
    bytes.extend_from_slice(&half.to_le_bytes())
}

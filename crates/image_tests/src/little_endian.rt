//! The words of a file, little-endian.

ghost use Rattle.std.specs.Prelude.{◌≡◌, ◌++◌, OnOk};
ghost use Rattle.std.specs.Int.{w32, to_le_bytes};

use std::alloc::AllocError;

/// Appends a word, little-endian.
pub fn push_word(file: &mut Vec<u8>, word: u32) -> Result<(), AllocError>
    ensures { OnOk result (file.new.items ≡ file.old.items ++ to_le_bytes w32 word) }
{
    file.extend_from_slice(&word.to_le_bytes())
}

//! Texts of pieces.

ghost use Rattle.std.specs.Prelude.{◌≡◌, ◌++◌, IfOk};

use std::alloc::{AllocError, Global};

/// Three pieces, one behind another.
pub fn joined(alloc: Global, head: &[u8], middle: &[u8], tail: &[u8]) -> Result<Vec<u8>, AllocError>
    ensures { IfOk result (λ text. text.items ≡ head.now ++ (middle.now ++ tail.now)) }
{
    let mut text = Vec::from_slice(alloc, head)?;
    text.extend_from_slice(middle)?;
    text.extend_from_slice(tail)?;
    Ok(text)
}

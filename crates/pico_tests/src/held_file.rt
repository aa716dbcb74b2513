//! A file as a test holds it.

ghost use Rattle.std.specs.Prelude.{◌≡◌, IfOk};
ghost use Rattle.std.specs.String.{string_bytes};

use rp_ports::mem_shelf::HeldFile;
use std::alloc::{AllocError, Global};

/// A file and its name.
pub fn held(alloc: Global, name: &str, bytes: &[u8]) -> Result<HeldFile, AllocError>
    ensures { IfOk result (λ file. (string_bytes file.name ≡ name.now)
        × (file.bytes.items ≡ bytes.now)) }
{
    Ok(HeldFile {
        name: String::from_str(alloc, name)?,
        bytes: Vec::from_slice(alloc, bytes)?,
    })
}

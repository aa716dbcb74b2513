//! Names, of which a short one takes no block of memory.

ghost use Rattle.std.specs.Prelude.{◌≡◌, IfOk};

use std::alloc::{AllocError, Global};
use std::marker::Model;

/// How long a name is that is kept in the token itself.
const SHORT: usize = 7;

/// The bytes of a name. A short one is kept in the token itself, since a file may have hundreds of thousands; a
/// longer one has a block of memory, which is in proportion to its text.
#[derive(Drop)]
enum Bytes {
    Short(u8, [u8; SHORT]),
    Long(Box<Vec<u8>>),
}

/// A name, seen as a list of bytes.
#[derive(Drop)]
pub struct Name {
    bytes: Bytes,
}

impl Model for Name {
    ghost use Rattle.std.specs.Prelude.{ℕ, List};
    ghost use Rattle.pio_program.specs.Name.{IsWithin, bytes_of};

    ghost Value = { List ℕ };

    ghost view = { λ name. bytes_of name.bytes };

    ghost invariant = { λ name. IsWithin name.bytes };
}

impl Name {
    /// A name of these bytes.
    pub fn from_slice(alloc: Global, bytes: &[u8]) -> Result<Name, AllocError>
        ensures { IfOk result (λ name. name ≡ bytes.now) }
    {
        if bytes.len() <= SHORT {
            let mut cells = [0; SHORT];
            cells[..bytes.len()].copy_from_slice(bytes);
            Ok(Name {
                bytes: Bytes::Short(bytes.len() as u8, cells),
            })
        } else {
            let bytes = Vec::from_slice(alloc, bytes)?;
            let bytes = Box::new(alloc, bytes)?;
            Ok(Name {
                bytes: Bytes::Long(bytes),
            })
        }
    }

    /// The bytes of the name.
    pub fn as_slice(&self) -> &[u8]
        ensures { result.now ≡ self.now }
    {
        match &self.bytes {
            Bytes::Short(length, cells) => &cells[..*length as usize],
            Bytes::Long(bytes) => bytes.as_slice(),
        }
    }
}

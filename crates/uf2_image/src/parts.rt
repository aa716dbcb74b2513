//! An image: its parts and its entry.

use std::marker::Model;

/// The bytes of one part, which contracts see as a list of bytes.
#[derive(Drop)]
pub struct PartBytes {
    bytes: Vec<u8>,
}

impl Model for PartBytes {
    ghost use Rattle.std.specs.Prelude.{ℕ, List};

    ghost Value = { List ℕ };

    ghost view = { λ part. part.bytes.items };
}

impl PartBytes {
    ghost use Rattle.std.specs.Prelude.{◌≡◌};

    /// The bytes as a slice.
    pub fn as_slice(&self) -> &[u8]
        ensures { result.now ≡ self.now }
    {
        self.bytes.as_slice()
    }

    /// The bytes of a `Vec`.
    pub fn from_vec(bytes: Vec<u8>) -> PartBytes
        ensures { result ≡ bytes.items }
    {
        PartBytes { bytes }
    }
}

/// What one kept block loads.
#[derive(Drop)]
pub struct Part {
    /// The address of the first byte.
    pub address: u32,
    /// The bytes from there on.
    pub bytes: PartBytes,
}

/// The parts of an image, which contracts see as a list of parts.
#[derive(Drop)]
pub struct PartList {
    parts: Vec<Part>,
}

impl Model for PartList {
    ghost use Rattle.std.specs.Prelude.{List};
    ghost use Rattle.uf2_image.specs.declared.parts.Part.{Part};

    ghost Value = { List Part };

    ghost view = { λ list. list.parts.items };
}

impl PartList {
    ghost use Rattle.std.specs.Prelude.{◌≡◌};

    /// The parts as a slice.
    pub fn as_slice(&self) -> &[Part]
        ensures { result.now ≡ self.now }
    {
        self.parts.as_slice()
    }

    /// The parts of a `Vec`.
    pub fn from_vec(parts: Vec<Part>) -> PartList
        ensures { result ≡ parts.items }
    {
        PartList { parts }
    }
}

/// What a UF2 file loads.
#[derive(Drop)]
pub struct Image {
    /// The kept blocks in order of address.
    pub parts: PartList,
    /// The least loaded address with bit 0 cleared.
    pub entry: u32,
}

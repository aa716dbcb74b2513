//! The table of routines, and an image with it.

ghost use Rattle.std.specs.Prelude.{◌≡◌, ◌≢◌, ◌≤◌, ◌++◌, nat_lt, length, IfErr, IfOk, IfSome, MatchResult, None, OnOk, Ok, Err};
ghost use Rattle.std.specs.List.{position, position_or_len};
ghost use Rattle.uf2_image.specs.Uf2.{FitsSram};
ghost use Rattle.startup_blocks.specs.Table.{linked, loads, table, taken, with_table, HaveBytes};

use crate::fault::StartFault;
use std::alloc::{AllocError, Global};
use uf2_image::{Image, Part, PartBytes, PartList};

/// Where the table stands.
const TABLE: u32 = 0x2004_0000;

/// How many bytes it has.
const SIZE: u32 = 32;

/// The table: where its routines begin, and their code. memset has the place in R0, the byte in R1 and the count in R2, memcpy the place
/// in R0, the source in R1 and the count in R2.
const BYTES: [u8; 32] = [
    0x09, 0x00, 0x04, 0x20, 0x15, 0x00, 0x04, 0x20, // memset, memcpy
    0x01, 0x3a, 0x01, 0xd3, 0x81, 0x54, 0xfb, 0xe7, 0x70, 0x47, 0x00, 0x00, // memset
    0x01, 0x3a, 0x02, 0xd3, 0x8b, 0x5c, 0x83, 0x54, 0xfa, 0xe7, 0x70, 0x47, // memcpy
];

/// Whether a part loads a byte at an address.
#[tactic(auto, unfolding(crate::specs::Table::loads))]
fn loads(parts: &[Part], address: u32) -> bool
    ensures { result ≡ loads parts.now address }
{
    parts.iter().any(|part| {
        let end = u64::from(part.address) + part.bytes.as_slice().len() as u64;
        part.address <= address && u64::from(address) < end
    })
}

/// The least address of the table that a part loads.
#[tactic(auto, unfolding(crate::specs::Table::taken))]
fn taken(parts: &[Part]) -> Option<u32>
    ensures { result ≡ taken parts.now }
{
    (TABLE..TABLE + SIZE).find(|address| loads(parts, *address))
}

/// The table as a part.
#[tactic(auto, unfolding(crate::specs::Table::table_bytes))]
fn table(alloc: Global) -> Result<Part, AllocError>
    ensures { IfOk result (λ part. part ≡ table) }
{
    let bytes = BYTES.to_vec(alloc)?;
    Ok(Part {
        address: TABLE,
        bytes: PartBytes::from_vec(bytes),
    })
}

/// A copy of a part.
fn copy(alloc: Global, part: &Part) -> Result<Part, AllocError>
    ensures { IfOk result (λ copied. copied ≡ part.now) }
{
    let bytes = part.bytes.as_slice().to_vec(alloc)?;
    Ok(Part {
        address: part.address,
        bytes: PartBytes::from_vec(bytes),
    })
}

/// Appends copies of parts.
fn push_copies(alloc: Global, parts: &[Part], into: &mut Vec<Part>) -> Result<(), AllocError>
    ensures { OnOk result (into.new.items ≡ into.old.items ++ parts.now) }
{
    for part in parts {
        into.push(copy(alloc, part)?)?;
    }
    Ok(())
}

/// The first part that stands behind the table.
fn first_behind(parts: &[Part]) -> Option<usize>
    ensures place { result ≡ position (λ part. nat_lt 0x20040000 part.address) parts.now }
    ensures within { IfSome result (λ at. at ≤ length parts.now) }
{
    parts.iter().position(|part| TABLE < part.address)
}

/// How many parts, from the first on, do not stand behind the table.
#[tactic(auto, using(crate::proofs::Linked::place_some, crate::proofs::Linked::place_none))]
fn before_table(parts: &[Part]) -> usize
    ensures value { result ≡ position_or_len (λ part. nat_lt 0x20040000 part.address) parts.now }
    ensures within { result ≤ length parts.now }
{
    match first_behind(parts) {
        Some(at) => at,
        None => parts.len(),
    }
}

/// An image with the table, which loads no byte of it.
fn put(alloc: Global, image: &Image) -> Result<Image, StartFault>
    requires fits { FitsSram image.now }
    requires free { taken image.now.parts ≡ None }
    ensures image { IfOk result (λ new. new ≡ with_table image.now) }
    ensures fits { IfOk result (λ new. HaveBytes image.now.parts → FitsSram new) }
    ensures memory { IfErr result (λ fault. fault ≡ StartFault.Memory) }
{
    let parts = image.parts.as_slice();
    let at = before_table(parts);
    let mut all = Vec::new(alloc);
    push_copies(alloc, &parts[..at], &mut all)?;
    all.push(table(alloc)?)?;
    push_copies(alloc, &parts[at..], &mut all)?;
    Ok(Image {
        parts: PartList::from_vec(all),
        entry: image.entry,
    })
}

/// An image with the table of routines at 20040000 to 2004001F, in order of address and with the same entry. Its first two words are
/// where memset and memcpy begin.
///
/// # Errors
///
/// `Taken` comes exactly where the image loads an address of the table, with the least such address; `Memory` where memory runs out.
pub fn link(alloc: Global, image: &Image) -> Result<Image, StartFault>
    requires { FitsSram image.now }
    // The answer is the definition's, unless memory ran out.
    ensures image { MatchResult result (λ new. linked image.now ≡ Ok new)
        (λ fault. fault ≢ StartFault.Memory → linked image.now ≡ Err fault) }
    // What holds of every image, for callers that place one.
    ensures fits { IfOk result (λ new. HaveBytes image.now.parts → FitsSram new) }
{
    match taken(image.parts.as_slice()) {
        Some(address) => Err(StartFault::Taken(address)),
        None => put(alloc, image),
    }
}

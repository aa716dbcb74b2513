//! Images that are linked with the table of routines.

ghost use Rattle.std.specs.Prelude.{IfOk};
ghost use Rattle.uf2_image.specs.Uf2.{FitsSram};

use crate::uf2_file::{Fields, file_of, plain, skipped};
use startup_blocks::{StartFault, link};
use std::alloc::Global;
use std::test::Fail;
use uf2_image::fault::ImageFault;
use uf2_image::{Image, read_image};

/// The image of a file, where it is short enough to be asked.
fn image_of(alloc: Global, file: &[u8]) -> Result<Image, ImageFault>
    ensures { IfOk result FitsSram }
{
    if file.len() > 16_777_216 {
        return Err(ImageFault::Memory);
    }
    read_image(alloc, file)
}

/// The table of routines.
const TABLE: [u8; 32] = [
    0x09, 0x00, 0x04, 0x20, 0x15, 0x00, 0x04, 0x20, 0x01, 0x3a, 0x01, 0xd3, 0x81, 0x54, 0xfb, 0xe7,
    0x70, 0x47, 0x00, 0x00, 0x01, 0x3a, 0x02, 0xd3, 0x8b, 0x5c, 0x83, 0x54, 0xfa, 0xe7, 0x70, 0x47,
];

/// Blocks, the entry, and where their parts and the table stand.
type Linked = ([Fields; 3], u32, [u32; 3]);

/// Whether an image with the table has this entry and its parts there, and in the table's place its bytes.
fn is_linked(image: &Image, entry: u32, places: [u32; 3]) -> bool {
    let parts = image.parts.as_slice();
    for (index, part) in parts.iter().enumerate() {
        let right = places
            .get(index)
            .is_some_and(|place| *place == part.address);
        let table = part.address == 0x2004_0000;
        if !right || table != (part.bytes.as_slice() == TABLE.as_slice()) {
            return false;
        }
    }
    image.entry == entry && parts.len() == places.iter().filter(|place| **place != 0).count()
}

/// Whether the blocks are linked so.
fn links(alloc: Global, row: &Linked) -> Result<bool, Fail> {
    let image = image_of(alloc, &file_of(alloc, row.0)?)?;
    let new = link(alloc, &image)?;
    Ok(is_linked(&new, row.1, row.2))
}

#[test]
fn a_table_is_put_in_order(rt: HostRuntime) -> Result<(), Fail> {
    let skip = skipped(0x2000, 7);
    let rows: [Linked; 4] = [
        (
            [plain(0, 1, 0x2000_0000, 28), skip, skip],
            0x2000_0000,
            [0x2000_0000, 0x2004_0000, 0],
        ),
        (
            [plain(0, 1, 0x2004_0020, 28), skip, skip],
            0x2004_0020,
            [0x2004_0000, 0x2004_0020, 0],
        ),
        (
            [
                plain(0, 2, 0x2004_0020, 28),
                plain(1, 2, 0x2003_fff0, 16),
                skip,
            ],
            0x2003_fff0,
            [0x2003_fff0, 0x2004_0000, 0x2004_0020],
        ),
        (
            [plain(0, 1, 0x2004_1f00, 256), skip, skip],
            0x2004_1f00,
            [0x2004_0000, 0x2004_1f00, 0],
        ),
    ];
    for (index, row) in rows.iter().enumerate() {
        assert!(rt; links(rt.alloc(), row)?, "row {index}");
    }
    Ok(())
}

/// The fault of some blocks.
fn fault_of(alloc: Global, blocks: [Fields; 3]) -> Result<Option<StartFault>, Fail> {
    let image = image_of(alloc, &file_of(alloc, blocks)?)?;
    Ok(link(alloc, &image).err())
}

/// The least address of the table that is loaded is told.
#[test]
fn a_place_is_taken(rt: HostRuntime) -> Result<(), Fail> {
    let skip = skipped(0x2000, 7);
    let rows = [
        ([plain(0, 1, 0x2004_0010, 16), skip, skip], 0x2004_0010),
        ([plain(0, 1, 0x2004_001c, 8), skip, skip], 0x2004_001c),
        ([plain(0, 1, 0x2004_001f, 1), skip, skip], 0x2004_001f),
        ([plain(0, 1, 0x2003_fff0, 32), skip, skip], 0x2004_0000),
        (
            [
                plain(0, 2, 0x2004_0018, 4),
                plain(1, 2, 0x2004_0004, 4),
                skip,
            ],
            0x2004_0004,
        ),
    ];
    for (blocks, address) in rows {
        let fault = fault_of(rt.alloc(), blocks)?;
        assert!(rt; fault == Some(StartFault::Taken(address)), "{address:x}");
    }
    Ok(())
}

//! Damaged images: a block that is cut, and each fault in the smallest file that has it and as the last thing in a long one.

use crate::uf2_file::{Fields, MAGIC, plain, push_block};
use crate::uf2_image_tests::read;
use std::alloc::{AllocError, Global};
use std::test::Fail;
use uf2_image::fault::ImageFault;

/// A block of six bytes, cut at each length.
#[test]
fn a_block_is_cut(rt: HostRuntime) -> Result<(), Fail> {
    let alloc = rt.alloc();
    let mut block = Vec::new(alloc);
    push_block(&mut block, plain(0, 1, 0x2000_0000, 6))?;
    assert!(rt; read(alloc, &block).is_ok());
    for len in 0..512usize {
        let (front, _) = block.split_at(len.min(block.len()));
        let wanted = match len {
            0 => ImageFault::Empty,
            _ => ImageFault::Ragged(len as u64),
        };
        assert!(rt; read(alloc, front).err() == Some(wanted), "{len}");
    }
    Ok(())
}

/// Block number `at` of one more, bent in one of twelve ways, and the fault of a file that ends with it.
fn bent(way: u32, at: u32) -> (Fields, ImageFault) {
    let good = plain(
        at,
        at.wrapping_add(1),
        at.wrapping_mul(8).wrapping_add(0x2000_0000),
        8,
    );
    let with = |first: u32, second: u32, last: u32| Fields {
        magic: (first, second, last),
        ..good
    };
    match way {
        0 => (with(0, MAGIC.1, MAGIC.2), ImageFault::Magic(at)),
        1 => (with(MAGIC.0, 0, MAGIC.2), ImageFault::Magic(at)),
        2 => (with(MAGIC.0, MAGIC.1, 0), ImageFault::Magic(at)),
        3 => (Fields { size: 0, ..good }, ImageFault::Payload(at, 0)),
        4 => (Fields { size: 477, ..good }, ImageFault::Payload(at, 477)),
        5 => (Fields { count: 0, ..good }, ImageFault::Count(at)),
        6 => (
            Fields {
                number: at.wrapping_add(1),
                ..good
            },
            ImageFault::Number(at),
        ),
        7 => (
            Fields {
                target: 0x1000_0000,
                ..good
            },
            ImageFault::Flash(at, 0x1000_0000),
        ),
        8 => (
            Fields {
                target: 0x2004_1fff,
                size: 6,
                ..good
            },
            ImageFault::Address(at, 0x2004_1fff),
        ),
        9 => (
            Fields {
                flags: 0x2001,
                ..good
            },
            if at == 0 {
                ImageFault::Nothing
            } else {
                ImageFault::Missing(at)
            },
        ),
        10 => (Fields { number: 0, ..good }, ImageFault::Repeat(at)),
        _ => (
            Fields {
                target: 0x2000_0000,
                ..good
            },
            ImageFault::Overlap(at),
        ),
    }
}

/// Whether a file of so many good blocks, and then one that is bent so, has the fault of this one.
fn has_fault(alloc: Global, way: u32, at: u32) -> Result<bool, AllocError> {
    let mut file = Vec::new(alloc);
    for number in 0..at {
        let target = number.wrapping_mul(8).wrapping_add(0x2000_0000);
        push_block(&mut file, plain(number, at.wrapping_add(1), target, 8))?;
    }
    let (last, fault) = bent(way, at);
    push_block(&mut file, last)?;
    Ok(read(alloc, &file).err() == Some(fault))
}

/// The last two ways take a block before.
#[test]
fn a_block_is_bent(rt: HostRuntime) -> Result<(), Fail> {
    for way in 0..12u32 {
        let least = if way < 10 { 0 } else { 1 };
        assert!(rt; has_fault(rt.alloc(), way, least)?, "way {way}");
        assert!(rt; has_fault(rt.alloc(), way, 512)?, "way {way} behind others");
    }
    Ok(())
}

/// 512 blocks, and of another one only the first byte.
#[test]
fn a_long_file_is_ragged(rt: HostRuntime) -> Result<(), Fail> {
    let mut file = Vec::new(rt.alloc());
    for number in 0..512u32 {
        let target = number.wrapping_mul(8).wrapping_add(0x2000_0000);
        push_block(&mut file, plain(number, 512, target, 8))?;
    }
    file.push(0x55)?;
    assert!(rt; read(rt.alloc(), &file).err() == Some(ImageFault::Ragged(262_145)));
    Ok(())
}

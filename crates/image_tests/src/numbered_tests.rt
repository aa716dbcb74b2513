//! The first bytes of a generated program.

use std::test::Fail;
use uf2_image::numbered::generated;

#[test]
fn a_program_of_a_number(rt: HostRuntime) -> Result<(), Fail> {
    let image = generated(rt.alloc(), 1)?;
    assert_eq!(rt; image.entry, 0x2000_0000);
    assert_eq!(rt; image.parts.as_slice().len(), 1);
    let bytes = image.parts.as_slice()[0].bytes.as_slice();
    assert_eq!(rt; bytes.len(), 32768);
    // all eight kinds of instructions
    assert!(rt;
        bytes.starts_with(&[
            0x47, 0x32, 0x8e, 0x40, 0x13, 0x3a, 0x5a, 0x41, 0x4a, 0x43, 0x14, 0x37, 0x64, 0x43,
            0x46, 0x41, 0x68, 0x40, 0x55, 0x41, 0xbb, 0x33, 0x55, 0x41, 0xd7, 0x41, 0xd2, 0x32,
            0xbc, 0x40, 0x3b, 0x25
        ])
    );
    assert!(rt; bytes.ends_with(&[0xf8, 0xf7, 0x00, 0xf8]));
    Ok(())
}

//! Spots of known addresses, and their ports.

use rp_base::map::{Block, Spot, place, port};

/// A word of SRAM.
fn ram(index: u32, bank: u8) -> Spot {
    Spot::Ram { index, bank }
}

/// A register, and the alias by which it is reached.
fn reg(block: Block, offset: u16, alias: u8) -> Spot {
    Spot::Reg {
        block,
        offset,
        alias,
    }
}

// The base addresses are those of `addressmap.h` of Raspberry Pi's SDK.
#[test]
fn places(rt: HostRuntime) {
    let table = [
        (0x1FFF_FFFF, Spot::Outside, None),
        (0x2000_0000, ram(0, 0), Some(0)),
        (0x2000_0007, ram(1, 1), Some(1)),
        (0x2003_FFFF, ram(0xFFFF, 3), Some(3)),
        (0x2004_0000, ram(0x1_0000, 4), Some(4)),
        (0x2004_1FFF, ram(0x1_07FF, 5), Some(5)),
        (0x2004_2000, Spot::Outside, None),
        (0x2101_0004, ram(5, 1), Some(1)),
        (0x2103_FFFF, ram(0xFFFF, 3), Some(3)),
        (0x4000_C008, reg(Block::Resets, 8, 0), Some(6)),
        (0x4001_5124, reg(Block::IoBank0, 0x124, 1), Some(6)),
        (0x4003_8000, reg(Block::Uart1, 0, 0), Some(6)),
        (0x4005_7FFF, reg(Block::Timer, 0xFFC, 3), Some(6)),
        (0x4005_8000, Spot::Outside, None),
        (0x5000_2430, reg(Block::Dma, 0x430, 2), Some(7)),
        (0x5030_00C8, reg(Block::Pio1, 0xC8, 0), Some(7)),
        (0xD000_017F, Spot::Sio { offset: 0x17C }, None),
        (0xD000_0180, Spot::Outside, None),
        (0xE000_ED00, Spot::Ppb { offset: 0xD00 }, None),
        (0xFFFF_FFFF, Spot::Outside, None),
    ];
    for (address, spot, reached) in table {
        assert!(rt;
            place(address) == spot && port(&spot) == reached,
            "{address:x}"
        );
    }
}

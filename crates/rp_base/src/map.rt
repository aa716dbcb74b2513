//! The address map: which spot of the machine each address names (RP2040 Datasheet, 2.2).
#![tactic(auto)]

ghost use Rattle.std.specs.Prelude.{◌≡◌, ◌/◌, ◌%◌, ◌<◌, ◌≤◌};
ghost use Rattle.rp_base.specs.Map.{IsWithin, place_of, port_of, registers};

/// A block of registers on the APB or the AHB-Lite bus.
#[derive(Clone, Copy, PartialEq, Eq)]
pub enum Block {
    /// The subsystem resets, at 4000C000.
    Resets,
    /// The user bank's GPIO control, at 40014000.
    IoBank0,
    /// The user bank's pad control, at 4001C000.
    PadsBank0,
    /// The bus fabric's priorities, at 40030000.
    Busctrl,
    /// UART0, at 40034000.
    Uart0,
    /// UART1, at 40038000.
    Uart1,
    /// The timer, at 40054000.
    Timer,
    /// The DMA engine, at 50000000.
    Dma,
    /// PIO block 0, at 50200000.
    Pio0,
    /// PIO block 1, at 50300000.
    Pio1,
}

/// The spot of the word that holds an address.
#[derive(Clone, Copy, PartialEq, Eq)]
pub enum Spot {
    /// A word of SRAM.
    Ram {
        /// The index of the word in the striped order, below 67,584.
        index: u32,
        /// The bank that holds it, 0 to 5.
        bank: u8,
    },
    /// A word of a register block.
    Reg {
        /// The block.
        block: Block,
        /// The byte offset of the word in the block's plain view, a multiple of 4 below 1000h.
        offset: u16,
        /// How a write acts: 0 plain, 1 XOR, 2 set bits, 3 clear bits.
        alias: u8,
    },
    /// A word of the single-cycle IO block, which each core reaches by itself.
    Sio {
        /// The byte offset of the word, a multiple of 4 below 180h.
        offset: u16,
    },
    /// A word of the core's private bus.
    Ppb {
        /// The byte offset of the word after E000E000, a multiple of 4 below 1000h.
        offset: u16,
    },
    /// No spot of the machine.
    Outside,
}

/// The spot that an address names; its two low bits do not matter.
#[tactic(auto, unfolding(crate::specs::Map::place_of))]
pub fn place(address: u32) -> Spot
    ensures value { result ≡ place_of address }
    ensures within { IsWithin result }
{
    match address / 0x1000_0000 {
        2 => ram(address),
        4 | 5 => register(address),
        0xD if address <= 0xD000_017F => Spot::Sio {
            offset: (address % 0x1000 / 4 * 4) as u16,
        },
        0xE if address / 0x1000 == 0xE000E => Spot::Ppb {
            offset: (address % 0x1000 / 4 * 4) as u16,
        },
        _ => Spot::Outside,
    }
}

/// The spot of an address from 20000000 to 2FFFFFFF.
#[tactic(auto, unfolding(crate::specs::Map::place_of))]
fn ram(address: u32) -> Spot
    requires { address / 0x10000000 ≡ 2 }
    ensures value { result ≡ place_of address }
    ensures within { IsWithin result }
{
    let word = (address - 0x2000_0000) / 4;
    if word < 0x1_0000 {
        Spot::Ram {
            index: word,
            bank: (word % 4) as u8,
        }
    } else if word < 0x1_0400 {
        Spot::Ram {
            index: word,
            bank: 4,
        }
    } else if word < 0x1_0800 {
        Spot::Ram {
            index: word,
            bank: 5,
        }
    } else if word >= 0x40_0000 && word < 0x41_0000 {
        let bank = (word - 0x40_0000) / 0x4000;
        Spot::Ram {
            index: word % 0x4000 * 4 + bank,
            bank: bank as u8,
        }
    } else {
        Spot::Outside
    }
}

/// The spot of an address from 40000000 to 5FFFFFFF.
#[tactic(auto, unfolding(crate::specs::Map::place_of))]
fn register(address: u32) -> Spot
    requires low { 0x40000000 ≤ address }
    requires high { address < 0x60000000 }
    ensures value { result ≡ place_of address }
    ensures within { IsWithin result }
{
    match address / 0x4000 {
        0x1_0003 => view(Block::Resets, address),
        0x1_0005 => view(Block::IoBank0, address),
        0x1_0007 => view(Block::PadsBank0, address),
        0x1_000C => view(Block::Busctrl, address),
        0x1_000D => view(Block::Uart0, address),
        0x1_000E => view(Block::Uart1, address),
        0x1_0015 => view(Block::Timer, address),
        0x1_4000 => view(Block::Dma, address),
        0x1_4080 => view(Block::Pio0, address),
        0x1_40C0 => view(Block::Pio1, address),
        _ => Spot::Outside,
    }
}

/// The word of a block that an address names, where the block's views begin at a multiple of 16 KiB.
fn view(block: Block, address: u32) -> Spot
    ensures value { result ≡ registers block (address % 0x4000) }
    ensures within { IsWithin result }
{
    Spot::Reg {
        block,
        offset: (address % 0x1000 / 4 * 4) as u16,
        alias: (address % 0x4000 / 0x1000) as u8,
    }
}

/// The port of the bus fabric that a spot is reached through: 0 to 5 for a bank of SRAM, 6 for APB, 7 for AHB-Lite;
/// SIO, the private bus and what is outside have none.
pub fn port(spot: &Spot) -> Option<u8>
    ensures { result ≡ port_of spot.now }
{
    match spot {
        Spot::Ram { bank, .. } => Some(*bank),
        Spot::Reg {
            block: Block::Dma | Block::Pio0 | Block::Pio1,
            ..
        } => Some(7),
        Spot::Reg { .. } => Some(6),
        Spot::Sio { .. } | Spot::Ppb { .. } | Spot::Outside => None,
    }
}

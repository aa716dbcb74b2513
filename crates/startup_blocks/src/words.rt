//! The words, by their offsets in each block, and by their addresses.

ghost use Rattle.std.specs.Prelude.{◌≡◌, ◌≤◌, ◌+◌, Some, length};
ghost use Rattle.rp_base.specs.Rows.{word_at, has_row, effect_at};
ghost use Rattle.startup_blocks.specs.Words.{clocks_rows, xosc_rows, pll_rows, watchdog_rows, word_of, is_word, written, read_at, write_at};

use rp_base::alias::aliased;

/// How many words the state has.
pub(crate) const WORDS: usize = 46;
/// The first words of the PLLs in the state.
pub(crate) const PLL_SYS_WORDS: usize = 37;

pub(crate) const PLL_USB_WORDS: usize = 41;
/// The word of TICK.
pub(crate) const TICK_WORD: usize = 45;

/// The blocks, by the address of the first word.
const CLOCKS: u32 = 0x4000_8000;

const XOSC: u32 = 0x4002_4000;

const PLL_SYS: u32 = 0x4002_8000;

const PLL_USB: u32 = 0x4002_C000;

const WATCHDOG: u32 = 0x4005_8000;

/// A word of CLOCKS.
fn clocks_word(state: &[u32], offset: u32) -> Option<u32>
    requires { length state.now ≡ 46 }
    ensures { result ≡ word_at clocks_rows tt offset state.now }
{
    match offset {
        0x00 => Some(state[0]),
        0x04 => Some(state[1]),
        0x08 => Some(1),
        0x0c => Some(state[3]),
        0x10 => Some(state[4]),
        0x14 => Some(1),
        0x18 => Some(state[6]),
        0x1c => Some(state[7]),
        0x20 => Some(1),
        0x24 => Some(state[9]),
        0x28 => Some(state[10]),
        0x2c => Some(1),
        0x30 => Some(state[12]),
        0x34 => Some(state[13]),
        0x38 => Some(1 << (state[12] % 4)),
        0x3c => Some(state[15]),
        0x40 => Some(state[16]),
        0x44 => Some(1 << (state[15] % 2)),
        0x48 => Some(state[18]),
        0x4c => Some(state[19]),
        0x50 => Some(1),
        0x54 => Some(state[21]),
        0x58 => Some(state[22]),
        0x5c => Some(1),
        0x60 => Some(state[24]),
        0x64 => Some(state[25]),
        0x68 => Some(1),
        0x6c => Some(state[27]),
        0x70 => Some(state[28]),
        0x74 => Some(1),
        0x78 => Some(state[30]),
        0x7c => Some(state[31]),
        _ => None,
    }
}

/// A write of a word of CLOCKS.
fn write_clocks(state: &mut [u32], offset: u32, word: u32)
    requires { length state.old ≡ 46 }
    ensures { state.new ≡ effect_at clocks_rows offset (Some word) state.old }
{
    match offset {
        0x00 => state[0] = word,
        0x04 => state[1] = word,
        0x0c => state[3] = word,
        0x10 => state[4] = word,
        0x18 => state[6] = word,
        0x1c => state[7] = word,
        0x24 => state[9] = word,
        0x28 => state[10] = word,
        0x30 => state[12] = word,
        0x34 => state[13] = word,
        0x3c => state[15] = word,
        0x40 => state[16] = word,
        0x48 => state[18] = word,
        0x4c => state[19] = word,
        0x54 => state[21] = word,
        0x58 => state[22] = word,
        0x60 => state[24] = word,
        0x64 => state[25] = word,
        0x6c => state[27] = word,
        0x70 => state[28] = word,
        0x78 => state[30] = word,
        0x7c => state[31] = word,
        _ => {}
    }
}

/// A word of XOSC.
fn xosc_word(state: &[u32], offset: u32) -> Option<u32>
    requires { length state.now ≡ 46 }
    ensures { result ≡ word_at xosc_rows tt offset state.now }
{
    match offset {
        0x00 => Some(state[32]),
        0x04 => Some(0x8000_1000),
        0x08 => Some(state[34]),
        0x0c => Some(state[35]),
        0x1c => Some(state[36]),
        _ => None,
    }
}

/// A write of a word of XOSC.
fn write_xosc(state: &mut [u32], offset: u32, word: u32)
    requires { length state.old ≡ 46 }
    ensures { state.new ≡ effect_at xosc_rows offset (Some word) state.old }
{
    match offset {
        0x00 => state[32] = word,
        0x08 => state[34] = word,
        0x0c => state[35] = word,
        0x1c => state[36] = word,
        _ => {}
    }
}

/// A word of the PLL whose first word stands at a place.
fn pll_word(state: &[u32], first: usize, offset: u32) -> Option<u32>
    requires { first + 4 ≤ length state.now }
    ensures { result ≡ word_at (pll_rows first) tt offset state.now }
{
    match offset {
        0x00 => Some(0x8000_0000 + state[first] % 0x200),
        0x04 => Some(state[first + 1]),
        0x08 => Some(state[first + 2]),
        0x0c => Some(state[first + 3]),
        _ => None,
    }
}

/// A write of a word of a PLL.
fn write_pll(state: &mut [u32], first: usize, offset: u32, word: u32)
    requires { first + 4 ≤ length state.old }
    ensures { state.new ≡ effect_at (pll_rows first) offset (Some word) state.old }
{
    match offset {
        0x00 => state[first] = word % 0x200,
        0x04 => state[first + 1] = word,
        0x08 => state[first + 2] = word,
        0x0c => state[first + 3] = word,
        _ => {}
    }
}

/// A word of WATCHDOG.
fn watchdog_word(state: &[u32], offset: u32) -> Option<u32>
    requires { length state.now ≡ 46 }
    ensures { result ≡ word_at watchdog_rows tt offset state.now }
{
    if offset == 0x2c {
        let tick = state[TICK_WORD];
        Some(tick % 0x400 + tick / 0x200 % 2 * 0x400)
    } else {
        None
    }
}

/// A write of a word of WATCHDOG.
fn write_watchdog(state: &mut [u32], offset: u32, word: u32)
    requires { length state.old ≡ 46 }
    ensures { state.new ≡ effect_at watchdog_rows offset (Some word) state.old }
{
    if offset == 0x2c {
        state[TICK_WORD] = word % 0x400;
    }
}

/// Whether there is a word at an offset of CLOCKS.
#[tactic(auto, using(crate::proofs::Clocks::has_clocks))]
fn has_clocks(offset: u32) -> bool
    ensures { result ≡ has_row clocks_rows offset }
{
    offset < 0x80 && offset % 4 == 0
}

/// Whether there is a word at an offset of XOSC.
fn has_xosc(offset: u32) -> bool
    ensures { result ≡ has_row xosc_rows offset }
{
    matches!(offset, 0x00 | 0x04 | 0x08 | 0x0c | 0x1c)
}

/// Whether there is a word at an offset of a PLL.
fn has_pll(offset: u32) -> bool
    ensures { result ≡ has_row (pll_rows 37) offset }
{
    matches!(offset, 0x00 | 0x04 | 0x08 | 0x0c)
}

/// Whether there is a word at an address.
pub(crate) fn is_word(address: u32) -> bool
    ensures { result ≡ is_word address }
{
    let offset = address % 0x1000 / 4 * 4;
    match address / 0x4000 * 0x4000 {
        CLOCKS => has_clocks(offset),
        XOSC => has_xosc(offset),
        PLL_SYS => has_pll(offset),
        PLL_USB => has_pll(offset),
        WATCHDOG => offset == 0x2c,
        _ => false,
    }
}

/// The word that has an address. None where there is none.
pub(crate) fn word(state: &[u32], address: u32) -> Option<u32>
    requires { length state.now ≡ 46 }
    ensures { result ≡ word_of address state.now }
{
    let offset = address % 0x1000 / 4 * 4;
    match address / 0x4000 * 0x4000 {
        CLOCKS => clocks_word(state, offset),
        XOSC => xosc_word(state, offset),
        PLL_SYS => pll_word(state, PLL_SYS_WORDS, offset),
        PLL_USB => pll_word(state, PLL_USB_WORDS, offset),
        WATCHDOG => watchdog_word(state, offset),
        _ => None,
    }
}

/// A write of the word that has an address.
fn write_word(state: &mut [u32], address: u32, word: u32)
    requires { length state.old ≡ 46 }
    ensures { state.new ≡ written address word state.old }
{
    let offset = address % 0x1000 / 4 * 4;
    match address / 0x4000 * 0x4000 {
        CLOCKS => write_clocks(state, offset, word),
        XOSC => write_xosc(state, offset, word),
        PLL_SYS => write_pll(state, PLL_SYS_WORDS, offset, word),
        PLL_USB => write_pll(state, PLL_USB_WORDS, offset, word),
        WATCHDOG => write_watchdog(state, offset, word),
        _ => {}
    }
}

/// Reads the word that has an address; 0 where there is none.
pub(crate) fn read(state: &[u32], address: u32) -> u32
    requires { length state.now ≡ 46 }
    ensures { result ≡ read_at address state.now }
{
    word(state, address).unwrap_or(0)
}

/// Writes to an address, through its alias.
pub(crate) fn write(state: &mut [u32], address: u32, value: u32)
    requires { length state.old ≡ 46 }
    ensures { state.new ≡ write_at address value state.old }
{
    let word = aliased((address / 0x1000 % 4) as u8, read(state, address), value);
    write_word(state, address, word);
}

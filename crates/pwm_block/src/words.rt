//! The registers, by their addresses.

ghost use Rattle.std.specs.Prelude.{◌≡◌, ◌<◌, false, Some, length};
ghost use Rattle.rp_base.specs.Rows.{word_at, effect_at};
ghost use Rattle.pwm_block.specs.Changes.{by, wraps_by};
ghost use Rattle.pwm_block.specs.Words.{slice_rows, block_rows, pwm_rows, offset_of, read_at, write_at, with_slices};
ghost use Rattle.pwm_block.specs.Packing.{words_of, block_of};

use crate::change::Change;
use crate::packing::{Interrupts, LAST, enabled, renew};
use crate::registers::{
    CH0_CC, CH0_CSR, CH0_CTR, CH0_DIV, CH0_TOP, EN, INTE, INTF, INTR, INTS, SLICE,
};
use rp_base::alias::aliased;

/// The word that has an address.
pub(crate) fn read(state: &[u32], address: u32) -> u32
    requires { length state.now ≡ 68 }
    ensures { result ≡ read_at address (block_of state.now) }
{
    match word(state, offset(address)) {
        Some(word) => word,
        None => 0,
    }
}

/// The offset of the word that has an address.
fn offset(address: u32) -> u16
    ensures { result ≡ offset_of address }
{
    (address % 0x1000 / 4 * 4) as u16
}

/// The word at an offset. None exactly where there is no such word.
#[tactic(auto, using(crate::proofs::Rows::words))]
fn word(state: &[u32], offset: u16) -> Option<u32>
    requires { length state.now ≡ 68 }
    ensures { result ≡ word_at pwm_rows tt offset (block_of state.now) }
{
    if offset < EN {
        slice_word(state, offset)
    } else {
        block_word(state, offset)
    }
}

/// A register of a slice.
#[tactic(auto, using(crate::proofs::Rows::csr_word, crate::proofs::Rows::div_word, crate::proofs::Rows::ctr_word, crate::proofs::Rows::cc_word, crate::proofs::Rows::top_word, crate::proofs::Rows::no_word))]
fn slice_word(state: &[u32], offset: u16) -> Option<u32>
    requires room { length state.now ≡ 68 }
    requires low { offset < 0xa0 }
    ensures { result ≡ word_at slice_rows tt offset (block_of state.now) }
{
    let first = (offset / SLICE * 8) as usize;
    match offset % SLICE {
        CH0_CSR => Some(state[first] % 0x40),
        CH0_DIV => Some(state[first + 1]),
        CH0_CTR => Some(state[first + 2]),
        CH0_CC => Some(state[first + 3]),
        CH0_TOP => Some(state[first + 4]),
        _ => None,
    }
}

/// A register of the block.
fn block_word(state: &[u32], offset: u16) -> Option<u32>
    requires { length state.now ≡ 68 }
    ensures { result ≡ word_at block_rows tt offset (block_of state.now) }
{
    let interrupts = Interrupts::load(state);
    match offset {
        EN => Some(enabled(state, 8, 0)),
        INTR => Some(interrupts.raised),
        INTE => Some(interrupts.enabled),
        INTF => Some(interrupts.forced),
        INTS => Some(interrupts.shown()),
        _ => None,
    }
}

/// A write of a word to an address.
pub(crate) fn write(state: &mut [u32], address: u32, value: u32)
    requires { length state.old ≡ 68 }
    ensures { state.new ≡ words_of (write_at address value (block_of state.old)) }
{
    let before = read(state, address);
    let word = aliased((address / 0x1000 % 4) as u8, before, value);
    write_word(state, offset(address), word);
}

/// A write of a word at an offset.
#[tactic(auto, using(crate::proofs::Rows::writes))]
fn write_word(state: &mut [u32], offset: u16, word: u32)
    requires { length state.old ≡ 68 }
    ensures { state.new ≡ words_of (effect_at pwm_rows offset (Some word) (block_of state.old)) }
{
    if offset < EN {
        write_slice(state, offset, word);
    } else {
        write_block(state, offset, word);
    }
}

/// A write of a register of a slice.
#[tactic(auto, using(crate::proofs::Rows::csr_write, crate::proofs::Rows::div_write, crate::proofs::Rows::ctr_write, crate::proofs::Rows::cc_write, crate::proofs::Rows::top_write, crate::proofs::Rows::no_write))]
fn write_slice(state: &mut [u32], offset: u16, word: u32)
    requires room { length state.old ≡ 68 }
    requires low { offset < 0xa0 }
    ensures { state.new ≡ words_of (effect_at slice_rows offset (Some word) (block_of state.old)) }
{
    let number = u32::from(offset / SLICE);
    match offset % SLICE {
        CH0_CSR => change(state, &Change::Csr { number, word }),
        CH0_DIV => change(state, &Change::Div { number, word }),
        CH0_CTR => change(state, &Change::Ctr { number, word }),
        CH0_CC => change(state, &Change::Cc { number, word }),
        CH0_TOP => change(state, &Change::Top { number, word }),
        _ => write_interrupts(state, Interrupts::load(state)),
    }
}

/// A write of a register of the block.
fn write_block(state: &mut [u32], offset: u16, word: u32)
    requires { length state.old ≡ 68 }
    ensures { state.new ≡ words_of (effect_at block_rows offset (Some word) (block_of state.old)) }
{
    let mut interrupts = Interrupts::load(state);
    match offset {
        EN => return change(state, &Change::Enable { word }),
        INTR => interrupts.raised &= !word,
        INTE => interrupts.enabled = word & 0xff,
        INTF => interrupts.forced = word & 0xff,
        _ => {}
    }
    write_interrupts(state, interrupts);
}

/// A change of slices in which none wraps.
#[tactic(auto, using(crate::proofs::Slices::changed))]
fn change(state: &mut [u32], change: &Change)
    requires room { length state.old ≡ 68 }
    requires still { wraps_by change.now ≡ (λ n s. false) }
    ensures { state.new ≡ words_of (with_slices (by change.now) (block_of state.old)) }
{
    let last = state[LAST];
    let interrupts = Interrupts::load(state);
    renew(state, change, last, interrupts);
}

/// The interrupts become these.
#[tactic(auto, using(crate::proofs::Slices::unchanged))]
fn write_interrupts(state: &mut [u32], interrupts: Interrupts)
    requires { length state.old ≡ 68 }
    ensures { state.new ≡ words_of (record (block_of state.old) {
      raised = interrupts.raised;
      enabled = interrupts.enabled;
      forced = interrupts.forced;
    }) }
{
    let last = state[LAST];
    renew(state, &Change::Nothing, last, interrupts);
}

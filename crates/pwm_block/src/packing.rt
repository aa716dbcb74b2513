//! The words that hold the block.

ghost use Rattle.std.specs.Prelude.{◌≡◌, ◌<◌, ◌≤◌, ◌+◌, ◌*◌, ◌%◌, ◌^◌, ◌==◌, not, [], ◌∷◌, length, bit_and, bit_or};
ghost use Rattle.rp_base.specs.Word.{bit_number};
ghost use Rattle.pwm_block.specs.State.{is_enabled};
ghost use Rattle.pwm_block.specs.Step.{numbered, set_of};
ghost use Rattle.pwm_block.specs.Outputs.{outputs_of};
ghost use Rattle.pwm_block.specs.Packing.{slice_of, slice_words, slices_in, all_words, words_of, block_of};
ghost use Rattle.pwm_block.specs.Changes.{by, wraps_by};

use crate::change::Change;
use crate::slice::Slice;
use rp_base::bits::{bit_number, has_bit};

/// How many words hold the block.
pub(crate) const WORDS: usize = 68;

/// The word of the outputs of all pins.
pub(crate) const PINS: usize = 64;

/// The word of the slices that are enabled, and above them of the interrupt line.
pub(crate) const SIGNS: usize = 65;

/// The word of the last levels of the pads.
pub(crate) const LAST: usize = 66;

/// The word of the interrupts.
const INTERRUPTS: usize = 67;

/// INTR, INTE and INTF.
#[derive(Clone, Copy)]
pub(crate) struct Interrupts {
    pub(crate) raised: u32,
    pub(crate) enabled: u32,
    pub(crate) forced: u32,
}

impl Interrupts {
    /// Those that the words hold.
    pub(crate) fn load(state: &[u32]) -> Interrupts
        requires { length state.now ≡ 68 }
        ensures raised { result.raised ≡ (block_of state.now).raised }
        ensures enabled { result.enabled ≡ (block_of state.now).enabled }
        ensures forced { result.forced ≡ (block_of state.now).forced }
    {
        let word = state[INTERRUPTS];
        Interrupts {
            raised: word & 0xff,
            enabled: (word >> 8) & 0xff,
            forced: (word >> 16) & 0xff,
        }
    }

    /// INTS.
    pub(crate) fn shown(&self) -> u32
        ensures { result ≡ bit_or (bit_and self.now.raised self.now.enabled) self.now.forced }
    {
        self.raised & self.enabled | self.forced
    }

    /// The word that holds them.
    fn word(&self) -> u32
        ensures { result ≡ self.now.raised % 2 ^ 8 + self.now.enabled % 2 ^ 8 * 2 ^ 8 + self.now.forced % 2 ^ 8 * 2 ^ 16 }
    {
        self.raised % 0x100 + self.enabled % 0x100 * 0x100 + self.forced % 0x100 * 0x1_0000
    }
}

impl Slice {
    /// The slice that eight words hold.
    fn load(words: &[u32]) -> Slice
        requires { length words.now ≡ 8 }
        ensures { result ≡ slice_of words.now }
    {
        Slice {
            csr: words[0] & 0x3f,
            div: words[1],
            ctr: words[2],
            cc: words[3],
            top: words[4],
            live_cc: words[5],
            live_top: words[6],
            down: has_bit(words[0], 6),
            acc: words[7],
        }
    }

    /// Leaves eight words that hold it.
    fn store(&self, words: &mut [u32])
        requires { length words.old ≡ 8 }
        ensures { words.new ≡ slice_words self.now }
    {
        words[0] = self.csr % 0x40 + bit_number(self.down) * 0x40;
        words[1] = self.div;
        words[2] = self.ctr;
        words[3] = self.cc;
        words[4] = self.top;
        words[5] = self.live_cc;
        words[6] = self.live_top;
        words[7] = self.acc;
    }
}

/// What is found of the slices after a change.
#[derive(Clone, Copy)]
struct Found {
    outputs: u32,
    enabled: u32,
    wrapped: u32,
}

/// A change of the last so many slices; the first of them has this number.
#[tactic(auto, using(crate::proofs::Slices::none_left, crate::proofs::Slices::first_slice, crate::proofs::Slices::no_words, crate::proofs::Slices::set_small, crate::proofs::Slices::enabled_small, crate::proofs::Slices::outputs_small, crate::proofs::Slices::bit_small))]
fn change_slices(words: &mut [u32], left: u32, number: u32, change: &Change) -> Found
    requires all { number + left ≡ 8 }
    requires room { length words.old ≡ 8 * left }
    ensures words { words.new ≡ all_words (numbered (by change.now) number (slices_in left words.old)) }
    ensures outputs { result.outputs ≡ outputs_of (numbered (by change.now) number (slices_in left words.old)) }
    ensures enabled { result.enabled ≡ set_of (λ n s. is_enabled s) number (numbered (by change.now) number (slices_in left words.old)) }
    ensures wrapped { result.wrapped ≡ set_of (wraps_by change.now) number (slices_in left words.old) }
{
    if left == 0 {
        return Found {
            outputs: 0,
            enabled: 0,
            wrapped: 0,
        };
    }
    let (head, tail) = words.split_at_mut(8);
    let mut slice = Slice::load(head);
    let wraps = change.apply(number, &mut slice);
    slice.store(head);
    let outputs = bit_number(slice.output_a()) + bit_number(slice.output_b()) * 2;
    let enabled = bit_number(slice.is_enabled());
    let rest = change_slices(tail, left - 1, number + 1, change);
    Found {
        outputs: outputs + rest.outputs * 4,
        enabled: enabled + rest.enabled * 2,
        wrapped: bit_number(wraps) + rest.wrapped * 2,
    }
}

/// The set of those of the last so many slices that are enabled; the first of them has this number.
#[tactic(auto, using(crate::proofs::Slices::none_left, crate::proofs::Slices::first_slice, crate::proofs::Slices::set_small, crate::proofs::Slices::bit_small))]
pub(crate) fn enabled(words: &[u32], left: u32, number: u32) -> u32
    requires all { number + left ≡ 8 }
    requires room { 8 * left ≤ length words.now }
    ensures { result ≡ set_of (λ n s. is_enabled s) number (slices_in left words.now) }
{
    if left == 0 {
        return 0;
    }
    let (head, tail) = words.split_at(8);
    bit_number(Slice::load(head).is_enabled()) + enabled(tail, left - 1, number + 1) * 2
}

/// A change of all slices; the last levels of the pads and the interrupts are these from then on, and each slice that wraps sets its
/// interrupt.
#[tactic(auto, using(crate::proofs::Slices::enabled_small, crate::proofs::Slices::outputs_small))]
pub(crate) fn renew(state: &mut [u32], change: &Change, last: u32, interrupts: Interrupts)
    requires { length state.old ≡ 68 }
    ensures { state.new ≡ words_of (record {
      slices = numbered (by change.now) 0 (block_of state.old).slices;
      last = last;
      raised = bit_or interrupts.raised (set_of (wraps_by change.now) 0 (block_of state.old).slices);
      enabled = interrupts.enabled;
      forced = interrupts.forced;
    }) }
{
    let (slices, signs) = state.split_at_mut(PINS);
    let found = change_slices(slices, 8, 0, change);
    let now = Interrupts {
        raised: interrupts.raised | found.wrapped,
        enabled: interrupts.enabled,
        forced: interrupts.forced,
    };
    store_signs(signs, &found, last, &now);
}

/// Leaves the words after those of the slices.
fn store_signs(signs: &mut [u32], found: &Found, last: u32, interrupts: &Interrupts)
    requires room { length signs.old ≡ 4 }
    requires outputs { found.now.outputs < 2 ^ 16 }
    requires enabled { found.now.enabled < 2 ^ 8 }
    ensures { signs.new ≡ found.now.outputs * (2 ^ 16 + 1)
        ∷ (found.now.enabled + bit_number (not (bit_or (bit_and interrupts.now.raised interrupts.now.enabled) interrupts.now.forced == 0)) * 2 ^ 8)
        ∷ last
        ∷ (interrupts.now.raised % 2 ^ 8 + interrupts.now.enabled % 2 ^ 8 * 2 ^ 8 + interrupts.now.forced % 2 ^ 8 * 2 ^ 16)
        ∷ [] }
{
    signs[0] = found.outputs * 0x1_0001;
    signs[1] = found.enabled + bit_number(interrupts.shown() != 0) * 0x100;
    signs[2] = last;
    signs[3] = interrupts.word();
}

//! What is done to the slices: a cycle, or a write of a register.

ghost use Rattle.std.specs.Prelude.{◌≡◌, ◌<◌};
ghost use Rattle.pwm_block.specs.Changes.{by, wraps_by};

use crate::slice::Slice;
use rp_base::bits::has_bit;

/// What is done to each slice, or to the slice of a number alone.
#[derive(Clone, Copy)]
pub(crate) enum Change {
    /// A cycle, by the levels of the pads and those of the cycle before.
    Step {
        /// The levels now.
        pads: u32,
        /// The levels of the cycle before.
        last: u32,
    },
    /// A write of CSR.
    Csr {
        /// The number of the slice.
        number: u32,
        /// The word.
        word: u32,
    },
    /// A write of DIV.
    Div {
        /// The number of the slice.
        number: u32,
        /// The word.
        word: u32,
    },
    /// A write of CTR.
    Ctr {
        /// The number of the slice.
        number: u32,
        /// The word.
        word: u32,
    },
    /// A write of CC.
    Cc {
        /// The number of the slice.
        number: u32,
        /// The word.
        word: u32,
    },
    /// A write of TOP.
    Top {
        /// The number of the slice.
        number: u32,
        /// The word.
        word: u32,
    },
    /// A write of EN.
    Enable {
        /// The word.
        word: u32,
    },
    /// The state at the start.
    Reset,
    /// Nothing.
    Nothing,
}

impl Change {
    /// Does it to the slice of a number. Whether the slice wraps.
    pub(crate) fn apply(&self, n: u32, slice: &mut Slice) -> bool
        requires { n < 8 }
        ensures after { slice.new ≡ by self.now n slice.old }
        ensures wrap { result ≡ wraps_by self.now n slice.old }
    {
        match *self {
            Change::Step { pads, last } => {
                return slice.step(has_bit(pads, 2 * n + 1), has_bit(last, 2 * n + 1));
            }
            Change::Csr { number, word } if n == number => slice.set_csr(word),
            Change::Div { number, word } if n == number => slice.set_div(word),
            Change::Ctr { number, word } if n == number => slice.set_ctr(word),
            Change::Cc { number, word } if n == number => slice.set_cc(word),
            Change::Top { number, word } if n == number => slice.set_top(word),
            Change::Enable { word } => slice.set_enable(has_bit(word, n)),
            Change::Reset => *slice = Slice::new(),
            _ => {}
        }
        false
    }
}

//! What the peripherals' lane leaves of each cycle.

use arrayvec::ArrayVec;
use std::marker::Model;

/// What one cycle left: the byte that each UART sent, if it sent one, and the levels of the pads.
#[derive(Clone, Copy, PartialEq, Eq, Default)]
pub struct Mark {
    /// The byte that UART 0 and UART 1 sent.
    pub uart: [Option<u8>; 2],
    /// The level of each pad, pad 0 in bit 0.
    pub pads: u32,
}

/// The marks of at most 256 cycles, in order.
#[derive(Drop)]
pub struct Marks {
    list: ArrayVec<Mark, 256>,
}

impl Model for Marks {
    ghost use Rattle.std.specs.Prelude.{List};
    ghost use Rattle.lane_look.specs.declared.marks.Mark.{Mark};

    ghost Value = { List Mark };

    ghost view = { λ m. m.list.items };
}

impl Marks {
    ghost use Rattle.std.specs.Prelude.{◌≡◌, ◌<◌, ◌≤◌, ◌++◌, ◌∷◌, [], length, slice_get, Some};

    /// No marks.
    pub fn new() -> Marks
        ensures { result ≡ [] }
    {
        Marks {
            list: ArrayVec::new(),
        }
    }

    /// How many there are, at most 256.
    pub fn count(&self) -> u16
        ensures value { result ≡ length self.now }
        ensures room { result ≤ 256 }
    {
        self.list.len() as u16
    }

    /// The mark at an index.
    pub fn entry(&self, index: u16) -> Mark
        requires { index < length self.now }
        ensures { slice_get self.now index ≡ Some result }
    {
        self.list[index as usize]
    }

    /// Adds the mark of a cycle at the end.
    pub fn push(&mut self, mark: Mark)
        requires { length self.old < 256 }
        ensures { self.new ≡ self.old ++ mark ∷ [] }
    {
        self.list.push(mark);
    }

    /// Takes all marks away. In most cycles there is one.
    #[inline(always)]
    pub fn clear(&mut self)
        ensures { self.new ≡ [] }
    {
        if self.list.len() == 1 {
            let _ = self.list.pop();
        } else {
            self.list.clear();
        }
    }
}

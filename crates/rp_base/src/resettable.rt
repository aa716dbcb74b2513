//! Blocks that RESETS holds in their reset states.

ghost use Rattle.std.specs.Prelude.{◌≡◌, ℕ, Bool, Option};
ghost use Rattle.rp_base.specs.Held.{unless_held};
ghost use Rattle.rp_base.specs.Resettable.{let_go, with_held, unless_held_becomes};

use crate::registers::Registers;

/// A part that has a reset state.
pub trait Reset {
    /// The reset state.
    ghost first: { Self };

    /// Puts it in its reset state.
    fn reset(&mut self)
        ensures { self.new ≡ first };
}

/// A block with its bit of RESETS.
#[derive(Drop)]
pub struct Resettable<B> {
    /// The block.
    pub block: B,
    /// Its bit of RESETS is set.
    pub held: bool,
}

/// A word of a block that is held reads 0.
pub fn unless_held(held: bool, word: Option<u32>) -> Option<u32>
    ensures { result ≡ unless_held held word }
{
    if held && word.is_some() {
        Some(0)
    } else {
        word
    }
}

impl<B: Reset> Resettable<B> {
    /// A block out of reset.
    pub fn new(block: B) -> Resettable<B>
        ensures { result ≡ let_go block }
    {
        Resettable { block, held: false }
    }

    /// Sets the copy of its bit of RESETS. A bit that is set puts the block in its reset state, and holds it.
    pub fn set_held(&mut self, held: bool)
        ensures { self.new ≡ with_held held B.first self.old }
    {
        self.held = held;
        if held {
            self.block.reset();
        }
    }
}

impl<V, B: Registers<V>> Registers<V> for Resettable<B> {
    ghost word = { λ offset seen s. unless_held s.held (B.word offset seen s.block) };

    ghost allowed = { λ offset write s. B.allowed offset write s.block };

    ghost accessed = { λ offset write s. unless_held_becomes s (B.accessed offset write s.block) };

    fn read(&self, seen: &V, offset: u16) -> Option<u32> {
        unless_held(self.held, self.block.read(seen, offset))
    }

    fn allows(&self, offset: u16, write: Option<u32>) -> bool {
        self.block.allows(offset, write)
    }

    fn effect(&mut self, offset: u16, write: Option<u32>) -> bool {
        if self.held {
            return self.block.allows(offset, write);
        }
        self.block.effect(offset, write)
    }
}

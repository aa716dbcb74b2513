//! The words of a register block.

ghost use Rattle.std.specs.Prelude.{◌≡◌, ℕ, Bool, Option};

/// A block of registers, by the byte offsets of its words in the plain view, each a multiple of 4. `V` is what a read sees of
/// the rest of the machine.
pub trait Registers<V> {
    /// What the word at an offset reads as; None where there is no such word.
    ghost word: { ℕ → V → Self → Option ℕ };

    /// A read, or a write of a word, is allowed there.
    ghost allowed: { ℕ → Option ℕ → Self → Bool };

    /// The block after a read, or after a write of a word.
    ghost accessed: { ℕ → Option ℕ → Self → Self };

    /// The word at an offset. None exactly where there is no such word.
    fn read(&self, seen: &V, offset: u16) -> Option<u32>
        ensures { result ≡ word offset seen.now self.now };

    /// A read, or a write of a word, is allowed.
    fn allows(&self, offset: u16, write: Option<u32>) -> bool
        ensures { result ≡ allowed offset write self.now };

    /// Does what a read, or a write of this word, does to the block. False exactly where it is not allowed.
    fn effect(&mut self, offset: u16, write: Option<u32>) -> bool
        ensures after { self.new ≡ accessed offset write self.old }
        ensures allowed { result ≡ allowed offset write self.old };
}

//! The instruction memory of a block.

use pio_words::{PioOp, decode_word};
use std::marker::Model;

/// An instruction memory (RP2040 Datasheet, 3.2), seen as the list of its 32 words. Beside each stands its operation, which is
/// found when the word is written.
#[derive(Drop)]
pub struct Memory {
    words: [u16; 32],
    operations: [PioOp; 32],
}

impl Model for Memory {
    ghost use Rattle.std.specs.Prelude.{◌≡◌, ℕ, List, map};
    ghost use Rattle.pio_words.specs.Operation.{operation_of};

    ghost Value = { List ℕ };

    ghost view = { λ m. m.words };

    ghost invariant = { λ m. m.operations ≡ map operation_of m.words };
}

impl Memory {
    ghost use Rattle.std.specs.Prelude.{◌≡◌, ◌<◌, replicate, slice_index, slice_set, Decides};
    ghost use Rattle.pio_words.specs.Operation.{operation_of};

    /// All words are 0.
    pub fn new() -> Memory
        ensures { result ≡ replicate 32 0 }
    {
        Memory {
            words: [0; 32],
            operations: [decode_word(0); 32],
        }
    }

    /// The word at an address, 0 to 31.
    #[inline(always)]
    pub fn word(&self, address: u8) -> u16
        requires { address < 32 }
        ensures { result ≡ slice_index self.now address }
    {
        self.words[address as usize]
    }

    /// The operation of the word at an address, 0 to 31.
    #[inline(always)]
    #[tactic(auto, using(crate::proofs::Beside::operation_at))]
    pub(crate) fn operation(&self, address: u8) -> &PioOp
        requires { address < 32 }
        ensures { result.now ≡ operation_of (slice_index self.now address) }
    {
        &self.operations[address as usize]
    }

    /// Writes the word at an address, 0 to 31.
    #[tactic(auto, using(crate::proofs::Beside::operations_set))]
    pub fn write(&mut self, address: u8, word: u16)
        requires { address < 32 }
        ensures { self.new ≡ slice_set self.old address word }
    {
        self.words[address as usize] = word;
        self.operations[address as usize] = decode_word(word);
    }

    /// Both have the same words.
    pub fn is_same(&self, other: &Memory) -> bool
        ensures { Decides result (self.now ≡ other.now) }
    {
        self.words == other.words
    }

    /// Takes the words of another memory.
    pub fn copy_from(&mut self, other: &Memory)
        ensures { self.new ≡ other.now }
    {
        self.words = other.words;
        self.operations = other.operations;
    }
}

//! A FIFO between a machine and the system.

use arrayvec::ArrayVec;
use std::marker::Model;

/// A FIFO of at most eight words, seen as the list of its words, the next one first.
#[derive(Drop)]
pub struct Fifo {
    words: ArrayVec<u32, 8>,
}

impl Model for Fifo {
    ghost use Rattle.std.specs.Prelude.{List, ℕ};

    ghost Value = { List ℕ };

    ghost view = { λ f. f.words.items };
}

impl Fifo {
    ghost use Rattle.std.specs.Prelude.{◌≡◌, ◌<◌, ◌≤◌, ◌++◌, ◌∷◌, [], length, slice_index, Decides, MatchOption};

    /// No words.
    pub(crate) fn new() -> Fifo
        ensures { result ≡ [] }
    {
        Fifo {
            words: ArrayVec::new(),
        }
    }

    /// How many words there are, at most 8.
    pub fn level(&self) -> u8
        ensures value { result ≡ length self.now }
        ensures room { result ≤ 8 }
    {
        self.words.len() as u8
    }

    /// There is no word.
    pub(crate) fn is_empty(&self) -> bool
        ensures { Decides result (self.now ≡ []) }
    {
        self.words.is_empty()
    }

    /// The first word; 0 where there is none.
    pub fn first(&self) -> u32
        ensures { result ≡ slice_index self.now 0 }
    {
        if self.words.is_empty() {
            0
        } else {
            self.words[0]
        }
    }

    /// Adds a word at the end.
    pub fn push(&mut self, word: u32)
        requires { length self.old < 8 }
        ensures { self.new ≡ self.old ++ word ∷ [] }
    {
        self.words.push(word);
    }

    /// Takes the first word, where there is one.
    pub fn pull(&mut self) -> Option<u32>
        ensures { MatchOption result ((self.old ≡ []) × (self.new ≡ [])) (λ word. self.old
            ≡ word ∷ self.new) }
    {
        if self.words.is_empty() {
            None
        } else {
            Some(self.words.remove(0))
        }
    }

    /// Takes all words away.
    pub fn clear(&mut self)
        ensures { self.new ≡ [] }
    {
        self.words.clear();
    }

    /// Both have the same words.
    pub(crate) fn is_same(&self, other: &Fifo) -> bool
        ensures { Decides result (self.now ≡ other.now) }
    {
        self.words.as_slice() == other.words.as_slice()
    }

    /// Takes the words of another FIFO in place of its own.
    pub(crate) fn copy_from(&mut self, other: &Fifo)
        ensures { self.new ≡ other.now }
    {
        self.words.clear();
        let _ = self.words.try_extend_from_slice(other.words.as_slice());
    }
}

//! The mailbox of a core.

ghost use Rattle.std.specs.Prelude.{◌≡◌, []};
ghost use Rattle.sio_block.specs.Mailbox.{has_word, has_room, front_of, taken_from, put_into};

use arrayvec::ArrayVec;
use std::marker::Model;

/// How many words a mailbox holds.
const DEPTH: usize = 8;

/// The words for a core, at most 8 (RP2040 Datasheet, 2.3.1.4).
#[derive(Drop)]
pub struct Mailbox {
    words: ArrayVec<u32, 8>,
}

impl Model for Mailbox {
    ghost use Rattle.std.specs.Prelude.{ℕ, List};

    ghost Value = { List ℕ };

    ghost view = { λ m. m.words.items };
}

impl Mailbox {
    /// A mailbox without words.
    pub(crate) fn new() -> Mailbox
        ensures { result ≡ [] }
    {
        Mailbox {
            words: ArrayVec::new(),
        }
    }

    /// It has a word.
    #[inline(always)]
    pub(crate) fn has_word(&self) -> bool
        ensures { result ≡ has_word self.now }
    {
        0 < self.words.len()
    }

    /// It has room.
    #[inline(always)]
    pub(crate) fn has_room(&self) -> bool
        ensures { result ≡ has_room self.now }
    {
        self.words.len() < DEPTH
    }

    /// The oldest word, 0 where there is none.
    pub(crate) fn front(&self) -> u32
        ensures { result ≡ front_of self.now }
    {
        let words = self.words.as_slice();
        if words.len() > 0 { words[0] } else { 0 }
    }

    /// Takes the oldest word, where there is one.
    pub(crate) fn take(&mut self)
        ensures { self.new ≡ taken_from self.old }
    {
        if 0 < self.words.len() {
            self.words.remove(0);
        }
    }

    /// Puts a word behind the others, where there is room.
    pub(crate) fn put(&mut self, word: u32)
        ensures { self.new ≡ put_into word self.old }
    {
        if self.words.len() < DEPTH {
            self.words.push(word);
        }
    }

    /// Takes the words of another mailbox.
    pub(crate) fn copy_from(&mut self, other: &Mailbox)
        ensures { self.new ≡ other.now }
    {
        self.words.clear();
        let _ = self.words.try_extend_from_slice(other.words.as_slice());
    }
}

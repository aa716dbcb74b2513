//! The core's private bus.

ghost use Rattle.std.specs.Prelude.{◌≡◌};
ghost use Rattle.m0_nvic.specs.Words.{word_of};
ghost use Rattle.m0_core.specs.Private.{private_word, private_value, accessed};

use crate::processor::Core;
use rp_base::Request;
use rp_base::access::{lanes, word_written};

impl Core {
    /// The word that a read of the private bus at an offset from 0xe000_e000 would give now. None exactly where there is no such word.
    pub fn private_at(&self, offset: u16) -> Option<u32>
        ensures { result ≡ word_of offset self.now.regs.ipsr self.now.nvic }
    {
        self.nvic.read(offset, self.regs.ipsr)
    }

    /// The word at an offset.
    fn private_word(&self, offset: u16) -> u32
        ensures { result ≡ private_word offset self.now }
    {
        self.private_at(offset).unwrap_or(0)
    }

    /// A read's lanes of the word; a write has no value.
    pub(crate) fn private_value(&self, request: &Request, offset: u16) -> Option<u32>
        ensures { result ≡ private_value request.now request.now.write offset self.now }
    {
        match request.write {
            None => Some(lanes(request.size, request.address, self.private_word(offset))),
            Some(_) => None,
        }
    }

    /// Does what the access does to the exceptions.
    pub(crate) fn access(&mut self, request: &Request, offset: u16)
        ensures { self.new ≡ accessed request.now offset self.old }
    {
        let _ = self.nvic.effect(offset, word_written(request));
    }
}

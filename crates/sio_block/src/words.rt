//! The registers, by their offsets, as a core reads and writes them.

ghost use Rattle.std.specs.Prelude.{◌≡◌, ◌<◌};
ghost use Rattle.sio_block.specs.Words.{word_of};
ghost use Rattle.sio_block.specs.Changes.{finds, after_read, after_write, effect_where, effect_of};

use crate::registers::{CPUID, FIFO_ST, GPIO_IN, SPINLOCK_ST, SPINLOCK0};
use crate::sio::Sio;

impl Sio {
    /// The word at an offset as core 0 or 1 reads it, where `inputs` is the word of the levels at the pins. None exactly
    /// where there is no such word. Where both cores read one spinlock in a cycle, core 1 gets 0 in place of this.
    pub fn read(&self, core: u8, offset: u16, inputs: u32) -> Option<u32>
        requires { core < 2 }
        ensures { result ≡ word_of core offset inputs self.now }
    {
        match offset {
            CPUID => Some(u32::from(core)),
            GPIO_IN => Some(inputs),
            SPINLOCK_ST => Some(self.locks.taken),
            _ if offset < FIFO_ST => self.pins.read(offset),
            _ if offset < SPINLOCK0 && core == 0 => self.core0.read(offset, &self.core1.mailbox),
            _ if offset < SPINLOCK0 => self.core1.read(offset, &self.core0.mailbox),
            _ => self.locks.read(offset),
        }
    }

    /// What an access of core 0 or 1 finds: a read a word in its mailbox, or a lock that is free; a write room in the other
    /// core's mailbox.
    pub fn finds(&self, core: u8, offset: u16, write: Option<u32>) -> bool
        requires { core < 2 }
        ensures { result ≡ finds core offset write self.now }
    {
        let (own, other) = if core == 0 {
            (&self.core0, &self.core1)
        } else {
            (&self.core1, &self.core0)
        };
        match write {
            Some(_) => other.mailbox.has_room(),
            None if offset < SPINLOCK0 => own.mailbox.has_word(),
            None => self.locks.is_free(offset),
        }
    }

    /// Does what a read, or a write of this word, by core 0 or 1 does to the block, where nothing was done in the cycle before it.
    /// An access to an offset that is no word changes nothing.
    pub fn effect(&mut self, core: u8, offset: u16, write: Option<u32>)
        requires { core < 2 }
        ensures { self.new ≡ effect_of core offset write self.old }
    {
        let found = self.finds(core, offset, write);
        self.effect_where(found, core, offset, write);
    }

    /// Does what an access of core 0 or 1 does to the block that has found this (`finds`) at the start of the cycle, whatever was
    /// done in it before.
    pub fn effect_where(&mut self, found: bool, core: u8, offset: u16, write: Option<u32>)
        requires { core < 2 }
        ensures { self.new ≡ effect_where found core offset write self.old }
    {
        match write {
            Some(word) => self.write(found, core, offset, word),
            None => self.after_read(found, core, offset),
        }
    }

    /// What a read does.
    fn after_read(&mut self, found: bool, core: u8, offset: u16)
        ensures { self.new ≡ after_read found core offset self.old }
    {
        self.quiet = false;
        if offset >= SPINLOCK0 {
            self.locks.after_read(found, offset);
        } else if core == 0 {
            self.core0.after_read(found, offset);
        } else {
            self.core1.after_read(found, offset);
        }
    }

    /// A write of a word.
    fn write(&mut self, found: bool, core: u8, offset: u16, word: u32)
        ensures { self.new ≡ after_write found core offset word self.old }
    {
        self.quiet = false;
        if offset < FIFO_ST {
            self.pins.write(offset, word);
        } else if offset >= SPINLOCK0 {
            self.locks.write(offset, word);
        } else if core == 0 {
            self.core0
                .write(found, offset, word, &mut self.core1.mailbox);
        } else {
            self.core1
                .write(found, offset, word, &mut self.core0.mailbox);
        }
    }
}

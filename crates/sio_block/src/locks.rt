//! The spinlocks.

ghost use Rattle.std.specs.Prelude.{◌≡◌, ◌<◌, true};
ghost use Rattle.rp_base.specs.Rows.{Each, is_at, number_at};
ghost use Rattle.sio_block.specs.Locks.{is_free, lock_word, lock_read, lock_written};

use crate::registers::{SPINLOCK0, SPINLOCK31};

/// The 32 spinlocks, by bits (RP2040 Datasheet, 2.3.1.3).
#[derive(Clone, Copy)]
pub struct Locks {
    /// Those that are taken.
    pub taken: u32,
}

impl Locks {
    /// SPINLOCK0 to SPINLOCK31: the bit of a lock that is free, 0 for one that is taken.
    pub(crate) fn read(&self, offset: u16) -> Option<u32>
        ensures { result ≡ lock_word offset self.now }
    {
        if !is_lock(offset) {
            return None;
        }
        let number = lock_number(offset);
        if (self.taken >> number) & 1 == 1 {
            Some(0)
        } else {
            Some(1 << number)
        }
    }

    /// A lock that is free is at the offset.
    pub(crate) fn is_free(&self, offset: u16) -> bool
        ensures { result ≡ is_free offset self.now }
    {
        is_lock(offset) && (self.taken >> lock_number(offset)) & 1 == 0
    }

    /// A read takes a lock that it found free.
    pub(crate) fn after_read(&mut self, found: bool, offset: u16)
        ensures { self.new ≡ lock_read found offset self.old }
    {
        if found && is_lock(offset) {
            self.taken |= 1 << lock_number(offset);
        }
    }

    /// A write frees a lock.
    pub(crate) fn write(&mut self, offset: u16, word: u32)
        ensures { self.new ≡ lock_written offset word self.old }
    {
        if is_lock(offset) {
            self.taken &= !(1 << lock_number(offset));
        }
    }
}

/// The offset of a lock.
fn is_lock(offset: u16) -> bool
    ensures { result ≡ is_at (Each 0x100 32 4) offset }
{
    SPINLOCK0 <= offset && offset <= SPINLOCK31 && offset % 4 == 0
}

/// The number of the lock at an offset.
fn lock_number(offset: u16) -> u16
    requires { is_at (Each 0x100 32 4) offset ≡ true }
    ensures value { result ≡ number_at (Each 0x100 32 4) offset }
    ensures range { result < 32 }
{
    (offset - SPINLOCK0) / 4
}

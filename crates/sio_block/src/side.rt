//! What each core has for itself: its mailbox and its divider.

ghost use Rattle.std.specs.Prelude.{◌≡◌};
ghost use Rattle.sio_block.specs.Side.{side_at_reset, status_of, side_word, line_of, status_written, side_written, mailbox_written, side_read, side_ended};

use crate::divider::Divider;
use crate::mailbox::Mailbox;
use crate::registers::{FIFO_RD, FIFO_ST, FIFO_WR};

/// The mailbox and the divider of a core (RP2040 Datasheet, 2.3.1.4 and 2.3.1.5).
#[derive(Drop)]
pub struct Side {
    /// The words for the core.
    pub mailbox: Mailbox,
    /// FIFO_ST.WOF: the core wrote to the other mailbox while it was full.
    pub write_on_full: bool,
    /// FIFO_ST.ROE: the core read its mailbox while it was empty.
    pub read_on_empty: bool,
    pub divider: Divider,
}

impl Side {
    /// A side at reset.
    pub(crate) fn new() -> Side
        ensures { result ≡ side_at_reset }
    {
        Side {
            mailbox: Mailbox::new(),
            write_on_full: false,
            read_on_empty: false,
            divider: Divider::new(),
        }
    }

    /// The word at an offset from 050 to 078, where `other` is the other core's mailbox.
    pub(crate) fn read(&self, offset: u16, other: &Mailbox) -> Option<u32>
        ensures { result ≡ side_word offset other.now self.now }
    {
        match offset {
            FIFO_ST => Some(self.status(other)),
            FIFO_WR => Some(0),
            FIFO_RD => Some(self.mailbox.front()),
            _ => self.divider.read(offset),
        }
    }

    /// FIFO_ST.
    fn status(&self, other: &Mailbox) -> u32
        ensures { result ≡ status_of other.now self.now }
    {
        u32::from(self.mailbox.has_word())
            + u32::from(other.has_room()) * 2
            + u32::from(self.write_on_full) * 4
            + u32::from(self.read_on_empty) * 8
    }

    /// The interrupt line of the core.
    #[inline(always)]
    pub(crate) fn line(&self) -> bool
        ensures { result ≡ line_of self.now }
    {
        self.mailbox.has_word() || self.write_on_full || self.read_on_empty
    }

    /// What a read of this core does, where `found` tells whether its mailbox had a word.
    pub(crate) fn after_read(&mut self, found: bool, offset: u16)
        ensures { self.new ≡ side_read found offset self.old }
    {
        if offset == FIFO_RD {
            if found {
                self.mailbox.take();
            } else {
                self.read_on_empty = true;
            }
        } else {
            self.divider.after_read(offset);
        }
    }

    /// A write of this core, where `other` is the other core's mailbox, and `found` tells whether that had room.
    pub(crate) fn write(&mut self, found: bool, offset: u16, word: u32, other: &mut Mailbox)
        ensures own { self.new ≡ side_written found offset word self.old }
        ensures other { other.new ≡ mailbox_written found offset word other.old }
    {
        match offset {
            FIFO_ST => self.write_status(word),
            FIFO_WR => {
                if found {
                    other.put(word);
                } else {
                    self.write_on_full = true;
                }
            }
            _ => self.divider.write(offset, word),
        }
    }

    /// A write to FIFO_ST.
    fn write_status(&mut self, word: u32)
        ensures { self.new ≡ status_written word self.old }
    {
        if (word >> 2) & 1 == 1 {
            self.write_on_full = false;
        }
        if (word >> 3) & 1 == 1 {
            self.read_on_empty = false;
        }
    }

    /// Ends a cycle.
    pub(crate) fn end_cycle(&mut self)
        ensures { self.new ≡ side_ended self.old }
    {
        self.divider.end_cycle();
    }

    /// Takes the state of another side.
    pub(crate) fn copy_from(&mut self, other: &Side)
        ensures { self.new ≡ other.now }
    {
        self.mailbox.copy_from(&other.mailbox);
        self.write_on_full = other.write_on_full;
        self.read_on_empty = other.read_on_empty;
        self.divider = other.divider;
    }
}

//! The single-cycle IO block (SIO) of the RP2040: GPIO outputs, the mailboxes between the cores, their dividers, the
//! spinlocks, and the launcher of core 1, which serves the mailboxes while that core sleeps. What each call does is defined
//! in `specs/` on lists of words and on sets of bits.
#![tactic(auto)]

pub mod divider;
mod launcher;
pub mod laws;
pub mod locks;
pub mod mailbox;
pub mod pins;
pub mod registers;
pub mod side;
pub mod sio;
mod words;

pub use sio::Sio;

/// What starts core 1: the last three words of the launcher's sequence, as they were taken from the mailbox.
#[derive(Clone, Copy, Debug, PartialEq, Eq)]
pub struct Launch {
    /// The address of the vector table.
    pub vtor: u32,
    /// The stack pointer.
    pub sp: u32,
    /// The entry, whose bit 0 is the Thumb state.
    pub entry: u32,
}

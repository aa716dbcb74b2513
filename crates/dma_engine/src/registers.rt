//! The registers by their offsets (RP2040 Datasheet, 2.5.7, List of Registers), and those of a channel.

ghost use Rattle.std.specs.Prelude.{◌≡◌};
ghost use Rattle.dma_engine.specs.Words.{control_of};

use crate::channel::Channel;

/// The address of the next read of channel 0; channel n has its words 40h times n later.
pub const CH0_READ_ADDR: u16 = 0x000;

/// The address of the next write of channel 0.
pub const CH0_WRITE_ADDR: u16 = 0x004;

/// The transfers that are left to channel 0; a write sets how many the next trigger begins.
pub const CH0_TRANS_COUNT: u16 = 0x008;

/// The control word of channel 0, which triggers it.
pub const CH0_CTRL_TRIG: u16 = 0x00c;

/// The control word of channel 0 without a trigger, the first of three further orders of the same words.
pub const CH0_AL1_CTRL: u16 = 0x010;

/// The address of the next read in the second order.
pub const CH0_AL1_READ_ADDR: u16 = 0x014;

/// The address of the next write in the second order.
pub const CH0_AL1_WRITE_ADDR: u16 = 0x018;

/// The transfers in the second order, which trigger.
pub const CH0_AL1_TRANS_COUNT_TRIG: u16 = 0x01c;

/// The control word in the third order.
pub const CH0_AL2_CTRL: u16 = 0x020;

/// The transfers in the third order.
pub const CH0_AL2_TRANS_COUNT: u16 = 0x024;

/// The address of the next read in the third order.
pub const CH0_AL2_READ_ADDR: u16 = 0x028;

/// The address of the next write in the third order, which triggers.
pub const CH0_AL2_WRITE_ADDR_TRIG: u16 = 0x02c;

/// The control word in the fourth order.
pub const CH0_AL3_CTRL: u16 = 0x030;

/// The address of the next write in the fourth order.
pub const CH0_AL3_WRITE_ADDR: u16 = 0x034;

/// The transfers in the fourth order.
pub const CH0_AL3_TRANS_COUNT: u16 = 0x038;

/// The address of the next read in the fourth order, which triggers.
pub const CH0_AL3_READ_ADDR_TRIG: u16 = 0x03c;

/// The first offset after the registers of the channels.
pub const CHANNELS_END: u16 = 0x300;

/// The channels that raised their interrupt.
pub const INTR: u16 = 0x400;

/// The interrupts that line 0 passes on.
pub const INTE0: u16 = 0x404;

/// The interrupts that are forced on line 0.
pub const INTF0: u16 = 0x408;

/// The interrupts of line 0.
pub const INTS0: u16 = 0x40c;

/// The interrupts that line 1 passes on.
pub const INTE1: u16 = 0x414;

/// The interrupts that are forced on line 1.
pub const INTF1: u16 = 0x418;

/// The interrupts of line 1.
pub const INTS1: u16 = 0x41c;

/// The first of the four pacing timers: X in bits 31:16, Y in 15:0.
pub const TIMER0: u16 = 0x420;

/// The second pacing timer.
pub const TIMER1: u16 = 0x424;

/// The third pacing timer.
pub const TIMER2: u16 = 0x428;

/// The fourth pacing timer.
pub const TIMER3: u16 = 0x42c;

/// Triggers each channel whose bit is written as 1.
pub const MULTI_CHAN_TRIGGER: u16 = 0x430;

/// Aborts each channel whose bit is written as 1.
pub const CHAN_ABORT: u16 = 0x444;

/// How many channels there are.
pub const N_CHANNELS: u16 = 0x448;

impl Channel {
    /// The control word, with BUSY.
    pub(crate) fn control(&self) -> u32
        ensures { result ≡ control_of self.now }
    {
        self.ctrl % 0x80_0000 + if self.busy { 0x100_0000 } else { 0 }
    }
}

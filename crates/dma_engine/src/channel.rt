//! A channel, and the bits of its control word.

ghost use Rattle.std.specs.Prelude.{◌≡◌, ◌<◌};
ghost use Rattle.dma_engine.specs.Control.{is_enabled, is_high, size_of, increments_read, increments_write, ring_of, rings_write, chain_of, treq_of, irq_quiet, swaps};
ghost use Rattle.dma_engine.specs.Channel.{triggered, aborted, idle};

use rp_base::Size;

/// One channel (RP2040 Datasheet, 2.5.7, CH0_READ_ADDR to CH0_CTRL_TRIG).
#[derive(Clone, Copy, PartialEq, Eq)]
pub struct Channel {
    /// READ_ADDR: the address of the next read, with its low bits.
    pub read: u32,
    /// WRITE_ADDR: the address of the next write, with its low bits.
    pub write: u32,
    /// TRANS_COUNT as it reads: how many transfers are left to choose.
    pub count: u32,
    /// TRANS_COUNT as it was written: how many transfers a trigger begins.
    pub reload: u32,
    /// CTRL, bits 22:0.
    pub ctrl: u32,
    /// CTRL.BUSY: a sequence of transfers is in progress.
    pub busy: bool,
    /// The sequence was aborted: its end raises no interrupt and triggers no channel.
    pub aborted: bool,
    /// Credits of a pacing timer, at most 63.
    pub credits: u8,
}

impl Channel {
    /// A channel after a reset.
    pub(crate) const IDLE: Channel = Channel {
        read: 0,
        write: 0,
        count: 0,
        reload: 0,
        ctrl: 0,
        busy: false,
        aborted: false,
        credits: 0,
    };

    /// EN.
    pub(crate) fn is_enabled(&self) -> bool
        ensures { result ≡ is_enabled self.now }
    {
        self.ctrl & 1 == 1
    }

    /// HIGH_PRIORITY.
    pub(crate) fn is_high(&self) -> bool
        ensures { result ≡ is_high self.now }
    {
        (self.ctrl >> 1) & 1 == 1
    }

    /// DATA_SIZE.
    pub(crate) fn size(&self) -> Size
        ensures { result ≡ size_of self.now }
    {
        match (self.ctrl >> 2) % 4 {
            0 => Size::Byte,
            1 => Size::Half,
            _ => Size::Word,
        }
    }

    /// INCR_READ.
    pub(crate) fn increments_read(&self) -> bool
        ensures { result ≡ increments_read self.now }
    {
        (self.ctrl >> 4) & 1 == 1
    }

    /// INCR_WRITE.
    pub(crate) fn increments_write(&self) -> bool
        ensures { result ≡ increments_write self.now }
    {
        (self.ctrl >> 5) & 1 == 1
    }

    /// RING_SIZE, below 16.
    pub(crate) fn ring(&self) -> u32
        ensures value { result ≡ ring_of self.now }
        ensures bound { result < 16 }
    {
        (self.ctrl >> 6) % 16
    }

    /// RING_SEL: the ring is that of the write address.
    pub(crate) fn rings_write(&self) -> bool
        ensures { result ≡ rings_write self.now }
    {
        (self.ctrl >> 10) & 1 == 1
    }

    /// CHAIN_TO, below 16.
    pub(crate) fn chain(&self) -> u8
        ensures { result ≡ chain_of self.now }
    {
        ((self.ctrl >> 11) % 16) as u8
    }

    /// TREQ_SEL, below 64.
    pub(crate) fn treq(&self) -> u8
        ensures { result ≡ treq_of self.now }
    {
        ((self.ctrl >> 15) % 64) as u8
    }

    /// IRQ_QUIET.
    pub(crate) fn irq_quiet(&self) -> bool
        ensures { result ≡ irq_quiet self.now }
    {
        (self.ctrl >> 21) & 1 == 1
    }

    /// BSWAP.
    pub(crate) fn swaps(&self) -> bool
        ensures { result ≡ swaps self.now }
    {
        (self.ctrl >> 22) & 1 == 1
    }

    /// A trigger: an enabled channel that is idle begins a sequence.
    pub(crate) fn trigger(&mut self)
        ensures { self.new ≡ triggered self.old }
    {
        if self.is_enabled() && !self.busy {
            self.count = self.reload;
            self.busy = true;
        }
    }

    /// An abort: no transfer is left to choose.
    pub(crate) fn abort(&mut self)
        ensures { self.new ≡ aborted self.old }
    {
        self.count = 0;
        self.aborted = self.busy;
    }

    /// The end of a sequence.
    pub(crate) fn end(&mut self)
        ensures { self.new ≡ idle self.old }
    {
        self.busy = false;
        self.aborted = false;
    }
}

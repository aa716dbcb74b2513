//! An interrupt line.

ghost use Rattle.std.specs.Prelude.{◌≡◌};
ghost use Rattle.dma_engine.specs.Words.{status_of, is_raised};

/// What an interrupt line is made of (RP2040 Datasheet, 2.5.7, INTE0 and INTF0), by the bits of channels.
#[derive(Clone, Copy, PartialEq, Eq)]
pub struct InterruptLine {
    /// INTE: the interrupts that the line passes on.
    pub enable: u16,
    /// INTF: the interrupts that are forced.
    pub force: u16,
}

impl InterruptLine {
    /// A line after a reset.
    pub(crate) const LOW: InterruptLine = InterruptLine {
        enable: 0,
        force: 0,
    };

    /// INTS, where these interrupts are raised.
    #[inline(always)]
    pub(crate) fn status(&self, raised: u16) -> u16
        ensures { result ≡ status_of raised self.now }
    {
        raised & self.enable | self.force
    }

    /// Some bit of INTS is set.
    #[inline(always)]
    pub(crate) fn is_raised(&self, raised: u16) -> bool
        ensures { result ≡ is_raised raised self.now }
    {
        self.status(raised) != 0
    }
}

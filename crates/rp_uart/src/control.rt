//! The registers that say how a UART runs.

ghost use Rattle.std.specs.Prelude.{◌≡◌, ◌<◌, ◌≤◌, ◌+◌, ◌*◌, ◌^◌, ℕ};
ghost use Rattle.rp_uart.specs.Sender.{bit_time, is_over, elapsed_after};

/// UARTIBRD and UARTFBRD: a bit lasts 64 times the divisor, in quarters of a cycle (DDI 0183, 3.3.5 and 3.3.6).
#[derive(Clone, Copy, PartialEq, Eq)]
pub struct Divisor {
    /// The integer part; with 0 nothing runs.
    pub integer: u16,
    /// The fractional part in sixty-fourths, below 64.
    pub fraction: u8,
}

/// UARTCR (DDI 0183, 3.3.8).
#[derive(Clone, Copy, PartialEq, Eq)]
pub struct Control {
    /// UARTEN: frames begin.
    pub enabled: bool,
    /// LBE: the UART receives what it sends itself.
    pub loopback: bool,
    /// TXE: frames that are sent begin.
    pub transmit: bool,
    /// RXE: frames that are received begin.
    pub receive: bool,
}

/// UARTDMACR: which FIFO's pace the DMA engine is told (DDI 0183, 3.3.14).
#[derive(Clone, Copy, PartialEq, Eq)]
pub struct DmaControl {
    /// RXDMAE.
    pub receive: bool,
    /// TXDMAE.
    pub transmit: bool,
}

impl Divisor {
    /// How long a bit lasts, in quarters of a cycle.
    #[inline(always)]
    pub(crate) fn bit_time(&self) -> u32
        ensures value { result ≡ bit_time self.now }
        ensures bound { result < 2 ^ 23 }
    {
        64 * u32::from(self.integer) + u32::from(self.fraction)
    }

    /// In so many cycles, and in no more, a bit does not end of which so many quarters of a cycle have passed; 0 where it ends in
    /// the next one.
    #[inline(always)]
    pub(crate) fn left(&self, elapsed: u32) -> u32
        requires { 0 < self.now.integer }
        ensures lasts { 0 < result → elapsed + 4 * result < bit_time self.now }
        ensures most { (more : ℕ) → elapsed + 4 * more < bit_time self.now → more ≤ result }
    {
        let last = self.bit_time() - 1;
        if elapsed < last {
            (last - elapsed) / 4
        } else {
            0
        }
    }

    /// One more cycle of a bit of which so many quarters of a cycle have passed: whether the bit is over, and how much of it,
    /// or of the next one, has passed then.
    pub(crate) fn pass(&self, elapsed: u32) -> (bool, u32)
        requires { 0 < self.now.integer }
        ensures over { result.0 ≡ is_over elapsed self.now }
        ensures rest { result.1 ≡ elapsed_after elapsed self.now }
    {
        let before_last = self.bit_time() - 4;
        if elapsed < before_last {
            (false, elapsed + 4)
        } else {
            (true, elapsed - before_last)
        }
    }
}

//! The FIFOs' depth and trigger levels, and the interrupts.

ghost use Rattle.std.specs.Prelude.{◌≡◌, ◌≤◌};
ghost use Rattle.rp_uart.specs.State.{no_errors};
ghost use Rattle.rp_uart.specs.Interrupts.{depth_of, trigger_of, receive_trigger, transmit_trigger, error_bits, error_interrupts, with_raw, raised, raised_if, cleared, cleared_if, settled};

use crate::receiver::Errors;
use crate::uart::Uart;
use rp_base::bits::bit_number;

/// The interrupts by their bits of UARTRIS: bytes wait to be read, bytes may be sent, and bytes have waited for long.
pub(crate) const RECEIVE: u32 = 1 << 4;

pub(crate) const TRANSMIT: u32 = 1 << 5;

pub(crate) const TIMEOUT: u32 = 1 << 6;

impl Uart {
    /// How many bytes a FIFO holds now.
    pub(crate) fn depth(&self) -> usize
        ensures value { result ≡ depth_of self.now }
        ensures bound { result ≤ 32 }
    {
        if self.line.fifos { 32 } else { 1 }
    }

    /// At how many bytes that wait RX comes.
    pub(crate) fn receive_trigger(&self) -> usize
        ensures { result ≡ receive_trigger self.now }
    {
        if self.line.fifos {
            trigger(self.levels / 8)
        } else {
            1
        }
    }

    /// At how many bytes that are left TX comes.
    pub(crate) fn transmit_trigger(&self) -> usize
        ensures { result ≡ transmit_trigger self.now }
    {
        if self.line.fifos {
            trigger(self.levels % 8)
        } else {
            0
        }
    }

    /// Interrupts come.
    pub(crate) fn raise(&mut self, set: u32)
        ensures { self.new ≡ raised set self.old }
    {
        self.raw |= set;
    }

    /// Interrupts go.
    pub(crate) fn clear(&mut self, set: u32)
        ensures { self.new ≡ cleared set self.old }
    {
        self.raw &= !set;
    }

    /// The interrupts without those whose cause is gone.
    #[tactic(auto, unfolding(crate::specs::Interrupts::settled))]
    pub(crate) fn settled(&self) -> u32
        ensures { settled self.now ≡ with_raw result self.now }
    {
        let mut raw = self.raw;
        if self.received.len() < self.receive_trigger() {
            raw &= !RECEIVE;
        }
        if self.transmit_trigger() < self.to_send.len() {
            raw &= !TRANSMIT;
        }
        if self.received.is_empty() {
            raw &= !TIMEOUT;
        }
        raw
    }
}

impl Errors {
    /// No error.
    pub(crate) fn none() -> Errors
        ensures { result ≡ no_errors }
    {
        Errors {
            framing: false,
            parity: false,
            break_line: false,
            overrun: false,
        }
    }

    /// FE, PE, BE and OE in the lowest bits.
    pub(crate) fn bits(&self) -> u32
        ensures value { result ≡ error_bits self.now }
        ensures bound { result ≤ 15 }
    {
        bit_number(self.framing)
            + bit_number(self.parity) * 2
            + bit_number(self.break_line) * 4
            + bit_number(self.overrun) * 8
    }
}

/// The trigger level of a code.
fn trigger(code: u8) -> usize
    ensures { result ≡ trigger_of code }
{
    match code {
        0 => 4,
        1 => 8,
        2 => 16,
        3 => 24,
        _ => 28,
    }
}

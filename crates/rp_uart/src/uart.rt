//! A UART: its state, its cycle and its readers.

ghost use Rattle.std.specs.Prelude.{◌≡◌, not, Decides};
ghost use Rattle.rp_uart.specs.State.{at_reset};
ghost use Rattle.rp_uart.specs.Interrupts.{is_line_high};
ghost use Rattle.rp_uart.specs.Step.{is_running, output_of, heard_of, after_step, sent_byte, pacing_of};

use crate::control::{Control, Divisor, DmaControl};
use crate::frame::{LineControl, WordLength};
use crate::receiver::{Errors, Received, Receiver};
use crate::sender::Sender;
use arrayvec::ArrayVec;
use rp_base::Reset;
use std::marker::Model;

/// A UART between two cycles (RP2040 Datasheet, 4.2; PrimeCell UART PL011 Technical Reference Manual, DDI 0183).
#[derive(Drop)]
pub struct Uart {
    pub(crate) to_send: ArrayVec<u8, 32>,
    pub(crate) received: ArrayVec<Received, 32>,
    pub(crate) sender: Sender,
    pub(crate) receiver: Receiver,
    pub(crate) waited: Option<u32>,
    pub(crate) lost: bool,
    pub(crate) last: Errors,
    pub(crate) overrun: bool,
    pub(crate) divisor: Divisor,
    pub(crate) line: LineControl,
    pub(crate) control: Control,
    pub(crate) dma: DmaControl,
    pub(crate) levels: u8,
    pub(crate) mask: u32,
    pub(crate) raw: u32,
}

impl Model for Uart {
    ghost use Rattle.rp_uart.specs.State.{State};

    ghost Value = { State };

    ghost view = { λ u. record {
      to_send = u.to_send.items;
      received = u.received.items;
      sender = u.sender;
      receiver = u.receiver;
      waited = u.waited;
      lost = u.lost;
      last = u.last;
      overrun = u.overrun;
      divisor = u.divisor;
      line = u.line;
      control = u.control;
      dma = u.dma;
      levels = u.levels;
      mask = u.mask;
      raw = u.raw;
    } };
}

impl Uart {
    /// The reset state: disabled, with both FIFOs empty.
    pub fn new() -> Uart
        ensures { result ≡ at_reset }
    {
        Uart {
            to_send: ArrayVec::new(),
            received: ArrayVec::new(),
            sender: Sender::Idle,
            receiver: Receiver::Idle,
            waited: None,
            lost: false,
            last: Errors::none(),
            overrun: false,
            divisor: Divisor {
                integer: 0,
                fraction: 0,
            },
            line: LineControl {
                parity: false,
                even: false,
                two_stops: false,
                fifos: false,
                width: WordLength::Five,
            },
            control: Control {
                enabled: false,
                loopback: false,
                transmit: true,
                receive: true,
            },
            dma: DmaControl {
                receive: false,
                transmit: false,
            },
            levels: 0x12,
            mask: 0,
            raw: 0,
        }
    }

    /// Takes the state of another UART.
    pub fn copy_from(&mut self, other: &Uart)
        ensures { self.new ≡ other.now }
    {
        self.to_send.clear();
        let _ = self.to_send.try_extend_from_slice(other.to_send.as_slice());
        self.received.clear();
        let _ = self
            .received
            .try_extend_from_slice(other.received.as_slice());
        self.sender = other.sender;
        self.receiver = other.receiver;
        self.waited = other.waited;
        self.lost = other.lost;
        self.last = other.last;
        self.overrun = other.overrun;
        self.divisor = other.divisor;
        self.line = other.line;
        self.control = other.control;
        self.dma = other.dma;
        self.levels = other.levels;
        self.mask = other.mask;
        self.raw = other.raw;
    }

    /// Both are in the same state.
    pub fn is_same(&self, other: &Uart) -> bool
        ensures { Decides result (self.now ≡ other.now) }
    {
        let to_send = self.to_send.as_slice() == other.to_send.as_slice();
        let received = self.received.as_slice() == other.received.as_slice();
        let sender = self.sender == other.sender;
        let receiver = self.receiver == other.receiver;
        let waited = self.waited == other.waited;
        let last = self.last == other.last;
        let divisor = self.divisor == other.divisor;
        let line = self.line == other.line;
        let control = self.control == other.control;
        let dma = self.dma == other.dma;
        to_send
            & received
            & sender
            & receiver
            & waited
            & (self.lost == other.lost)
            & last
            & (self.overrun == other.overrun)
            & divisor
            & line
            & control
            & dma
            & (self.levels == other.levels)
            & (self.mask == other.mask)
            & (self.raw == other.raw)
    }

    /// One cycle, in which `line` is the level of RX; with LBE the UART hears its own TX in place of that. The byte whose frame
    /// ends in this cycle, None exactly where none does.
    #[tactic(auto, using(crate::proofs::Kept::kept))]
    pub fn step(&mut self, line: bool) -> Option<u8>
        ensures after { self.new ≡ after_step line self.old }
        ensures byte { result ≡ sent_byte self.old }
    {
        if self.is_stopped() {
            return None;
        }
        let heard = self.heard(line);
        let byte = self.send();
        self.receive(heard);
        byte
    }

    /// The level of TX.
    pub fn out(&self) -> bool
        ensures { result ≡ output_of self.now }
    {
        match self.sender {
            Sender::Idle => true,
            Sender::Frame(frame) => self.line.level_at(frame.byte, frame.bit),
        }
    }

    /// The free entries of the FIFO that is sent, and the words of the one that is received, each 0 where UARTDMACR does not
    /// ask for it.
    pub fn pacing(&self) -> [u8; 2]
        ensures { result ≡ pacing_of self.now }
    {
        let free = if self.dma.transmit {
            self.depth().saturating_sub(self.to_send.len()) as u8
        } else {
            0
        };
        let words = if self.dma.receive {
            self.received.len() as u8
        } else {
            0
        };
        [free, words]
    }

    /// The interrupt line: some bit of UARTMIS is set.
    pub fn line(&self) -> bool
        ensures { result ≡ is_line_high self.now }
    {
        self.raw & self.mask != 0
    }

    /// The UART has no divisor, so that it does not run.
    #[inline(always)]
    pub(crate) fn is_stopped(&self) -> bool
        ensures { result ≡ not (is_running self.now) }
    {
        self.divisor.integer == 0
    }

    /// The level that the receiver hears.
    pub(crate) fn heard(&self, line: bool) -> bool
        ensures { result ≡ heard_of line self.now }
    {
        if self.control.loopback {
            self.out()
        } else {
            line
        }
    }
}

impl Reset for Uart {
    ghost first = { at_reset };

    fn reset(&mut self) {
        *self = Uart::new();
    }
}

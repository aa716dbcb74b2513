//! Sending.

ghost use Rattle.std.specs.Prelude.{◌≡◌, ◌<◌, Some, None, if◌then◌else◌};
ghost use Rattle.rp_uart.specs.Sender.{next_frame, is_last_bit, after_bit, after_frame, after_sending, ended_byte, frame_byte};

use crate::interrupts::TRANSMIT;
use crate::uart::Uart;

/// A frame that is being sent.
#[derive(Clone, Copy, PartialEq, Eq)]
pub struct Sending {
    /// The byte, as it was written.
    pub byte: u8,
    /// The number of the bit in the frame, 0 for the start bit.
    pub bit: u8,
    /// How much of this bit's time has passed, in quarters of a cycle.
    pub elapsed: u32,
}

/// What the sender does.
#[derive(Clone, Copy, PartialEq, Eq)]
pub enum Sender {
    /// Nothing: the line is high.
    Idle,
    /// It sends a frame.
    Frame(Sending),
}

impl Uart {
    /// The sender's cycle, and the byte whose frame ends in it.
    #[tactic(auto, unfolding(crate::specs::Sender::after_sending))]
    pub(crate) fn send(&mut self) -> Option<u8>
        requires { 0 < self.old.divisor.integer }
        ensures after { self.new ≡ after_sending self.old }
        ensures byte { result ≡ ended_byte self.old.sender self.old }
    {
        match self.sender {
            Sender::Idle => {
                self.next_frame(0);
                None
            }
            Sender::Frame(frame) => self.send_frame(frame),
        }
    }

    /// The cycle of a frame.
    fn send_frame(&mut self, frame: Sending) -> Option<u8>
        requires { 0 < self.old.divisor.integer }
        ensures after { self.new ≡ after_frame frame self.old }
        ensures byte { result ≡ frame_byte frame self.old }
    {
        let (over, elapsed) = self.divisor.pass(frame.elapsed);
        if over {
            return self.end_bit(frame, elapsed);
        }
        self.sender = Sender::Frame(Sending {
            byte: frame.byte,
            bit: frame.bit,
            elapsed,
        });
        None
    }

    /// A bit of a frame is over: the next one follows, or the frame ends.
    fn end_bit(&mut self, frame: Sending, elapsed: u32) -> Option<u8>
        ensures after { self.new ≡ after_bit frame elapsed self.old }
        ensures byte { result ≡ (if is_last_bit frame self.old then Some frame.byte else None) }
    {
        if frame.bit < self.line.last_bit(frame.byte) {
            self.sender = Sender::Frame(Sending {
                byte: frame.byte,
                bit: frame.bit + 1,
                elapsed,
            });
            return None;
        }
        self.sender = Sender::Idle;
        self.next_frame(elapsed);
        Some(frame.byte)
    }

    /// A frame begins where a byte waits and sending is enabled; its start bit has lasted for so long.
    #[tactic(auto, unfolding(crate::specs::Sender::next_frame))]
    fn next_frame(&mut self, elapsed: u32)
        ensures { self.new ≡ next_frame elapsed self.old }
    {
        if !(self.control.enabled && self.control.transmit) {
            return;
        }
        if let Some(byte) = self.to_send.pop_at(0) {
            self.sender = Sender::Frame(Sending {
                byte,
                bit: 0,
                elapsed,
            });
            if self.to_send.len() == self.transmit_trigger() {
                self.raise(TRANSMIT);
            }
        }
    }
}

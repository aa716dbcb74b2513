//! Receiving.

ghost use Rattle.std.specs.Prelude.{◌≡◌, ◌<◌, length};
ghost use Rattle.rp_uart.specs.Receiver.{byte_heard, has_parity_error, errors_of, stored, dropped, after_byte, after_waiting, after_idle, after_lull, sampled, after_stop, after_sample, after_hearing, after_line, is_byte_due, is_stop, is_frame_due, after_receiving};

use crate::frame::{LineControl, WordLength};
use crate::interrupts::{RECEIVE, TIMEOUT};
use crate::uart::Uart;

/// The errors of a byte (DDI 0183, 3.3.1 and 3.3.2).
#[derive(Clone, Copy, Default, PartialEq, Eq)]
pub struct Errors {
    /// FE: the stop bit was low.
    pub framing: bool,
    /// PE: the parity bit was not that of the data.
    pub parity: bool,
    /// BE: the line was low for the whole frame.
    pub break_line: bool,
    /// OE: a byte was lost before this one.
    pub overrun: bool,
}

/// A byte that was received.
#[derive(Clone, Copy, Default, PartialEq, Eq)]
pub struct Received {
    /// The byte, of 5 to 8 bits.
    pub byte: u8,
    /// Its errors.
    pub errors: Errors,
}

/// A frame that is being received.
#[derive(Clone, Copy, PartialEq, Eq)]
pub struct Hearing {
    /// The levels so far: bit k is the one that was sampled in bit k of the frame.
    pub samples: u16,
    /// The number of the bit that is sampled next, 0 for the start bit.
    pub bit: u8,
    /// How much time has passed since the last sample, in quarters of a cycle; in the start bit half a bit more.
    pub elapsed: u32,
}

/// What the receiver does.
#[derive(Clone, Copy, PartialEq, Eq)]
pub enum Receiver {
    /// It waits for a low line.
    Idle,
    /// It receives a frame.
    Frame(Hearing),
    /// It waits for a high line after a framing error.
    Waiting,
}

impl Uart {
    /// The receiver's cycle at a level of the line, and that of the timeout.
    #[tactic(auto, unfolding(crate::specs::Receiver::after_receiving))]
    pub(crate) fn receive(&mut self, line: bool)
        requires { 0 < self.old.divisor.integer }
        ensures { self.new ≡ after_receiving line self.old }
    {
        if !self.hear(line) {
            self.wait();
        }
    }

    /// The receiver's cycle; whether a byte came.
    #[tactic(auto, unfolding(crate::specs::Receiver::after_line, crate::specs::Receiver::is_byte_due))]
    fn hear(&mut self, line: bool) -> bool
        requires { 0 < self.old.divisor.integer }
        ensures after { self.new ≡ after_line self.old.receiver line self.old }
        ensures byte { result ≡ is_byte_due self.old.receiver self.old }
    {
        match self.receiver {
            Receiver::Idle => {
                self.hear_idle(line);
                false
            }
            Receiver::Waiting => {
                if line {
                    self.receiver = Receiver::Idle;
                }
                false
            }
            Receiver::Frame(frame) => self.hear_frame(line, frame),
        }
    }

    /// A frame begins at a low line, where receiving is enabled.
    fn hear_idle(&mut self, line: bool)
        ensures { self.new ≡ after_idle line self.old }
    {
        if !line && self.control.enabled && self.control.receive {
            self.receiver = Receiver::Frame(Hearing {
                samples: 0,
                bit: 0,
                elapsed: self.divisor.bit_time() / 2,
            });
        }
    }

    /// The cycle of a frame; whether a byte came.
    fn hear_frame(&mut self, line: bool, frame: Hearing) -> bool
        requires { 0 < self.old.divisor.integer }
        ensures after { self.new ≡ after_hearing line frame self.old }
        ensures byte { result ≡ is_frame_due frame self.old }
    {
        let (over, elapsed) = self.divisor.pass(frame.elapsed);
        if over {
            return self.sample(line, frame, elapsed);
        }
        self.receiver = Receiver::Frame(Hearing {
            samples: frame.samples,
            bit: frame.bit,
            elapsed,
        });
        false
    }

    /// The line is sampled; whether this was the stop bit.
    fn sample(&mut self, line: bool, frame: Hearing, elapsed: u32) -> bool
        ensures after { self.new ≡ after_sample line frame elapsed self.old }
        ensures byte { result ≡ is_stop frame self.old }
    {
        if self.line.stop_at() <= frame.bit {
            self.end_frame(line, frame);
            return true;
        }
        self.receiver = if line && frame.bit == 0 {
            Receiver::Idle
        } else {
            Receiver::Frame(frame.with_sample(line, elapsed))
        };
        false
    }

    /// The stop bit was sampled.
    fn end_frame(&mut self, stop: bool, frame: Hearing)
        ensures { self.new ≡ after_stop stop frame self.old }
    {
        self.receiver = if stop {
            Receiver::Idle
        } else {
            Receiver::Waiting
        };
        let byte = self.line.byte_heard(frame.samples);
        let errors = self.line.errors_of(frame.samples, stop);
        self.end_byte(byte, errors);
    }

    /// A byte came.
    #[tactic(auto, unfolding(crate::specs::Receiver::after_byte))]
    fn end_byte(&mut self, byte: u8, errors: Errors)
        ensures { self.new ≡ after_byte byte errors self.old }
    {
        if self.received.len() < self.depth() {
            self.store(byte, errors);
        } else {
            self.drop_byte(errors);
        }
        self.waited = Some(0);
    }

    /// There is room for the byte.
    fn store(&mut self, byte: u8, errors: Errors)
        requires { length self.old.received < 32 }
        ensures { self.new ≡ stored byte errors self.old }
    {
        let seen = Errors {
            framing: errors.framing,
            parity: errors.parity,
            break_line: errors.break_line,
            overrun: self.lost,
        };
        self.received.push(Received { byte, errors: seen });
        self.lost = false;
        self.raise(errors.bits() << 7);
        if self.received.len() == self.receive_trigger() {
            self.raise(RECEIVE);
        }
    }

    /// There is no room for the byte.
    fn drop_byte(&mut self, errors: Errors)
        ensures { self.new ≡ dropped errors self.old }
    {
        self.lost = true;
        self.overrun = true;
        let seen = Errors {
            framing: errors.framing,
            parity: errors.parity,
            break_line: errors.break_line,
            overrun: true,
        };
        self.raise(seen.bits() << 7);
    }

    /// The timeout's cycle.
    #[tactic(auto, unfolding(crate::specs::Receiver::after_waiting))]
    fn wait(&mut self)
        ensures { self.new ≡ after_waiting self.old }
    {
        if let Some(elapsed) = self.waited {
            if elapsed < (32 * self.divisor.bit_time()).saturating_sub(4) {
                self.waited = Some(elapsed + 4);
            } else {
                self.waited = None;
                self.raise(TIMEOUT);
            }
        }
    }
}

impl Hearing {
    /// The frame with one more sample.
    fn with_sample(&self, line: bool, elapsed: u32) -> Hearing
        requires { self.now.bit < 16 }
        ensures { result ≡ sampled line self.now elapsed }
    {
        let samples = if line {
            self.samples | (1 << self.bit)
        } else {
            self.samples
        };
        Hearing {
            samples,
            bit: self.bit + 1,
            elapsed,
        }
    }
}

impl LineControl {
    /// The data bits of the samples of a frame.
    fn byte_heard(&self, samples: u16) -> u8
        ensures { result ≡ byte_heard self.now samples }
    {
        let mask = match self.width {
            WordLength::Five => 0x1f,
            WordLength::Six => 0x3f,
            WordLength::Seven => 0x7f,
            WordLength::Eight => 0xff,
        };
        ((samples >> 1) & mask) as u8
    }

    /// The errors of a frame by its samples and its stop bit.
    fn errors_of(&self, samples: u16, stop: bool) -> Errors
        ensures { result ≡ errors_of self.now samples stop }
    {
        Errors {
            framing: !stop,
            parity: self.has_parity_error(samples),
            break_line: !stop && samples == 0,
            overrun: false,
        }
    }

    /// The parity bit is not that of the data.
    fn has_parity_error(&self, samples: u16) -> bool
        ensures { result ≡ has_parity_error self.now samples }
    {
        if !self.parity {
            return false;
        }
        let heard = (samples >> (self.width() + 1)) & 1 == 1;
        heard != self.parity_bit(self.byte_heard(samples))
    }
}

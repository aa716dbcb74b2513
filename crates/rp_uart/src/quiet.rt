//! For how long a UART is quiet, and many cycles at once.

ghost use Rattle.std.specs.Prelude.{◌≡◌, ◌<◌, ◌+◌, ◌*◌, true};
ghost use Rattle.rp_uart.specs.Quiet.{after_cycles, IsQuiet, passed, has_frame, SendsOn, HearsOn, WaitsOn, GoesOn};
ghost use Rattle.rp_uart.specs.Receiver.{can_receive};
ghost use Rattle.rp_uart.specs.Sender.{bit_time};
ghost use Rattle.rp_uart.specs.Step.{is_running, heard_of};

use crate::control::Divisor;
use crate::receiver::Receiver;
use crate::sender::Sender;
use crate::uart::Uart;

impl Uart {
    /// In so many cycles, as long as RX stays at this level, no frame ends, and TX, the interrupt line, what the DMA engine is told
    /// and what each word reads as stay: up to the next end of a bit or the timeout, and `u64::MAX` where nothing is sent or received.
    #[tactic(auto, using(crate::proofs::Passing::stopped))]
    pub fn quiet(&self, line: bool) -> u64
        ensures { IsQuiet line self.now result }
    {
        if self.is_stopped() {
            return u64::MAX;
        }
        self.cycles_left(line)
    }

    /// So many cycles at once, in which RX stays at this level.
    #[tactic(auto, using(crate::proofs::Passing::along))]
    pub fn pass(&mut self, line: bool, n: u64)
        ensures { self.new ≡ after_cycles line n self.old }
    {
        if self.is_stopped() {
            return;
        }
        if 0 < n && n <= self.cycles_left(line) {
            self.lengthen_all(line, n);
        } else {
            self.step_each(line, n);
        }
    }

    /// So many cycles one by one.
    fn step_each(&mut self, line: bool, n: u64)
        ensures { self.new ≡ after_cycles line n self.old }
    {
        for _k in 0..n {
            self.step(line);
        }
    }

    /// For how many cycles no bit and no wait ends.
    fn cycles_left(&self, line: bool) -> u64
        requires { is_running self.now ≡ true }
        ensures { 0 < result → GoesOn line self.now result }
    {
        let sends = self.send_left();
        let hears = self.hear_left(line);
        let waits = self.wait_left();
        sends.min(hears).min(waits)
    }

    /// For how many cycles no bit of a frame that is sent ends, and none begins.
    fn send_left(&self) -> u64
        requires { 0 < self.now.divisor.integer }
        ensures { 0 < result → SendsOn result self.now.sender (has_frame self.now) self.now.divisor }
    {
        match self.sender {
            Sender::Frame(frame) => u64::from(self.divisor.left(frame.elapsed)),
            Sender::Idle => {
                if self.control.enabled && self.control.transmit && !self.to_send.is_empty() {
                    0
                } else {
                    u64::MAX
                }
            }
        }
    }

    /// For how many cycles no bit of a frame that is received ends, and none begins.
    fn hear_left(&self, line: bool) -> u64
        requires { 0 < self.now.divisor.integer }
        ensures { 0 < result → HearsOn result self.now.receiver (heard_of line self.now) (can_receive self.now) self.now.divisor }
    {
        let level = self.heard(line);
        let ends = match self.receiver {
            Receiver::Frame(frame) => return u64::from(self.divisor.left(frame.elapsed)),
            Receiver::Idle => !level && self.control.enabled && self.control.receive,
            Receiver::Waiting => level,
        };
        if ends { 0 } else { u64::MAX }
    }

    /// For how many cycles no timeout is told.
    fn wait_left(&self) -> u64
        requires { 0 < self.now.divisor.integer }
        ensures { 0 < result → WaitsOn result self.now.waited self.now.divisor }
    {
        match self.waited {
            Some(elapsed) => {
                u64::from((32 * self.divisor.bit_time() - 1).saturating_sub(elapsed) / 4)
            }
            None => u64::MAX,
        }
    }

    /// More of each bit, and of the time without a byte, has passed.
    fn lengthen_all(&mut self, _line: bool, n: u64)
        requires some { 0 < n }
        requires lasts { GoesOn _line self.old n }
        ensures { self.new ≡ passed n self.old }
    {
        if let Sender::Frame(frame) = &mut self.sender {
            frame.elapsed = self.divisor.longer(frame.elapsed, n);
        }
        if let Receiver::Frame(frame) = &mut self.receiver {
            frame.elapsed = self.divisor.longer(frame.elapsed, n);
        }
        if let Some(elapsed) = &mut self.waited {
            *elapsed = self.divisor.longer(*elapsed, n);
        }
    }
}

impl Divisor {
    /// What has passed, in quarters of a cycle, after so many cycles more.
    fn longer(&self, elapsed: u32, n: u64) -> u32
        requires { elapsed + 4 * n < 32 * bit_time self.now }
        ensures { result ≡ elapsed + 4 * n }
    {
        let _ = self.bit_time();
        elapsed + 4 * n as u32
    }
}

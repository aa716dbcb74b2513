//! The frame of a byte on the line.

ghost use Rattle.std.specs.Prelude.{◌≡◌, ◌+◌, ◌<◌, ◌≤◌};
ghost use Rattle.rp_uart.specs.Frame.{width_of, parity_bit, level_at, frame_length, stop_at, ones_of, low_bits};

use rp_base::bits::has_bit;

/// How many data bits a frame has (WLEN).
#[derive(Clone, Copy, PartialEq, Eq)]
pub enum WordLength {
    /// 5 bits.
    Five,
    /// 6 bits.
    Six,
    /// 7 bits.
    Seven,
    /// 8 bits.
    Eight,
}

/// UARTLCR_H (DDI 0183, 3.3.7).
#[derive(Clone, Copy, PartialEq, Eq)]
pub struct LineControl {
    /// PEN: a frame has a parity bit.
    pub parity: bool,
    /// EPS: the data bits and the parity bit together have an even number of ones, else an odd one.
    pub even: bool,
    /// STP2: a frame that is sent has two stop bits.
    pub two_stops: bool,
    /// FEN: each FIFO holds 32 bytes, else 1.
    pub fifos: bool,
    /// WLEN: how many data bits a frame has.
    pub width: WordLength,
}

impl LineControl {
    /// How many data bits there are.
    pub(crate) fn width(&self) -> u8
        ensures value { result ≡ width_of self.now.width }
        ensures bound { result ≤ 8 }
    {
        match self.width {
            WordLength::Five => 5,
            WordLength::Six => 6,
            WordLength::Seven => 7,
            WordLength::Eight => 8,
        }
    }

    /// The number of the first stop bit in the frame.
    pub(crate) fn stop_at(&self) -> u8
        ensures value { result ≡ stop_at self.now }
        ensures bound { result ≤ 10 }
    {
        self.width() + 1 + u8::from(self.parity)
    }

    /// The parity bit of a byte.
    #[tactic(auto, unfolding(crate::specs::Frame::parity_bit))]
    pub(crate) fn parity_bit(&self, byte: u8) -> bool
        ensures { result ≡ parity_bit self.now byte }
    {
        let odd = ones(byte, self.width()) % 2 == 1;
        if self.even { odd } else { !odd }
    }

    /// The number of the last bit of the frame of a byte.
    #[tactic(auto, using(crate::proofs::Frames::lengths))]
    pub(crate) fn last_bit(&self, byte: u8) -> u8
        ensures { result + 1 ≡ frame_length self.now byte }
    {
        self.stop_at() + u8::from(self.two_stops)
    }

    /// The level of the line in a bit of the frame of a byte; high after the frame.
    #[tactic(auto, using(crate::proofs::Frames::levels))]
    pub(crate) fn level_at(&self, byte: u8, bit: u8) -> bool
        ensures { result ≡ level_at self.now byte bit }
    {
        let width = self.width();
        if bit == 0 {
            false
        } else if bit <= width {
            has_bit(u32::from(byte), u32::from(bit - 1))
        } else if bit == width + 1 && self.parity {
            self.parity_bit(byte)
        } else {
            true
        }
    }
}

/// How many of the lowest bits of a byte are ones.
#[tactic(auto, using(crate::proofs::Frames::ones_laws))]
fn ones(byte: u8, width: u8) -> u8
    requires { width ≤ 8 }
    ensures { result ≡ ones_of (low_bits byte width) }
{
    let mut count = 0;
    for bit in 0..width {
        if has_bit(u32::from(byte), u32::from(bit)) {
            count += 1;
        }
    }
    count
}

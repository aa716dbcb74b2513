//! The fields of a machine's registers.

ghost use Rattle.std.specs.Prelude.{◌≡◌, ◌≤◌, ◌<◌};
ghost use Rattle.pio_machine.specs.Fields.{divider, side_enable, side_pindir, jmp_pin, wrap_top, wrap_bottom, status_of_rx, status_level, join_rx, join_tx, threshold, pull_threshold, push_threshold, out_right, in_right, autopull, autopush, side_count, set_count, out_count, in_base, side_base, set_base, out_base, depth, tx_depth, rx_depth, is_tx_full, is_rx_full};

use crate::machine::Machine1;
use rp_base::bits::has_bit;

/// A threshold, of which 0 stands for 32.
fn threshold(field: u8) -> u8
    ensures { result ≡ threshold field }
{
    if field == 0 { 32 } else { field }
}

/// How many words a FIFO holds that has taken the other's room, or has lent its own.
fn depth(joined: bool, lent: bool) -> u8
    ensures value { result ≡ depth joined lent }
    ensures room { result ≤ 8 }
{
    if lent {
        0
    } else if joined {
        8
    } else {
        4
    }
}

impl Machine1 {
    /// The 256ths of a cycle between two ticks.
    pub(crate) fn divider(&self) -> u32
        ensures value { result ≡ divider self.now }
        ensures low { 256 ≤ result }
        ensures high { result ≤ 0x100_0000 }
    {
        let period = self.clkdiv >> 8;
        if period < 256 { 0x100_0000 } else { period }
    }

    pub(crate) fn side_enable(&self) -> bool
        ensures { result ≡ side_enable self.now }
    {
        has_bit(self.execctrl, 30)
    }

    pub(crate) fn side_pindir(&self) -> bool
        ensures { result ≡ side_pindir self.now }
    {
        has_bit(self.execctrl, 29)
    }

    pub(crate) fn jmp_pin(&self) -> u32
        ensures value { result ≡ jmp_pin self.now }
        ensures low { result < 32 }
    {
        (self.execctrl >> 24) & 0x1f
    }

    pub(crate) fn wrap_top(&self) -> u8
        ensures { result ≡ wrap_top self.now }
    {
        ((self.execctrl >> 12) & 0x1f) as u8
    }

    pub(crate) fn wrap_bottom(&self) -> u8
        ensures { result ≡ wrap_bottom self.now }
    {
        ((self.execctrl >> 7) & 0x1f) as u8
    }

    pub(crate) fn status_of_rx(&self) -> bool
        ensures { result ≡ status_of_rx self.now }
    {
        has_bit(self.execctrl, 4)
    }

    pub(crate) fn status_level(&self) -> u8
        ensures { result ≡ status_level self.now }
    {
        (self.execctrl & 0xf) as u8
    }

    fn join_rx(&self) -> bool
        ensures { result ≡ join_rx self.now }
    {
        has_bit(self.shiftctrl, 31)
    }

    fn join_tx(&self) -> bool
        ensures { result ≡ join_tx self.now }
    {
        has_bit(self.shiftctrl, 30)
    }

    pub(crate) fn pull_threshold(&self) -> u8
        ensures { result ≡ pull_threshold self.now }
    {
        threshold(((self.shiftctrl >> 25) & 0x1f) as u8)
    }

    pub(crate) fn push_threshold(&self) -> u8
        ensures { result ≡ push_threshold self.now }
    {
        threshold(((self.shiftctrl >> 20) & 0x1f) as u8)
    }

    pub(crate) fn out_right(&self) -> bool
        ensures { result ≡ out_right self.now }
    {
        has_bit(self.shiftctrl, 19)
    }

    pub(crate) fn in_right(&self) -> bool
        ensures { result ≡ in_right self.now }
    {
        has_bit(self.shiftctrl, 18)
    }

    pub(crate) fn autopull(&self) -> bool
        ensures { result ≡ autopull self.now }
    {
        has_bit(self.shiftctrl, 17)
    }

    pub(crate) fn autopush(&self) -> bool
        ensures { result ≡ autopush self.now }
    {
        has_bit(self.shiftctrl, 16)
    }

    pub(crate) fn side_count(&self) -> u8
        ensures value { result ≡ side_count self.now }
        ensures small { result ≤ 5 }
    {
        (((self.pinctrl >> 29) & 7) as u8).min(5)
    }

    pub(crate) fn set_count(&self) -> u8
        ensures value { result ≡ set_count self.now }
        ensures small { result ≤ 5 }
    {
        (((self.pinctrl >> 26) & 7) as u8).min(5)
    }

    pub(crate) fn out_count(&self) -> u8
        ensures value { result ≡ out_count self.now }
        ensures small { result ≤ 32 }
    {
        (((self.pinctrl >> 20) & 0x3f) as u8).min(32)
    }

    pub(crate) fn in_base(&self) -> u32
        ensures { result ≡ in_base self.now }
    {
        (self.pinctrl >> 15) & 0x1f
    }

    pub(crate) fn side_base(&self) -> u32
        ensures { result ≡ side_base self.now }
    {
        (self.pinctrl >> 10) & 0x1f
    }

    pub(crate) fn set_base(&self) -> u32
        ensures { result ≡ set_base self.now }
    {
        (self.pinctrl >> 5) & 0x1f
    }

    pub(crate) fn out_base(&self) -> u32
        ensures { result ≡ out_base self.now }
    {
        self.pinctrl & 0x1f
    }

    /// How many words the TX FIFO holds: 4, 8 where it took the room of the RX FIFO, or 0.
    pub fn tx_depth(&self) -> u8
        ensures value { result ≡ tx_depth self.now }
        ensures room { result ≤ 8 }
    {
        depth(self.join_tx(), self.join_rx())
    }

    /// How many words the RX FIFO holds: 4, 8 where it took the room of the TX FIFO, or 0.
    pub fn rx_depth(&self) -> u8
        ensures value { result ≡ rx_depth self.now }
        ensures room { result ≤ 8 }
    {
        depth(self.join_rx(), self.join_tx())
    }

    /// The TX FIFO has no free word.
    pub fn is_tx_full(&self) -> bool
        ensures { result ≡ is_tx_full self.now }
    {
        self.tx_depth() <= self.tx.level()
    }

    /// The RX FIFO has no free word.
    pub fn is_rx_full(&self) -> bool
        ensures { result ≡ is_rx_full self.now }
    {
        self.rx_depth() <= self.rx.level()
    }
}

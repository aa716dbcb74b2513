//! The words that tell of all machines, a bit or a level of each.

ghost use Rattle.std.specs.Prelude.{◌≡◌, ◌≤◌, ◌+◌, ◌*◌};
ghost use Rattle.rp_base.specs.Word.{bit_number};
ghost use Rattle.pio_block.specs.Control.{ctrl_of};
ghost use Rattle.pio_block.specs.Queues.{bits_of, is_tx_empty, is_rx_empty, fstat_of, flevel_of, levels_of};
ghost use Rattle.pio_block.specs.Words.{has_room, has_words};
ghost use Rattle.pio_machine.specs.Fields.{is_tx_full, is_rx_full};

use crate::machines::Machines;
use pio_machine::Machine1;
use rp_base::bits::bit_number;

fn is_tx_empty(machine: &Machine1) -> bool
    ensures { result ≡ is_tx_empty machine.now }
{
    machine.tx.level() == 0
}

fn is_rx_empty(machine: &Machine1) -> bool
    ensures { result ≡ is_rx_empty machine.now }
{
    machine.rx.level() == 0
}

/// The levels of both FIFOs.
fn levels(machine: &Machine1) -> u32
    ensures value { result ≡ levels_of machine.now }
    ensures small { result ≤ 0x88 }
{
    u32::from(machine.tx.level()) + u32::from(machine.rx.level()) * 16
}

/// A bit of each machine, machine 0 in bit 0.
fn four(first: bool, second: bool, third: bool, fourth: bool) -> u32
    ensures value { result ≡ bit_number first + bit_number second * 2 + bit_number third * 4
        + bit_number fourth * 8 }
    ensures small { result ≤ 15 }
{
    bit_number(first) + bit_number(second) * 2 + bit_number(third) * 4 + bit_number(fourth) * 8
}

impl Machines {
    /// CTRL.
    #[tactic(auto, unfolding(crate::specs::Control::ctrl_of))]
    pub(crate) fn ctrl(&self) -> u32
        ensures { result ≡ ctrl_of self.now }
    {
        four(
            self.at(0).enabled,
            self.at(1).enabled,
            self.at(2).enabled,
            self.at(3).enabled,
        )
    }

    fn tx_empty(&self) -> u32
        ensures value { result ≡ bits_of is_tx_empty self.now }
        ensures small { result ≤ 15 }
    {
        four(
            is_tx_empty(self.at(0)),
            is_tx_empty(self.at(1)),
            is_tx_empty(self.at(2)),
            is_tx_empty(self.at(3)),
        )
    }

    fn tx_full(&self) -> u32
        ensures value { result ≡ bits_of is_tx_full self.now }
        ensures small { result ≤ 15 }
    {
        four(
            self.at(0).is_tx_full(),
            self.at(1).is_tx_full(),
            self.at(2).is_tx_full(),
            self.at(3).is_tx_full(),
        )
    }

    fn rx_empty(&self) -> u32
        ensures value { result ≡ bits_of is_rx_empty self.now }
        ensures small { result ≤ 15 }
    {
        four(
            is_rx_empty(self.at(0)),
            is_rx_empty(self.at(1)),
            is_rx_empty(self.at(2)),
            is_rx_empty(self.at(3)),
        )
    }

    fn rx_full(&self) -> u32
        ensures value { result ≡ bits_of is_rx_full self.now }
        ensures small { result ≤ 15 }
    {
        four(
            self.at(0).is_rx_full(),
            self.at(1).is_rx_full(),
            self.at(2).is_rx_full(),
            self.at(3).is_rx_full(),
        )
    }

    /// The machines whose TX FIFO has stalled them.
    pub(crate) fn tx_stalls(&self) -> u32
        ensures value { result ≡ bits_of (λ m. m.tx_stall) self.now }
        ensures small { result ≤ 15 }
    {
        four(
            self.at(0).tx_stall,
            self.at(1).tx_stall,
            self.at(2).tx_stall,
            self.at(3).tx_stall,
        )
    }

    /// The machines whose RX FIFO has stalled them.
    pub(crate) fn rx_stalls(&self) -> u32
        ensures value { result ≡ bits_of (λ m. m.rx_stall) self.now }
        ensures small { result ≤ 15 }
    {
        four(
            self.at(0).rx_stall,
            self.at(1).rx_stall,
            self.at(2).rx_stall,
            self.at(3).rx_stall,
        )
    }

    /// The machines whose TX FIFO has a free word.
    pub(crate) fn with_room(&self) -> u32
        ensures value { result ≡ bits_of has_room self.now }
        ensures small { result ≤ 15 }
    {
        four(
            !self.at(0).is_tx_full(),
            !self.at(1).is_tx_full(),
            !self.at(2).is_tx_full(),
            !self.at(3).is_tx_full(),
        )
    }

    /// The machines whose RX FIFO has a word.
    pub(crate) fn with_words(&self) -> u32
        ensures value { result ≡ bits_of has_words self.now }
        ensures small { result ≤ 15 }
    {
        four(
            !is_rx_empty(self.at(0)),
            !is_rx_empty(self.at(1)),
            !is_rx_empty(self.at(2)),
            !is_rx_empty(self.at(3)),
        )
    }

    /// FSTAT.
    #[tactic(auto, unfolding(crate::specs::Queues::fstat_of))]
    pub(crate) fn fstat(&self) -> u32
        ensures { result ≡ fstat_of self.now }
    {
        self.tx_empty() * 0x100_0000
            + self.tx_full() * 0x1_0000
            + self.rx_empty() * 0x100
            + self.rx_full()
    }

    /// FLEVEL.
    #[tactic(auto, unfolding(crate::specs::Queues::flevel_of))]
    pub(crate) fn flevel(&self) -> u32
        ensures { result ≡ flevel_of self.now }
    {
        levels(self.at(0))
            + levels(self.at(1)) * 0x100
            + levels(self.at(2)) * 0x1_0000
            + levels(self.at(3)) * 0x100_0000
    }
}

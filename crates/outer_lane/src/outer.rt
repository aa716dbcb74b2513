//! The peripherals: their state, how it starts, and its readers.

use crate::behind::Behind;
use crate::drivers::Drivers;
use arrayvec::ArrayVec;
use io_bank::IoBank;
use lane_look::Device;
use pin_script::Cursor;
use rp_base::bits::{bit_number, has_bit};
use rp_base::resets::{IO_BANK0, PADS_BANK0};
use std::marker::Model;

/// The timer, both UARTs, the pads and the words of the device, between two cycles (RP2040 Datasheet, 2.19, 4.2 and 4.6).
///
/// The timer and the UARTs stand beside their bits of RESETS, as `reset` sets them, and lie behind. A block that is held does not
/// step, reads 0 and ignores accesses.
#[derive(Drop)]
pub struct Outer {
    // the timer and the UARTs
    pub(crate) blocks: Behind,
    /// The pads, IO_BANK0 and PADS_BANK0.
    pub pads: IoBank,
    /// The interrupt lines of the device, as it drove them in the last cycle.
    pub irq: u32,
    pub(crate) device: ArrayVec<u32, 128>,
    pub(crate) sio: [u32; 2],
    // where what the script drives is looked for first
    pub(crate) cursor: Cursor,
    // a step by these leaves the pads as they are, which interrupt neither core; among these is what the UARTs put out
    pub(crate) stays: bool,
    pub(crate) drivers: Drivers,
}

impl Model for Outer {
    ghost use Rattle.std.specs.Prelude.{◌≡◌, true};
    ghost use Rattle.io_bank.specs.Levels.{receive_level};
    ghost use Rattle.outer_lane.specs.State.{State};
    ghost use Rattle.outer_lane.specs.Rest.{Stays};

    ghost Value = { State };

    ghost view = { λ o. record {
      timer = o.blocks.blocks.timer;
      uart0 = o.blocks.blocks.uart0;
      uart1 = o.blocks.blocks.uart1;
      pads = o.pads;
      irq = o.irq;
      device = o.device.items;
      sio = o.sio;
    } };

    // the UARTs are told the levels of their lines
    ghost invariant = { λ o. (o.blocks.line0 ≡ receive_level 0 o.pads) × ((o.blocks.line1 ≡ receive_level 1 o.pads)
        × (o.stays ≡ true → Stays o.sio o.drivers o.pads o.blocks.blocks)) };
}

impl Outer {
    ghost use Rattle.std.specs.Prelude.{◌≡◌, Decides};
    ghost use Rattle.io_bank.specs.Levels.{inputs_of};
    ghost use Rattle.outer_lane.specs.State.{outer_at_start, first_words, outer_reset};
    ghost use Rattle.outer_lane.specs.Lines.{bank_line, outer_lines, outer_inputs, outer_pacing};

    /// The state before the first cycle: each block is at reset and none is held, and the device has started.
    pub fn new<X: Device>(device: &X) -> Outer
        ensures { result ≡ outer_at_start (first_words (X.meaning device.now)) }
    {
        let pads = IoBank::new();
        let mut blocks = Behind::new();
        blocks.tell(pads.receive_level(0), pads.receive_level(1));
        Outer {
            blocks,
            pads,
            irq: 0,
            device: started(device),
            sio: [0, 0],
            cursor: Cursor::new(),
            stays: false,
            drivers: Drivers::NONE,
        }
    }

    /// Takes the bits of RESETS: a block whose bit is set gets its reset state, and is held in it until the bit is clear.
    #[tactic(auto, unfolding(crate::specs::State::outer_reset))]
    pub fn reset(&mut self, bits: u32)
        ensures { self.new ≡ outer_reset bits self.old }
    {
        self.stays = false;
        self.blocks.reset(bits);
        self.pads
            .set_held(has_bit(bits, IO_BANK0), has_bit(bits, PADS_BANK0));
        self.blocks
            .tell(self.pads.receive_level(0), self.pads.receive_level(1));
    }

    /// Takes the levels and the enables that SIO puts out.
    #[inline]
    pub fn set_sio(&mut self, outs: [u32; 2])
        ensures { self.new ≡ record self.old { sio = outs } }
    {
        if self.sio != outs {
            self.stays = false;
            self.sio = outs;
        }
    }

    /// The interrupt lines of core 0 or 1 that come from here, line 0 in bit 0.
    #[inline(always)]
    #[tactic(auto, using(crate::proofs::WithBank::with_bank), unfolding(crate::specs::Lines::outer_lines))]
    pub fn lines(&self, core: u8) -> u32
        ensures { result ≡ outer_lines core self.now }
    {
        let bank = bit_number(self.bank_line(core)) * 0x2000;
        self.irq | self.blocks.lines() | bank
    }

    /// The line of IO_BANK0 to a core.
    #[inline(always)]
    fn bank_line(&self, core: u8) -> bool
        ensures { result ≡ bank_line core self.now.pads }
    {
        if self.stays {
            return false;
        }
        let [bank0, bank1] = self.pads.lines();
        if core == 0 { bank0 } else { bank1 }
    }

    /// The levels of the pads, pad 0 in bit 0.
    pub fn pads(&self) -> u32
        ensures { result ≡ self.now.pads.current }
    {
        self.pads.pads()
    }

    /// The input words, pin 0 in bit 0: of the levels of the pads now, and of the second levels, which SIO reads. Both stand
    /// under IE and INOVER (RP2040 Datasheet, 2.19).
    pub fn inputs(&self) -> [u32; 2]
        ensures { result ≡ outer_inputs self.now }
    {
        self.pads.inputs()
    }

    /// The counts that pace DMA channels: the free entries of the transmit FIFO and the words of the receive FIFO of UART0,
    /// and the same of UART1, each 0 where UARTDMACR does not ask for it (RP2040 Datasheet, 4.2.3).
    pub fn pacing(&self) -> [u8; 4]
        ensures { result ≡ outer_pacing self.now }
    {
        self.blocks.pacing()
    }

    /// The inputs that SIO reads, by pin: the second levels of the pads.
    pub fn input(&self) -> u32
        ensures { result ≡ inputs_of self.now.pads self.now.pads.second }
    {
        let [_, second] = self.pads.inputs();
        second
    }

    /// Both are in the same state.
    pub fn is_same(&self, other: &Outer) -> bool
        ensures { Decides result (self.now ≡ other.now) }
    {
        let blocks = self.blocks.is_same(&other.blocks);
        let pads = self.pads.is_same(&other.pads);
        let device = self.device.as_slice() == other.device.as_slice();
        let sio = self.sio == other.sio;
        blocks & pads & (self.irq == other.irq) & device & sio
    }

    /// Takes the state of another one.
    pub fn copy_from(&mut self, other: &Outer)
        ensures { self.new ≡ other.now }
    {
        self.take(other);
    }

    /// The same, for the lane.
    pub(crate) fn take(&mut self, other: &Outer)
        ensures { self.new ≡ other.now }
    {
        self.blocks.copy_from(&other.blocks);
        self.pads = other.pads;
        self.irq = other.irq;
        self.device.clear();
        let _ = self.device.try_extend_from_slice(other.device.as_slice());
        self.sio = other.sio;
        self.cursor = other.cursor;
        self.stays = other.stays;
        self.drivers = other.drivers;
    }
}

ghost use Rattle.std.specs.Prelude.{◌≡◌, ◌<◌, ◌≤◌, ◌^◌, replicate};
ghost use Rattle.outer_lane.specs.State.{first_words};

/// Words that are 0.
#[tactic(auto, using(std::proofs::lemmas::Grind::common_steps))]
fn zeros(count: usize) -> ArrayVec<u32, 128>
    requires { count ≤ 128 }
    ensures { result.items ≡ replicate count 0 }
{
    let mut words = ArrayVec::new();
    for _ in 0..count {
        words.push(0);
    }
    words
}

/// The words of a device that has started.
fn started<X: Device>(device: &X) -> ArrayVec<u32, 128>
    ensures { result.items ≡ first_words (X.meaning device.now) }
{
    let mut words = zeros(device.words());
    device.start(words.as_mut_slice());
    words
}

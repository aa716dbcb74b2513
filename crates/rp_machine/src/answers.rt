//! What the machine tells a lane of the others: interrupt lines, the counts that pace DMA channels, and pins.

ghost use Rattle.std.specs.Prelude.{◌≡◌, ◌+◌, ◌*◌, ◌^◌, ◌≤◌, ◌<◌};
ghost use Rattle.dma_engine.specs.Pace.{packed_counts};
ghost use Rattle.rp_machine.specs.Answers.{pair_number, packed_pair, sio_lines};

use crate::machine::Machine;
use sio_block::Sio;

/// Two lines, the first one lowest.
#[inline(always)]
fn pair_number(lines: [bool; 2]) -> u32
    ensures value { result ≡ pair_number lines }
    ensures small { result ≤ 3 }
{
    let [first, second] = lines;
    u32::from(first) + u32::from(second) * 2
}

/// The line of SIO to a core.
#[inline(always)]
fn sio_lines(sio: &Sio, core: u8) -> u32
    ensures value { result ≡ sio_lines core sio.now }
    ensures small { result ≤ 0x10000 }
{
    if core == 0 {
        u32::from(sio.line(0)) * 0x8000
    } else {
        u32::from(sio.line(1)) * 0x1_0000
    }
}

/// Two words in one number, the first one lowest.
fn packed_pair(words: [u32; 2]) -> u128
    ensures { result ≡ packed_pair words }
{
    let [first, second] = words;
    u128::from(first) + u128::from(second) * 0x1_0000_0000
}

/// Four counts of six bits each, the first one lowest.
#[inline(always)]
fn packed_four(counts: [u8; 4]) -> u64
    ensures value { result ≡ packed_counts counts }
    ensures small { result < 2 ^ 27 }
{
    let [c0, c1, c2, c3] = counts;
    u64::from(c0) + u64::from(c1) * 0x40 + u64::from(c2) * 0x1000 + u64::from(c3) * 0x4_0000
}

impl Machine {
    ghost use Rattle.std.specs.Prelude.{◌≡◌, ◌<◌, ◌^◌, ◌∷◌, []};
    ghost use Rattle.rp_machine.specs.Answers.{shared_lines, lines_of, pacing_of, inputs_of, outs_of};

    /// The interrupt lines that come from PIO and the DMA engine, the same to both cores.
    #[inline(always)]
    pub(crate) fn shared_lines(&self) -> u32
        ensures value { result ≡ shared_lines self.now }
        ensures small { result < 2 ^ 13 }
    {
        pair_number(self.pio0.block.lines()) * 0x80
            + pair_number(self.pio1.block.lines()) * 0x200
            + pair_number(self.dma.block.lines()) * 0x800
    }

    /// The interrupt lines of core 0 or 1, line 0 in bit 0 (RP2040 Datasheet, 2.3.2, Interrupts).
    #[inline(always)]
    pub fn lines(&self, core: u8) -> u32
        ensures { result ≡ lines_of core self.now }
    {
        self.lines_beside(self.shared_lines(), core)
    }

    /// The same, where these are the lines that both cores share.
    #[inline(always)]
    #[tactic(auto, unfolding(crate::specs::Answers::lines_of, crate::specs::Answers::block_lines))]
    pub(crate) fn lines_beside(&self, shared: u32, core: u8) -> u32
        requires shared { shared ≡ shared_lines self.now }
        requires small { shared < 2 ^ 13 }
        ensures { result ≡ lines_of core self.now }
    {
        self.outer.lines(core) | (shared + sio_lines(&self.sio, core))
    }

    /// The counts that pace DMA channels, six bits each, in the order of the DREQs (RP2040 Datasheet, 2.5.3.1).
    #[tactic(auto, unfolding(crate::specs::Answers::pacing_of), using(crate::proofs::Packed::packed_in_turn))]
    pub(crate) fn pacing(&self) -> u128
        ensures { result ≡ pacing_of self.now }
    {
        u128::from(self.pio0.block.packed_pacing())
            + u128::from(self.pio1.block.packed_pacing()) * 0x1_0000_0000_0000
            + u128::from(packed_four(self.outer.pacing())) * 0x1_0000_0000_0000_0000_0000_0000
    }

    /// The input words of the pins, that of the levels now lowest.
    #[tactic(auto, unfolding(crate::specs::Answers::inputs_of))]
    pub(crate) fn inputs(&self) -> u128
        ensures { result ≡ inputs_of self.now }
    {
        packed_pair(self.outer.inputs())
    }

    /// What a PIO block puts out, the levels lowest; each number but 0 is that of block 1.
    #[tactic(auto, unfolding(crate::specs::Answers::outs_of))]
    pub(crate) fn outs(&self, block: u8) -> u128
        ensures { result ≡ outs_of block self.now }
    {
        if block == 0 {
            packed_pair(self.pio0.block.outs())
        } else {
            packed_pair(self.pio1.block.outs())
        }
    }
}

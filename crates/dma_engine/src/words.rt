//! The words of the engine's registers by their offsets.

ghost use Rattle.std.specs.Prelude.{◌≡◌, ◌*◌, ◌%◌, ◌^◌, ◌<◌, Some, None, ⊤};
ghost use Rattle.rp_base.specs.Rows.{word_at, effect_at};
ghost use Rattle.rp_base.proofs.Rows.{in_stride};
ghost use Rattle.dma_engine.specs.Words.{trigger_word, channel_rows, without_raised, word_of_timer, with_timer_word, block_rows, word_of, is_word, effect_of};

use crate::engine::Engine;
use crate::registers::{
    CH0_AL1_CTRL, CH0_AL1_READ_ADDR, CH0_AL1_TRANS_COUNT_TRIG, CH0_AL1_WRITE_ADDR, CH0_AL2_CTRL,
    CH0_AL2_READ_ADDR, CH0_AL2_TRANS_COUNT, CH0_AL2_WRITE_ADDR_TRIG, CH0_AL3_CTRL,
    CH0_AL3_READ_ADDR_TRIG, CH0_AL3_TRANS_COUNT, CH0_AL3_WRITE_ADDR, CH0_CTRL_TRIG, CH0_READ_ADDR,
    CH0_TRANS_COUNT, CH0_WRITE_ADDR, CHAN_ABORT, CHANNELS_END, INTE0, INTE1, INTF0, INTF1, INTR,
    INTS0, INTS1, MULTI_CHAN_TRIGGER, N_CHANNELS, TIMER0, TIMER1, TIMER2, TIMER3,
};
use crate::timer::PacingTimer;

/// The bits of a word that channels have.
fn low_half(word: u32) -> u16
    ensures { result ≡ word % 2 ^ 16 }
{
    (word % 0x1_0000) as u16
}

impl PacingTimer {
    /// X above Y.
    fn word(&self) -> u32
        ensures { result ≡ word_of_timer self.now }
    {
        u32::from(self.x) * 0x1_0000 + u32::from(self.y)
    }

    /// Writes X and Y.
    fn set_word(&mut self, word: u32)
        ensures { self.new ≡ with_timer_word word self.old }
    {
        self.x = (word >> 16) as u16;
        self.y = low_half(word);
    }
}

impl Engine {
    /// The word at an offset.
    #[tactic(auto, using(crate::proofs::Rows::low_word, crate::proofs::Rows::high_word))]
    pub(crate) fn read(&self, offset: u16) -> Option<u32>
        ensures { result ≡ word_of offset self.now }
    {
        if offset < CHANNELS_END {
            self.channel_word(offset / 0x40, offset % 0x40)
        } else {
            self.block_word(offset)
        }
    }

    /// There is a word at the offset.
    #[tactic(auto, using(crate::proofs::Rows::there))]
    pub(crate) fn allows(&self, offset: u16) -> bool
        ensures { result ≡ is_word offset }
    {
        self.read(offset).is_some()
    }

    /// Does what a read, or a write of this word, does.
    #[tactic(auto, using(crate::proofs::Rows::reads))]
    pub(crate) fn effect(&mut self, offset: u16, write: Option<u32>) -> bool
        ensures after { self.new ≡ effect_of offset write self.old }
        ensures allowed { result ≡ is_word offset }
    {
        if let Some(word) = write {
            self.write(offset, word);
        }
        self.allows(offset)
    }

    /// A write of a word.
    #[tactic(auto, using(crate::proofs::Rows::low_write, crate::proofs::Rows::high_write))]
    fn write(&mut self, offset: u16, word: u32)
        ensures { self.new ≡ effect_of offset (Some word) self.old }
    {
        if offset < CHANNELS_END {
            self.write_channel((offset / 0x40) as u8, offset % 0x40, word);
        } else {
            self.write_block(offset, word);
        }
    }

    /// A register of a channel, by the number of the channel and the offset from its first register.
    fn channel_word(&self, number: u16, offset: u16) -> Option<u32>
        requires { number < 12 }
        ensures { result ≡ in_stride 0 None (λ row. Some (row.reads number tt self.now)) (channel_rows {V = ⊤}) offset }
    {
        let channel = &self.channels[number as usize];
        match offset {
            CH0_READ_ADDR | CH0_AL1_READ_ADDR | CH0_AL2_READ_ADDR | CH0_AL3_READ_ADDR_TRIG => Some(
                channel.read,
            ),
            CH0_WRITE_ADDR | CH0_AL1_WRITE_ADDR | CH0_AL2_WRITE_ADDR_TRIG | CH0_AL3_WRITE_ADDR =>
                Some(channel.write),
            CH0_TRANS_COUNT
            | CH0_AL1_TRANS_COUNT_TRIG
            | CH0_AL2_TRANS_COUNT
            | CH0_AL3_TRANS_COUNT => Some(channel.count),
            CH0_CTRL_TRIG | CH0_AL1_CTRL | CH0_AL2_CTRL | CH0_AL3_CTRL => Some(channel.control()),
            _ => None,
        }
    }

    /// Writes a register of a channel, by the number of the channel and the offset from its first register. The last one of each
    /// order triggers.
    fn write_channel(&mut self, number: u8, offset: u16, word: u32)
        requires { number < 12 }
        ensures { self.new ≡ in_stride 0 self.old (λ row. row.write_does number word self.old) (channel_rows {V = ⊤}) offset }
    {
        let channel = &mut self.channels[number as usize];
        match offset {
            CH0_READ_ADDR | CH0_AL1_READ_ADDR | CH0_AL2_READ_ADDR => channel.read = word,
            CH0_WRITE_ADDR | CH0_AL1_WRITE_ADDR | CH0_AL3_WRITE_ADDR => channel.write = word,
            CH0_TRANS_COUNT | CH0_AL2_TRANS_COUNT | CH0_AL3_TRANS_COUNT => channel.reload = word,
            CH0_AL1_CTRL | CH0_AL2_CTRL | CH0_AL3_CTRL => channel.ctrl = word % 0x80_0000,
            CH0_CTRL_TRIG => {
                channel.ctrl = word % 0x80_0000;
                self.write_trigger(number, word);
            }
            CH0_AL1_TRANS_COUNT_TRIG => {
                channel.reload = word;
                self.write_trigger(number, word);
            }
            CH0_AL2_WRITE_ADDR_TRIG => {
                channel.write = word;
                self.write_trigger(number, word);
            }
            CH0_AL3_READ_ADDR_TRIG => {
                channel.read = word;
                self.write_trigger(number, word);
            }
            _ => {}
        }
    }

    /// A word that was written in a trigger word.
    fn write_trigger(&mut self, number: u8, word: u32)
        requires { number < 12 }
        ensures { self.new ≡ trigger_word number word self.old }
    {
        if word != 0 {
            self.trigger(number);
        } else if self.channels[number as usize].irq_quiet() {
            self.raise(number);
        }
    }

    /// A register of the block.
    fn block_word(&self, offset: u16) -> Option<u32>
        ensures { result ≡ word_at (block_rows {V = ⊤}) tt offset self.now }
    {
        match offset {
            INTR => Some(u32::from(self.raised)),
            INTE0 => Some(u32::from(self.line_0.enable)),
            INTF0 => Some(u32::from(self.line_0.force)),
            INTS0 => Some(u32::from(self.line_0.status(self.raised))),
            INTE1 => Some(u32::from(self.line_1.enable)),
            INTF1 => Some(u32::from(self.line_1.force)),
            INTS1 => Some(u32::from(self.line_1.status(self.raised))),
            TIMER0 => Some(self.timers[0].word()),
            TIMER1 => Some(self.timers[1].word()),
            TIMER2 => Some(self.timers[2].word()),
            TIMER3 => Some(self.timers[3].word()),
            MULTI_CHAN_TRIGGER | CHAN_ABORT => Some(0),
            N_CHANNELS => Some(12),
            _ => None,
        }
    }

    /// Clears interrupts.
    fn clear_raised(&mut self, word: u32)
        ensures { self.new ≡ without_raised word self.old }
    {
        self.raised &= !low_half(word);
    }

    /// Writes a register of the block.
    fn write_block(&mut self, offset: u16, word: u32)
        ensures { self.new ≡ effect_at (block_rows {V = ⊤}) offset (Some word) self.old }
    {
        match offset {
            INTR | INTS0 | INTS1 => self.clear_raised(word),
            INTE0 => self.line_0.enable = low_half(word),
            INTF0 => self.line_0.force = low_half(word),
            INTE1 => self.line_1.enable = low_half(word),
            INTF1 => self.line_1.force = low_half(word),
            TIMER0 => self.timers[0].set_word(word),
            TIMER1 => self.timers[1].set_word(word),
            TIMER2 => self.timers[2].set_word(word),
            TIMER3 => self.timers[3].set_word(word),
            MULTI_CHAN_TRIGGER => self.trigger_all(word),
            CHAN_ABORT => self.abort_all(word),
            _ => {}
        }
    }
}

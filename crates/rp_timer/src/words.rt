//! The registers, by their offsets.

ghost use Rattle.std.specs.Prelude.{◌≡◌, ◌+◌, ◌^◌, ◌<◌, Some, None};
ghost use Rattle.rp_timer.specs.Step.{after_cycles};
ghost use Rattle.rp_timer.specs.Words.{with_alarm, word_of, is_word, is_pure_read, effect_of};

use crate::registers::{
    ALARM0, ALARM1, ALARM2, ALARM3, ARMED, DBGPAUSE, INTE, INTF, INTR, INTS, PAUSE, TIMEHR, TIMEHW,
    TIMELR, TIMELW, TIMERAWH, TIMERAWL,
};
use crate::timer::{Timer, high_of, low_of};
use rp_base::Registers;

impl Timer {
    /// The word at an offset. None exactly where there is no such word.
    pub fn read(&self, offset: u16) -> Option<u32>
        ensures { result ≡ word_of offset self.now }
    {
        match offset {
            TIMEHW | TIMELW => Some(0),
            TIMEHR => Some(self.high),
            TIMERAWH => Some(high_of(self.time)),
            TIMELR | TIMERAWL => Some(low_of(self.time)),
            ALARM0 => Some(self.alarms[0]),
            ALARM1 => Some(self.alarms[1]),
            ALARM2 => Some(self.alarms[2]),
            ALARM3 => Some(self.alarms[3]),
            ARMED => Some(self.armed),
            DBGPAUSE => Some(self.debug_pause),
            PAUSE => Some(u32::from(self.paused)),
            INTR => Some(self.raised),
            INTE => Some(self.enabled),
            INTF => Some(self.forced),
            INTS => Some(self.lines()),
            _ => None,
        }
    }

    /// The word at an offset after so many cycles from one on. None exactly where there is no such word.
    pub fn read_after(&self, offset: u16, first: u64, n: u64) -> Option<u32>
        requires { first + n < 2 ^ 64 }
        ensures { result ≡ word_of offset (after_cycles first n self.now) }
    {
        match offset {
            TIMERAWH => Some(high_of(self.time_after(first, n))),
            TIMELR | TIMERAWL => Some(low_of(self.time_after(first, n))),
            _ => self.read_other(offset, first, n),
        }
    }

    /// The same, as a copy shows it.
    #[inline(never)]
    fn read_other(&self, offset: u16, first: u64, n: u64) -> Option<u32>
        requires { first + n < 2 ^ 64 }
        ensures { result ≡ word_of offset (after_cycles first n self.now) }
    {
        let mut later = *self;
        later.pass(first, n);
        later.read(offset)
    }

    /// There is a word at this offset, which any read and any write may reach.
    pub fn allows(&self, offset: u16, write: Option<u32>) -> bool
        ensures { result ≡ is_word offset }
    {
        let _ = write;
        offset <= INTS && offset % 4 == 0
    }

    /// Does what a read, or a write of this word, does to the timer. False, and nothing is changed, exactly where there is
    /// no such word.
    pub fn effect(&mut self, offset: u16, write: Option<u32>) -> bool
        ensures after { self.new ≡ effect_of offset write self.old }
        ensures allowed { result ≡ is_word offset }
    {
        let allowed = self.allows(offset, write);
        match write {
            Some(word) => self.write(offset, word),
            None => self.after_read(offset),
        }
        allowed
    }

    /// A read at this offset changes nothing: it is none of TIMELR, which latches TIMEHR (RP2040 Datasheet, 4.6.2).
    #[inline(always)]
    pub fn is_pure_read(offset: u16) -> bool
        ensures { result ≡ is_pure_read offset }
    {
        offset != TIMELR
    }

    /// What a read does.
    fn after_read(&mut self, offset: u16)
        ensures { self.new ≡ effect_of offset None self.old }
    {
        if offset == TIMELR {
            self.high = high_of(self.time);
        }
    }

    /// A write of a word.
    fn write(&mut self, offset: u16, word: u32)
        ensures { self.new ≡ effect_of offset (Some word) self.old }
    {
        match offset {
            TIMEHW => self.time = u64::from(word) * 0x1_0000_0000 + u64::from(self.low),
            TIMELW => self.low = word,
            ALARM0 => self.arm(0, word),
            ALARM1 => self.arm(1, word),
            ALARM2 => self.arm(2, word),
            ALARM3 => self.arm(3, word),
            ARMED => self.armed &= !word,
            DBGPAUSE => self.debug_pause = word,
            PAUSE => self.paused = word & 1 == 1,
            INTR => self.raised &= !word,
            INTE => self.enabled = word & 0xf,
            INTF => self.forced = word & 0xf,
            _ => {}
        }
    }

    /// A write of an alarm.
    fn arm(&mut self, number: usize, word: u32)
        requires { number < 4 }
        ensures { self.new ≡ with_alarm number word self.old }
    {
        self.alarms[number] = word;
        self.armed |= 1 << number;
    }
}

impl Registers<()> for Timer {
    ghost word = { λ offset _. word_of offset };

    ghost allowed = { λ offset _ _. is_word offset };

    ghost accessed = { effect_of };

    fn read(&self, _seen: &(), offset: u16) -> Option<u32> {
        self.read(offset)
    }

    fn allows(&self, offset: u16, write: Option<u32>) -> bool {
        self.allows(offset, write)
    }

    fn effect(&mut self, offset: u16, write: Option<u32>) -> bool {
        self.effect(offset, write)
    }
}

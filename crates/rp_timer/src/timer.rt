//! The timer: its state, and its cycle.

ghost use Rattle.std.specs.Prelude.{◌≡◌, ◌<◌, if◌then◌else◌, Decides};
ghost use Rattle.rp_timer.specs.State.{at_reset, low_of, high_of, lines_of};
ghost use Rattle.rp_timer.specs.Step.{is_due, due_of, risen, after_step};

use rp_base::Reset;
use std::marker::Model;

/// The timer (RP2040 Datasheet, 4.6).
#[derive(Clone, Copy)]
pub struct Timer {
    pub(crate) time: u64,
    pub(crate) low: u32,
    pub(crate) high: u32,
    pub(crate) alarms: [u32; 4],
    pub(crate) armed: u32,
    pub(crate) paused: bool,
    pub(crate) debug_pause: u32,
    pub(crate) raised: u32,
    pub(crate) enabled: u32,
    pub(crate) forced: u32,
}

impl Model for Timer {
    ghost use Rattle.rp_timer.specs.State.{State};

    ghost Value = { State };

    ghost view = { λ a. record {
      time = a.time;
      low = a.low;
      high = a.high;
      alarms = a.alarms;
      armed = a.armed;
      paused = a.paused;
      debug_pause = a.debug_pause;
      raised = a.raised;
      enabled = a.enabled;
      forced = a.forced;
    } };

    ghost inverse = { λ a. record {
      time = a.time;
      low = a.low;
      high = a.high;
      alarms = a.alarms;
      armed = a.armed;
      paused = a.paused;
      debug_pause = a.debug_pause;
      raised = a.raised;
      enabled = a.enabled;
      forced = a.forced;
    } };
}

impl Timer {
    /// The timer at reset: the time is 0, no alarm is armed, and all else is 0.
    pub fn new() -> Timer
        ensures { result ≡ at_reset }
    {
        Timer {
            time: 0,
            low: 0,
            high: 0,
            alarms: [0; 4],
            armed: 0,
            paused: false,
            debug_pause: 0,
            raised: 0,
            enabled: 0,
            forced: 0,
        }
    }

    /// Both are in the same state.
    pub fn is_same(&self, other: &Timer) -> bool
        ensures { Decides result (self.now ≡ other.now) }
    {
        let alarms = self.alarms == other.alarms;
        (self.time == other.time)
            & (self.low == other.low)
            & (self.high == other.high)
            & alarms
            & (self.armed == other.armed)
            & (self.paused == other.paused)
            & (self.debug_pause == other.debug_pause)
            & (self.raised == other.raised)
            & (self.enabled == other.enabled)
            & (self.forced == other.forced)
    }

    /// One cycle, of this number: where it is the last of a microsecond and the timer is not paused, the time rises by one
    /// and the alarms that are due set their interrupts.
    pub fn step(&mut self, cycle: u64)
        ensures { self.new ≡ after_step cycle self.old }
    {
        if cycle % 125 == 124 {
            self.tick();
        }
    }

    /// The end of a microsecond.
    fn tick(&mut self)
        ensures { self.new ≡ (if self.old.paused then self.old else risen self.old) }
    {
        if self.paused {
            return;
        }
        self.time = self.time.wrapping_add(1);
        let due = self.due();
        self.raised |= due;
        self.armed &= !due;
    }

    /// The alarms that are due.
    fn due(&self) -> u32
        ensures { result ≡ due_of self.now }
    {
        u32::from(self.is_due(0))
            + u32::from(self.is_due(1)) * 2
            + u32::from(self.is_due(2)) * 4
            + u32::from(self.is_due(3)) * 8
    }

    /// An alarm is armed, and equals the low word of the time.
    fn is_due(&self, number: usize) -> bool
        requires { number < 4 }
        ensures { result ≡ is_due number self.now }
    {
        (self.armed >> number) & 1 == 1 && self.alarms[number] == low_of(self.time)
    }

    /// The interrupt lines TIMER_IRQ_0 to TIMER_IRQ_3, by bits: INTS.
    pub fn lines(&self) -> u32
        ensures { result ≡ lines_of self.now }
    {
        self.raised & self.enabled | self.forced
    }
}

impl Reset for Timer {
    ghost first = { at_reset };

    fn reset(&mut self) {
        *self = Timer::new();
    }
}

/// The low word of a time.
pub(crate) fn low_of(time: u64) -> u32
    ensures { result ≡ low_of time }
{
    (time & 0xffff_ffff) as u32
}

/// The high word of a time.
pub(crate) fn high_of(time: u64) -> u32
    ensures { result ≡ high_of time }
{
    ((time >> 32) & 0xffff_ffff) as u32
}

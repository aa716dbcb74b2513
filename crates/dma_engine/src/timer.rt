//! A pacing timer.

ghost use Rattle.std.specs.Prelude.{◌≡◌, ◌≤◌};
ghost use Rattle.dma_engine.specs.Timer.{runs, step_of, gives, accumulated, stepped};

/// One pacing timer (RP2040 Datasheet, 2.5.7, TIMER0): it gives a credit in X of each Y cycles.
#[derive(Clone, Copy, PartialEq, Eq)]
pub struct PacingTimer {
    /// X.
    pub x: u16,
    /// Y.
    pub y: u16,
    /// What was added up since the last credit.
    pub accumulator: u16,
}

impl PacingTimer {
    /// A timer after a reset.
    pub(crate) const STOPPED: PacingTimer = PacingTimer {
        x: 0,
        y: 0,
        accumulator: 0,
    };

    /// Neither X nor Y is 0.
    pub(crate) fn runs(&self) -> bool
        ensures { result ≡ runs self.now }
    {
        self.x != 0 && self.y != 0
    }

    /// What a cycle adds.
    pub(crate) fn step(&self) -> u16
        ensures value { result ≡ step_of self.now }
        ensures bound { result ≤ self.now.y }
    {
        self.x.min(self.y)
    }

    /// The timer gives a credit.
    pub(crate) fn gives(&self) -> bool
        ensures { result ≡ gives self.now }
    {
        self.runs() && self.y - self.step() <= self.accumulator
    }

    /// What the accumulator comes to.
    fn accumulated(&self) -> u16
        ensures { result ≡ accumulated self.now }
    {
        let missing = self.y - self.step();
        if missing <= self.accumulator {
            self.accumulator - missing
        } else {
            self.accumulator + self.step()
        }
    }

    /// A cycle of the timer.
    #[inline(always)]
    pub(crate) fn step_once(&mut self)
        ensures { self.new ≡ stepped self.old }
    {
        if self.runs() {
            self.accumulator = self.accumulated();
        }
    }
}

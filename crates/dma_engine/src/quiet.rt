//! For how long the engine is quiet, and many cycles at once.

ghost use Rattle.std.specs.Prelude.{◌≡◌, ◌<◌, ◌^◌, ℕ, false, map};
ghost use Rattle.std.specs.List.{list_any};
ghost use Rattle.dma_engine.specs.Timer.{gives};
ghost use Rattle.dma_engine.specs.Quiet.{timer_after};

use crate::awaited::Awaited;
use crate::begun::BegunTransfer;
use crate::dma::Dma;
use crate::engine::Engine;
use crate::timer::PacingTimer;

impl PacingTimer {
    ghost use Rattle.std.specs.Prelude.{◌≡◌, ◌<◌, ℕ, false};
    ghost use Rattle.dma_engine.specs.Timer.{gives};
    ghost use Rattle.dma_engine.specs.Quiet.{timer_after};

    /// In so many cycles from now on it gives no credit.
    #[tactic(auto, using(crate::proofs::Lasting::none_still, crate::proofs::Lasting::steps_fit))]
    fn quiet(&self) -> u64
        ensures { (k : ℕ) → k < result → gives (timer_after k self.now) ≡ false }
    {
        let step = self.step();
        if step == 0 {
            return u64::MAX;
        }
        let left = (self.y - 1).saturating_sub(self.accumulator);
        u64::from(left / step)
    }

    /// The timer after so many cycles, in which it gives no credit.
    #[tactic(auto, using(crate::proofs::Lasting::reckons))]
    fn passed_by(&self, n: u64) -> PacingTimer
        requires { (k : ℕ) → k < n → gives (timer_after k self.now) ≡ false }
        ensures { result ≡ timer_after n self.now }
    {
        fact_fits(self.y, self.accumulator);
        let added = n.wrapping_mul(u64::from(self.step()));
        PacingTimer {
            x: self.x,
            y: self.y,
            accumulator: (u64::from(self.accumulator).wrapping_add(added) % 0x1_0000) as u16,
        }
    }
}

/// In so many cycles from now on no timer gives a credit.
fn all_quiet(timers: &[PacingTimer; 4]) -> u64
    ensures { (k : ℕ) → k < result → list_any gives (map (timer_after k) timers.now) ≡ false }
{
    let low = timers[0].quiet().min(timers[1].quiet());
    let high = timers[2].quiet().min(timers[3].quiet());
    low.min(high)
}

/// The timers after so many cycles, in which none gives a credit.
#[tactic(auto, using(crate::proofs::Four::four))]
fn all_passed(timers: &[PacingTimer; 4], n: u64) -> [PacingTimer; 4]
    requires { (k : ℕ) → k < n → list_any gives (map (timer_after k) timers.now) ≡ false }
    ensures { result ≡ map (timer_after n) timers.now }
{
    [
        timers[0].passed_by(n),
        timers[1].passed_by(n),
        timers[2].passed_by(n),
        timers[3].passed_by(n),
    ]
}

/// Y and what was added up fit 16 bits. It costs nothing.
fn fact_fits(_y: u16, _accumulator: u16)
    ensures y { _y < 2 ^ 16 }
    ensures accumulator { _accumulator < 2 ^ 16 }
{}

impl Engine {
    ghost use Rattle.std.specs.Prelude.{◌≡◌};
    ghost use Rattle.dma_engine.specs.Quiet.{GivesNone, engine_after};

    /// So many cycles of the timers at once, in which none gives a credit.
    fn pass_timers(&mut self, n: u64)
        requires { GivesNone self.old n }
        ensures { self.new ≡ engine_after n self.old }
    {
        self.timers = all_passed(&self.timers, n);
    }
}

impl Dma {
    ghost use Rattle.std.specs.Prelude.{◌≡◌, ℕ};
    ghost use Rattle.lane_look.specs.declared.lane.Ask.{Ask};
    ghost use Rattle.lane_look.specs.declared.lane.Ask.TheVariants.{Pacing};
    ghost use Rattle.lane_look.specs.Asking.{answered};
    ghost use Rattle.dma_engine.specs.Asks.{asks};
    ghost use Rattle.dma_engine.specs.Quiet.{IsQuiet, GivesNone, engine_after};

    /// For so many cycles from the one on in which this is begun the engine is quiet, as long as the counts that pace its channels
    /// stay: it wants nothing, and its timers alone step. Any smaller number is right too.
    pub fn quiet(&self, begun: &BegunTransfer) -> u64
        ensures { (answer : Ask → ℕ) → begun.now ≡ answered answer (asks self.now)
            → IsQuiet (answer Pacing) self.now result }
    {
        match self.awaited {
            Awaited::RegisterWrite | Awaited::Credit => all_quiet(&self.engine.timers),
            Awaited::OtherCounts(counts) if counts == begun.counts && begun.is_nothing() =>
                u64::MAX,
            _ => 0,
        }
    }

    /// So many cycles at once, in which the engine is quiet.
    #[tactic(auto, using(crate::proofs::Lasting::kept_passed))]
    pub fn pass(&mut self, n: u64)
        requires { GivesNone self.old n }
        ensures { self.new ≡ engine_after n self.old }
    {
        self.engine.pass_timers(n);
    }
}

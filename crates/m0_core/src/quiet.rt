//! Cycles in which a core is quiet.

ghost use Rattle.std.specs.Prelude.{◌≡◌, ◌+◌, ◌<◌, ◌^◌};
ghost use Rattle.lane_look.specs.Times.{times};
ghost use Rattle.m0_core.specs.Quiet.{rested, IsQuiet, is_wait, is_waiting, is_lasting};

use crate::doing::{Doing, Work};
use crate::kinds::is_pause;
use crate::processor::Core;
use lane_look::{Ask, Look, Turn};

/// Answers each question by the interrupt lines.
#[derive(Drop)]
struct Told {
    lines: u32,
}

impl Look for Told {
    ghost use Rattle.std.specs.Prelude.{◌≡◌};

    ghost answers = { λ old ask x new. (x ≡ old.lines) × (new ≡ old) };

    fn ask(&mut self, _ask: Ask) -> u128 {
        u128::from(self.lines)
    }
}

/// WFI or WFE is in progress.
#[inline(always)]
fn is_wait(work: &Option<Work>) -> bool
    ensures { result ≡ is_wait work.now }
{
    match work {
        Some(Work::Instruction(op)) => is_pause(op),
        _ => false,
    }
}

impl Core {
    /// The core is asleep, or in the second beat of WFI or WFE. Elsewhere it is not quiet, and to ask costs a few tests.
    #[inline(always)]
    pub fn is_waiting(&self) -> bool
        ensures { result ≡ is_waiting self.now }
    {
        is_wait(&self.work) && self.beats_done == 1 || self.is_asleep()
    }

    /// For so many cycles from that one on, and maybe for more, the core is quiet, as long as its interrupt lines (line 0 in bit 0) stay
    /// as they are: it asks for nothing else, wants nothing, and moves nothing but the count of its system timer. It is `u64::MAX`
    /// where the core is asleep, and where it waits and the timer does not count.
    #[tactic(auto, using(crate::proofs::Lasting::quiet_asleep, crate::proofs::Lasting::quiet_while, crate::proofs::Lasting::quiet_never))]
    pub fn quiet(&self, lines: u32, cycle: u64) -> u64
        ensures { IsQuiet lines self.now cycle result }
    {
        if self.is_asleep() {
            return u64::MAX;
        }
        if self.is_lasting() {
            return self.nvic.quiet(lines, cycle);
        }
        0
    }

    /// So many cycles at once from a first one on, with these interrupt lines (line 0 in bit 0), in which nothing is given for a want.
    #[tactic(auto, using(crate::proofs::Lasting::stays_asleep, crate::proofs::Lasting::passes_while))]
    pub fn pass(&mut self, lines: u32, first: u64, n: u64)
        requires { first + n < 2 ^ 64 }
        ensures { self.new ≡ times (rested lines) first n self.old }
    {
        if self.is_asleep() {
            return;
        }
        if self.is_lasting() && n <= self.nvic.quiet(lines, first) {
            self.nvic.pass(lines, first, n);
        } else {
            self.rest_each(lines, first, n);
        }
    }

    /// The second beat of WFI or WFE lasts on.
    fn is_lasting(&self) -> bool
        ensures { result ≡ is_lasting self.now.work self.now }
    {
        match &self.work {
            None => false,
            Some(work) => self.is_paused(work),
        }
    }

    /// So many cycles one by one.
    #[tactic(auto, using(lane_look::proofs::Times::times_more, lane_look::proofs::Times::times_none))]
    fn rest_each(&mut self, lines: u32, first: u64, n: u64)
        requires { first + n < 2 ^ 64 }
        ensures { self.new ≡ times (rested lines) first n self.old }
    {
        for k in 0..n {
            self.rest(lines, first + k);
        }
    }

    /// One cycle.
    fn rest(&mut self, lines: u32, cycle: u64)
        ensures { self.new ≡ rested lines cycle self.old }
    {
        let mut begun = Doing::nothing();
        self.begin_into(cycle, &mut Told { lines }, &mut begun);
        self.finish_any(&begun, &[Turn::Nothing, Turn::Nothing]);
    }
}

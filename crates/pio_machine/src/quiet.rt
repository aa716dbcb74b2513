//! For how long a machine only waits, and many cycles of it at once.

ghost use Rattle.std.specs.Prelude.{◌≡◌, ◌+◌, ◌*◌, ◌<◌, ◌≤◌};

use crate::flags::{flag_of, has_flag};
use crate::machine::{Done, Machine1, Seen};
use crate::pins::overlaid;
use crate::settings::Settings;
use pio_words::PioOp;

/// What is left of a divider after so many cycles, in 256ths of one, and how many ticks are among them.
fn divided(acc: u32, period: u32, cycles: u64) -> (u32, u128)
    requires { 256 ≤ period }
    ensures sum { result.0 + 256 * cycles ≡ acc + result.1 * period }
    ensures least { 0 < result.1 → acc + result.1 * period < 256 * cycles + period }
{
    let time = 256 * u128::from(cycles);
    let before = u128::from(acc);
    if time <= before {
        return ((before - time) as u32, 0);
    }
    let length = u128::from(period);
    let ticks = (time - before) / length;
    let rest = ((time - before) % length) as u32;
    if rest == 0 {
        (0, ticks)
    } else {
        (period - rest, ticks + 1)
    }
}

impl Done {
    ghost use Rattle.std.specs.Prelude.{◌≡◌, true};
    ghost use Rattle.pio_machine.specs.Pins.{overlaid};

    /// Laid over pins that have these levels and enables it leaves them.
    fn leaves(&self, levels: u32, enables: u32) -> bool
        ensures levels { result ≡ true → overlaid self.now.level_mask self.now.levels levels ≡ levels }
        ensures enables { result ≡ true → overlaid self.now.enable_mask self.now.enables enables ≡ enables }
    {
        overlaid(self.level_mask, self.levels, levels) == levels
            && overlaid(self.enable_mask, self.enables, enables) == enables
    }
}

impl Machine1 {
    ghost use Rattle.std.specs.Prelude.{◌≡◌, ◌<◌, ℕ, true, false, None};
    ghost use Rattle.pio_machine.specs.declared.machine.Seen.{Seen};
    ghost use Rattle.pio_machine.specs.Ready.{settings_of};
    ghost use Rattle.pio_machine.specs.Quiet.{waited, IsQuiet, is_forced, loads, IsStuck};

    /// A word that was written to INSTR waits.
    pub fn is_forced(&self) -> bool
        ensures { result ≡ is_forced self.now.waiting }
    {
        match self.waiting {
            Some(waiting) => waiting.forced,
            None => false,
        }
    }

    /// Under autopull a tick loads the OSR.
    fn loads(&self, settings: &Settings) -> bool
        requires { settings.now ≡ settings_of self.now }
        ensures { result ≡ loads self.now.tx self.now }
    {
        !self.tx.is_empty() && self.is_autopull_due(settings)
    }

    /// The machine stalls on this operation, and to try it again changes nothing.
    #[tactic(auto, using(crate::proofs::Stuck::stuck_wait, crate::proofs::Stuck::stuck_out, crate::proofs::Stuck::stuck_pull, crate::proofs::Stuck::stuck_push, crate::proofs::Stuck::stuck_in, crate::proofs::Stuck::stuck_irq))]
    fn is_stuck(&self, op: &PioOp, settings: &Settings, number: u8, seen: &Seen) -> bool
        requires number { number < 4 }
        requires settings { settings.now ≡ settings_of self.now }
        requires waiting { self.now.waiting ≡ None }
        requires loads { loads self.now.tx self.now ≡ false }
        ensures { result ≡ true → IsStuck op.now number seen.now self.now }
    {
        match *op {
            PioOp::Wait { polarity, source } => self.is_high(source, number, seen) != polarity,
            PioOp::Out { .. } => self.tx_stall
                && self.tx.is_empty()
                && self.is_autopull_due(settings),
            PioOp::Pull { if_empty, block } => {
                block && self.tx_stall && self.tx.is_empty() && !self.is_pull_void(if_empty)
            }
            PioOp::Push { if_full, block } => {
                block && self.rx_stall && self.is_rx_full() && !self.is_push_void(if_full)
            }
            PioOp::In { .. } => {
                self.progress.shifted
                    && self.rx_stall
                    && self.is_rx_full()
                    && self.is_autopush_due()
            }
            PioOp::Irq { clear, wait, index } => {
                !clear
                    && wait
                    && self.progress.raised
                    && has_flag(seen.flags, flag_of(index, number))
            }
            _ => false,
        }
    }

    /// The machine stalls on the word at PC, to try it again changes nothing, and its side-set writes what the pins have. False is right too.
    #[tactic(auto, using(crate::proofs::Waits::stuck))]
    pub fn stalls(
        &self,
        settings: &Settings,
        number: u8,
        seen: &Seen,
        levels: u32,
        enables: u32,
    ) -> bool
        requires number { number < 4 }
        requires settings { settings.now ≡ settings_of self.now }
        ensures { result ≡ true → (n : ℕ) → IsQuiet number seen.now levels enables self.now n }
    {
        if !self.enabled || self.delay != 0 || self.waiting.is_some() || self.loads(settings) {
            return false;
        }
        let word = seen.memory.word(self.pc % 32);
        let operation = seen.memory.operation(self.pc % 32);
        if !self.is_stuck(operation, settings, number, seen) {
            return false;
        }
        let mut done = Done::new();
        let _delay = self.set_side(word, settings, &mut done);
        done.leaves(levels, enables)
    }

    /// For so many cycles from now on the machine tries no word: it is off, between two ticks, or within a delay. Any smaller number is
    /// right too.
    #[tactic(auto, using(crate::proofs::Waits::none, crate::proofs::Waits::off, crate::proofs::Waits::between, crate::proofs::Waits::within_delay))]
    pub fn tries_none(&self, settings: &Settings) -> u64
        requires { settings.now ≡ settings_of self.now }
        ensures { (number : ℕ) → (seen : Seen) → (level enable : ℕ) → IsQuiet number seen level enable self.now result }
    {
        if self.is_forced() {
            return 0;
        }
        if !self.enabled {
            return u64::MAX;
        }
        let acc = u64::from(self.acc);
        if self.waiting.is_some() || self.loads(settings) {
            return acc / 256;
        }
        (acc + u64::from(self.delay) * u64::from(settings.period)) / 256
    }

    /// So many cycles at once, in which the machine only waits.
    #[tactic(auto, using(crate::proofs::Waits::waited_off))]
    pub fn pass(&mut self, settings: &Settings, n: u64)
        requires { settings.now ≡ settings_of self.old }
        ensures after { self.new ≡ waited n self.old }
        ensures settings { settings_of self.new ≡ settings_of self.old }
    {
        if self.enabled {
            let (acc, ticks) = divided(self.acc, settings.period, n);
            self.acc = acc;
            self.delay = u128::from(self.delay).saturating_sub(ticks) as u8;
        }
    }
}

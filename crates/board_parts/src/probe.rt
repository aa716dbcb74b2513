//! What hears a pin.

ghost use Rattle.std.specs.Prelude.{◌≡◌, ℕ, List};
ghost use Rattle.board_parts.specs.Probe.{ProbeMeaning};

use arrayvec::ArrayVec;

/// A probe: it is aimed at a pin, hears each change of that pin's level, and shows a line.
pub trait Probe: Drop {
    /// Its state.
    ghost state: { Self → List ℕ };

    /// What it does, by its state. No call changes it.
    ghost meaning: { Self → ProbeMeaning };

    /// Aims it at a pin: it begins anew.
    fn aim(&mut self, pin: u8)
        ensures same { meaning self.new ≡ meaning self.old }
        ensures state { state self.new ≡ (meaning self.old).aimed pin };

    /// Hears that the pin has a new level in a cycle, true where it is high.
    fn edge(&mut self, cycle: u64, level: bool)
        ensures same { meaning self.new ≡ meaning self.old }
        ensures state { state self.new ≡ (meaning self.old).next cycle level (state self.old) };

    /// Leaves in `out` what it shows of its state, and nothing else.
    fn line(&self, out: &mut ArrayVec<u8, 120>)
        ensures { out.new.items ≡ (meaning self.now).text (state self.now) };
}

//! JMP.

ghost use Rattle.std.specs.Prelude.{◌≡◌};
ghost use Rattle.pio_machine.specs.Jump.{is_taken, decremented, after_jmp, ending_of_jmp};
ghost use Rattle.pio_machine.specs.Tie.{stands_for};

use crate::machine::{Machine1, Outcome, Seen};
use pio_words::JmpCondition;
use rp_base::bits::has_bit;

impl Machine1 {
    fn is_taken(&self, condition: JmpCondition, seen: &Seen) -> bool
        ensures { result ≡ is_taken condition seen.now self.now }
    {
        match condition {
            JmpCondition::Always => true,
            JmpCondition::XZero => self.x == 0,
            JmpCondition::XDecrement => self.x != 0,
            JmpCondition::YZero => self.y == 0,
            JmpCondition::YDecrement => self.y != 0,
            JmpCondition::XNotY => self.x != self.y,
            JmpCondition::Pin => has_bit(seen.input_word(), self.jmp_pin()),
            JmpCondition::OsrNotEmpty => self.osr_count < self.pull_threshold(),
        }
    }

    fn decrement(&mut self, condition: JmpCondition)
        ensures { self.new ≡ after_jmp condition self.old }
    {
        match condition {
            JmpCondition::XDecrement => self.x = self.x.wrapping_sub(1),
            JmpCondition::YDecrement => self.y = self.y.wrapping_sub(1),
            _ => {}
        }
    }

    /// A try of JMP.
    pub(crate) fn jmp(&mut self, condition: JmpCondition, address: u8, seen: &Seen) -> Outcome
        ensures machine { self.new ≡ after_jmp condition self.old }
        ensures ending { stands_for result ≡ ending_of_jmp condition address seen.now self.old }
    {
        let taken = self.is_taken(condition, seen);
        self.decrement(condition);
        if taken {
            Outcome::Jumped(address % 32)
        } else {
            Outcome::Completed
        }
    }
}

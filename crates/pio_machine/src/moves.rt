//! MOV.

ghost use Rattle.std.specs.Prelude.{◌≡◌};
ghost use Rattle.pio_machine.specs.Move.{status, mov_source, mov_changed, mov_value, with_moved, try_mov, ending_of_mov, written_by_mov};
ghost use Rattle.pio_machine.specs.Tie.{stands_for};

use crate::machine::{Done, Machine1, Outcome, Seen};
use pio_words::{MovDestination, MovOperation, MovSource};

impl Machine1 {
    /// STATUS: all ones where the chosen FIFO has fewer words than STATUS_N.
    fn status(&self) -> u32
        ensures { result ≡ status self.now }
    {
        let level = if self.status_of_rx() {
            self.rx.level()
        } else {
            self.tx.level()
        };
        if level < self.status_level() {
            0xffff_ffff
        } else {
            0
        }
    }

    fn mov_source(&self, source: MovSource, seen: &Seen) -> u32
        ensures { result ≡ mov_source source seen.now self.now }
    {
        match source {
            MovSource::Pins => self.mapped_inputs(seen),
            MovSource::X => self.x,
            MovSource::Y => self.y,
            MovSource::Null => 0,
            MovSource::Status => self.status(),
            MovSource::Isr => self.isr,
            MovSource::Osr => self.osr,
        }
    }

    /// What MOV moves.
    #[tactic(auto, unfolding(crate::specs::Move::mov_value))]
    fn mov_value(&self, operation: MovOperation, source: MovSource, seen: &Seen) -> u32
        ensures { result ≡ mov_value operation source seen.now self.now }
    {
        let word = self.mov_source(source, seen);
        match operation {
            MovOperation::Plain => word,
            MovOperation::Invert => !word,
            MovOperation::Reverse => word.reverse_bits(),
        }
    }

    /// MOV to a register.
    fn move_to(&mut self, destination: MovDestination, value: u32)
        ensures { self.new ≡ with_moved destination value self.old }
    {
        match destination {
            MovDestination::X => self.x = value,
            MovDestination::Y => self.y = value,
            MovDestination::Isr => {
                self.isr = value;
                self.isr_count = 0;
            }
            MovDestination::Osr => {
                self.osr = value;
                self.osr_count = 0;
            }
            _ => {}
        }
    }

    /// MOV to pins.
    fn move_to_pins(&self, destination: MovDestination, value: u32, done: &mut Done)
        ensures { done.new ≡ written_by_mov destination value self.now done.old }
    {
        if destination == MovDestination::Pins {
            done.write_levels(self.out_base(), self.out_count(), value);
        }
    }

    /// A try of MOV.
    pub(crate) fn try_mov(
        &mut self,
        destination: MovDestination,
        operation: MovOperation,
        source: MovSource,
        seen: &Seen,
        done: &mut Done,
    ) -> Outcome
        ensures machine { self.new
            ≡ (try_mov destination (mov_value operation source seen.now self.old)
            self.old).machine }
        ensures ending { stands_for result
            ≡ (try_mov destination (mov_value operation source seen.now self.old)
            self.old).ending }
        ensures done { done.new
            ≡ written_by_mov destination (mov_value operation source seen.now self.old) self.old
            done.old }
    {
        let value = self.mov_value(operation, source, seen);
        self.move_to_pins(destination, value, done);
        self.move_to(destination, value);
        outcome_of_mov(destination, value)
    }
}

/// How MOV ends.
fn outcome_of_mov(destination: MovDestination, value: u32) -> Outcome
    ensures { stands_for result ≡ ending_of_mov destination value }
{
    match destination {
        MovDestination::Pc => Outcome::Jumped((value & 0x1f) as u8),
        MovDestination::Exec => Outcome::Executes((value & 0xffff) as u16),
        _ => Outcome::Completed,
    }
}

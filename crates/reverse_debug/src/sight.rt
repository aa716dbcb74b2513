//! What is watched, while core 0 is at work by itself.

ghost use Rattle.std.specs.Prelude.{◌≡◌, ◌-◌};
ghost use Rattle.reverse_debug.specs.Sight.{stops_at};

use crate::watch::{is_begun, word_at};
use lane_look::Marks;
use quiet_run::Watch;
use rp_machine::{Machine, Steps};
use std::sync::ledger::Ledger;

/// What stops core 0 at work.
#[derive(Clone, Copy, Debug)]
pub enum Sight {
    /// The word of SRAM at an address is not this one.
    Word(u32, u32),
    /// Core 0, or core 1, begins the instruction at an address, or any one.
    Begun(bool, Option<u32>),
}

impl Sight {
    /// It stops core 0 at the state of a machine.
    #[inline(always)]
    fn stops(&self, machine: &Machine) -> bool
        ensures { result ≡ stops_at self.now machine.now }
    {
        match *self {
            Sight::Word(address, before) => word_at(machine, address) != before,
            Sight::Begun(false, address) => is_begun(address, machine.begins(0)),
            Sight::Begun(true, address) => is_begun(address, machine.begins(1)),
        }
    }
}

impl Watch for Sight {
    ghost use Rattle.reverse_debug.specs.Sight.{stops_at, stops_inward};

    ghost stops = { stops_at };

    fn go_onward<L: Ledger>(
        &self,
        machine: &mut Machine,
        most: u64,
        marks: &mut Marks,
        steps: &mut Steps<L>,
    ) -> u64 {
        let mut done = 0;
        'cycles: while done < most {
            if machine.go_onward(1, marks, steps) == 0 {
                return done;
            }
            done += 1;
            if self.stops(machine) {
                return done;
            }
            continue 'cycles;
        }
        done
    }

    ghost looks_inward = { stops_inward };
}

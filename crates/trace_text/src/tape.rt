//! Where the events of a run go.

ghost use Rattle.std.specs.Prelude.{◌≡◌, ◌≤◌, ℕ, List, [], ◌∷◌, ◌++◌, OnOk, OnErr};
ghost use Rattle.rp_ports.specs.Fault.{Rose};
ghost use Rattle.trace_text.specs.declared.event.Event.{Event};

use crate::event::Event;
use crate::writer::SinkFault;

/// Takes the events of a run, one after another.
pub trait Tape {
    /// How often it failed. The count never falls.
    ghost faults: { Self → ℕ };

    /// What stands between a tape, the events that it took, and the tape then.
    ghost took: { Self → List Event → Self → Type 0 };

    /// What stands between a tape, the event at which it failed, and the tape then.
    ghost missed: { Self → Event → Self → Type 0 };

    /// Takes one event. It takes no memory.
    ///
    /// # Errors
    ///
    /// It failed to take the event, and its count of faults rose.
    fn event(&mut self, event: &Event) -> Result<(), SinkFault>
        ensures taken { OnOk result (took self.old (event.now ∷ []) self.new) }
        ensures failed { OnErr result (missed self.old event.now self.new) }
        ensures cause { OnErr result (Rose (faults self.old) (faults self.new)) }
        ensures count { faults self.old ≤ faults self.new };

    /// A tape that took no event is as it was.
    ghost takes_none: { (tape : Self) → took tape [] tape };

    /// Events that are taken after others are taken with them.
    ghost takes_in_turn: { (a b c : Self) (first second : List Event) → took a first b
        → took b second c → took a (first ++ second) c };
}
